//! Expressions and types with each name written out in full, or the rule that they break, with its place.

use crate::rows::hold;
use kit_scopes::Asked;

#[test]
fn expressions(rt: HostRuntime) {
    hold(&rt, rt.alloc(), Asked::Expression, EXPRESSIONS);
}

/// Expressions that see the names of `kit_scopes`: unknown names and names that are used as what they aren't, and inner names
/// that hide outer ones, of which a generator doesn't see itself.
const EXPRESSIONS: &str = "
# n + k
= n + lib.U.k
# f(g(k), -n)
= f ( lib.U.g ( lib.U.k ) , - n )
# if true then [n, (k)] else [1][k] end
= if true then [ n , ( lib.U.k ) ] else [ 1 ] [ lib.U.k ] end
# n + m
= S1 at 4
# h(m)
= S1 at 0
# f(m)
= S1 at 2
# g
= S5 at 0
# k(1)
= S5 at 0
# p(1)
= S5 at 0
# 1 + p
= S5 at 4
# [k : for int k in 1 .. 2]
= [ k : for int k in 1 .. 2 ]
# [k : for int k in 1 .. k]
= [ k : for int k in 1 .. lib.U.k ]
# [k : for int k in 1 .. 2, for int i in k .. n]
= [ k : for int k in 1 .. 2 , for int i in k .. n ]
# [1 : for int i in k .. j, for int j in 1 .. 2]
= S1 at 23
# [j : for int i in 1 .. 2]
= S1 at 1
# [i : for int i in 1 .. i]
= S1 at 23
# [g(1) : for int g in 1 .. 2]
= S5 at 1
# [1 : for int i in 1 .. 2][i]
= S1 at 26
# [i : for int i in 1 .. 2, for int i in i .. k]
= [ i : for int i in 1 .. 2 , for int i in i .. lib.U.k ]
# [[k : for int j in i .. k] : for int i in 1 .. k]
= [ [ lib.U.k : for int j in i .. lib.U.k ] : for int i in 1 .. lib.U.k ]";

#[test]
fn types(rt: HostRuntime) {
    hold(&rt, rt.alloc(), Asked::Type, TYPES);
}

/// Types that see the same names.
const TYPES: &str = "
# int(size=k)
= int ( size = lib.U.k )
# List(type: uint(size=n), size=g(k))
= List ( type : uint ( size = n ) , size = lib.U.g ( lib.U.k ) )
# float
= float
# Byte
= S1 at 0
# n
= S1 at 0
# List(type: Byte, size=2)
= S1 at 11
# int(size=m)
= S1 at 9";
