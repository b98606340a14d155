//! The kinds of expressions over constants and functions, or the first rule that one breaks, with its place.

use crate::rows::{Asked, hold};

#[test]
fn kinds(rt: HostRuntime) {
    hold(&rt, rt.alloc(), "n l", Asked::Kind, KINDS);
}

/// Expressions over the constants `n` and `l`.
const KINDS: &str = "
# 7 and true
= T1 at 0
# false and true
= Bool
# 1 < 2
= Bool
# 1 / 0
= Num
# true < false
= T1 at 0
# l = l
= T1 at 0
# not true
= Bool
# ~true
= T1 at 0
# n
= Num
# l
= List(2, Bool)
# m
= S1 at 0
# 1 + true + m
= T1 at 0
# m + true
= S1 at 0
# [m : for float i in 1 .. 1]
= S1 at 1
# [1, 2]
= List(2, Num)
# [[true]]
= List(1, List(1, Bool))
# [1, true]
= T1 at 0
# [[1], [true]]
= T1 at 0
# [[1, 2], [3]]
= T5 at 0
# if true then [1, 2] else [3] end
= T5 at 0
# [1, 2][7]
= Num
# (1)[7]
= T1 at 0
# [1][true]
= T1 at 0
# if true then 1 else 2 end
= Num
# if 1 then 1 else 2 end
= T1 at 0
# if true then 1 else true end
= T1 at 0
# [i : for int(size=8) i in 1 .. 2, for int(size=8) j in 3 .. 5]
= List(6, Num)
# [1 : for int(size=8) i in 1 .. 20000, for int(size=8) j in 1 .. 0]
= List(0, Num)
# [1 : for int(size=8) i in 1 .. 16384]
= List(16384, Num)
# [1 : for int(size=8) i in 1 .. 16385]
= Z4 at 0
# [[0 : for int(size=8) j in 1 .. 0] : for int(size=8) i in 1 .. 20000]
= Z4 at 0
# [1 : for int(size=8) i in -170141183460469231731687303715884105727 - 1 .. 170141183460469231731687303715884105727]
= Z4 at 0
# [1 : for int(size=8) i in 1 .. 1 / 0]
= T7 at 31
# [1 : for int(size=8) i in true .. 1]
= T1 at 26
# [1 : for uint i in 1 .. 3]
= List(3, Num)
# [1 : for uint(size=32) i in 1 .. 3]
= List(3, Num)
# [1 : for uint(size=64) i in 1 .. 3]
= List(3, Num)
# [1 : for int(size=65) i in 1 .. 3]
= T2 at 9
# [1 : for int(size=0) i in 1 .. 3]
= T2 at 9
# [1 : for int(size=18446744073709551617) i in 1 .. 3]
= T2 at 9
# [1 : for bool(size=1) i in 1 .. 3]
= T2 at 9
# [1 : for List(size=1) i in 1 .. 3]
= T2 at 9
# [1 : for bool i in 1 .. 3]
= T1 at 9
# [1 : for half i in 1 .. 3]
= T3 at 9
# [1 : for Byte i in 1 .. 3]
= S1 at 9
# [1 : for List(size=2, type:int) i in 1 .. 3]
= T1 at 9
# [1 : for List(size=128, type:List(size=129, type:int)) i in 1 .. 3]
= Z4 at 9";

#[test]
fn calls(rt: HostRuntime) {
    hold(&rt, rt.alloc(), "f(x)=true", Asked::Kind, CALLS);
}

/// Expressions over the function `f` of a number.
const CALLS: &str = "
# f(1)
= Bool
# f(true)
= T1 at 2
# g(true)
= S1 at 0
# f()
= T6 at 0
# f(1, 2, m)
= S1 at 8";

#[test]
fn generators_hide_constants(rt: HostRuntime) {
    hold(&rt, rt.alloc(), "f()=n n", Asked::Kind, HIDDEN);
}

/// Generators over the constant `n`, which the function `f` gives too.
const HIDDEN: &str = "
# [1 : for int(size=8) i in 1 .. 3, for int(size=8) j in 1 .. n]
= List(6, Num)
# [1 : for int(size=8) i in 1 .. 3, for int(size=8) j in 1 .. i]
= T9 at 60
# [1 : for int(size=8) n in 1 .. 3, for int(size=8) j in 1 .. n]
= T9 at 60
# [1 : for int(size=8) n in 1 .. 3, for int(size=8) j in 1 .. f()]
= List(6, Num)";
