//! Members of an actor with each name written out in full, or the rule of scope that they break, with its place.

use crate::rows::hold;
use kit_scopes::Asked;

#[test]
fn functions_and_procedures(rt: HostRuntime) {
    hold(&rt, rt.alloc(), Asked::Members, FUNCTIONS);
}

/// Functions and procedures. Formals and locals are one scope, and hide what is outside.
const FUNCTIONS: &str = "
# function h ( int x ) --> int : x + k end
= function h ( int x ) --> int : x + lib.U.k end
# function h ( int k ) --> int : k + n end
= function h ( int k ) --> int : k + n end
# function h ( int x ) --> int var int k = k + x : k end
= function h ( int x ) --> int var int k = lib.U.k + x : k end
# function h ( int x , int x ) --> int : x end
= S2 at 21
# function h ( int x ) --> int var int x = 1 : x end
= S2 at 33
# function h ( int f ) --> int : f ( f ) end
= S5 at 31
# procedure q ( int x ) begin n := g ( x ) ; p ( k ) ; end
= procedure q ( int x ) begin n := lib.U.g ( x ) ; p ( lib.U.k ) ; end
# procedure q ( ) begin f ( 1 ) ; end
= S5 at 22
# procedure q ( ) begin m := 1 ; end
= S1 at 22";

#[test]
fn statements(rt: HostRuntime) {
    hold(&rt, rt.alloc(), Asked::Members, STATEMENTS);
}

/// Statements, in procedures.
const STATEMENTS: &str = "
# procedure q ( ) begin foreach int k in 1 .. k do n := k ; end end
= procedure q ( ) begin foreach int k in 1 .. lib.U.k do n := k ; end end
# procedure q ( ) begin foreach int i in 1 .. 2 do n := i ; end n := i ; end
= S1 at 67
# procedure q ( ) begin begin var int k = k do k := k ; end k := n ; end
= procedure q ( ) begin begin var int k = lib.U.k do k := k ; end lib.U.k := n ; end
# procedure q ( ) begin begin var int j = 1 , int j = 2 do end end
= S2 at 44
# procedure q ( ) begin while k < 1 do n [ k ] := k ; end end
= procedure q ( ) begin while lib.U.k < 1 do n [ lib.U.k ] := lib.U.k ; end end
# procedure q ( ) begin if true then n := k ; else n := j ; end end
= S1 at 54";

#[test]
fn actions(rt: HostRuntime) {
    hold(&rt, rt.alloc(), Asked::Members, ACTIONS);
}

/// Actions, whose ports are those of the header. A `repeat` sees no pattern variable.
const ACTIONS: &str = "
# action In : [ k ] ==> Out : [ k , g ( k ) ] end
= action In : [ k ] ==> Out : [ k , lib.U.g ( k ) ] end
# action In : [ k ] repeat k ==> end
= action In : [ k ] repeat lib.U.k ==> end
# a . b : action ==> guard k = n var int k = k do n := k ; end
= a . b : action ==> guard lib.U.k = n var int k = lib.U.k do n := k ; end
# action In : [ a , a ] ==> end
= S2 at 18
# action In : [ a ] ==> var int a = 1 end
= S2 at 26
# action Out : [ a ] ==> end
= S5 at 7
# action Im : [ a ] ==> end
= S1 at 7
# action ==> In : [ 1 ] end
= S5 at 11
# action ==> Out : [ a ] end
= S1 at 19
# initialize ==> Out : [ k ] end
= initialize ==> Out : [ lib.U.k ] end";
