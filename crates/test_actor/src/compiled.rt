//! Actions, guards that call functions, lists, and turns that run out, at work in cells.

use crate::sources::hold;
use kit_built::{code_of, fire_twice};

const ACTIONS: &str = "
# The initialize action comes first.
actor Ini() uint(size=8) In ==> uint(size=8) Out :
  initialize ==> Out:[9] end action In:[a] ==> Out:[a] end end
> 5
= fires 0 1, sends 9 5, waits, 0 left
# Repeated tokens take turns.
actor Rep() uint(size=8) In ==> uint(size=8) Out :
  action In:[a, b] repeat 2 ==> Out:[b, a] repeat 2 end end
> 1 2 3 4 5
= fires 0, sends 2 1 4 3, waits, 1 left
# A guard that is false takes no token, nor does one that lacks one.
actor Peek() uint(size=8) In ==> uint(size=8) Out :
  action In:[a, b] ==> Out:[a] guard b > 100 end end
> 1
= fires, sends, waits, 1 left
# It peeks at both.
actor Peek() uint(size=8) In ==> uint(size=8) Out :
  action In:[a, b] ==> Out:[a] guard b > 100 end end
> 1 101
= fires 0, sends 1, waits, 0 left
# The action above comes first as long as it has its tokens.
actor Two() uint(size=8) In ==> uint(size=8) Out :
  hi: action In:[a, b] ==> Out:[a + b] end lo: action In:[a] ==> Out:[a] end priority hi > lo; end end
> 1 2 3
= fires 0 1, sends 3 3, waits, 0 left
# Guards on the state take turns.
actor Alt() uint(size=8) A, uint(size=8) B ==> uint(size=8) Out : uint(size=1) s := 0;
  ta: action A:[x] ==> Out:[x] guard s = 0 do s := 1; end
  tb: action B:[x] ==> Out:[x] guard s != 0 do s := 0; end end
> 1 2; 10
= fires 0 1 0, sends 1 10 2, waits, 0 left
# A schedule of two states, whose tags are prefixes.
actor Fsm() uint(size=8) In ==> uint(size=8) Out :
  a.x: action In:[v] ==> Out:[1] guard v < 10 end
  a.y: action In:[v] ==> Out:[2] guard v >= 10, v < 20 end
  b: action In:[v] ==> Out:[3] guard v < 20 end
  action In:[v] ==> Out:[v] guard v >= 20 end
  schedule fsm s0 : s0 (a) --> s1; s1 (b) --> s0; end end
> 5 15 30 12 3
= fires 0 2 3 1 2, sends 1 3 30 2 3, waits, 0 left
# A body that traps leaves its tokens.
actor Div() uint(size=8) In ==> uint(size=8) Out : action In:[a, b] ==> Out:[a / b] end end
> 10 2 7 0 9 3
= fires 0, sends 5, traps in 0 by DivideByZero, 4 left
# Tokens of two bytes.
actor Id16() int(size=16) In ==> int(size=16) Out : action In:[x] ==> Out:[x] end end
> -32767
= fires 0, sends -32767, waits, 0 left";

const CALLS: &str = "
# Guards call a function.
actor Even() uint(size=8) In ==> uint(size=8) Out :
  function half(uint(size=8) v) --> uint(size=8) : v / 2 end
  action In:[x] ==> Out:[half(x)] guard half(x) * 2 = x end
  action In:[x] ==> Out:[x] guard half(x) * 2 != x end end
> 4 5 255 254
= fires 0 1 1 0, sends 2 5 255 127, waits, 0 left
# A function that a guard calls reads the state, which stays as it was.
actor Rise() uint(size=8) In ==> uint(size=8) Out : uint(size=8) n := 0;
  function above(uint(size=8) v) --> bool : v > n end
  up: action In:[x] ==> Out:[x] guard above(x) do n := x; end
  down: action In:[x] ==> Out:[n] guard not above(x) end end
> 5 3 7 7
= fires 0 1 0 1, sends 5 5 7 7, waits, 0 left
# It calls another one, with two arguments.
actor Near() uint(size=8) In ==> uint(size=8) Out :
  function near(uint(size=8) v, uint(size=8) w) --> bool : apart(v, w) < 3 end
  function apart(uint(size=8) v, uint(size=8) w) --> uint(size=8) : if v < w then w - v else v - w end end
  action In:[x, y] ==> Out:[y] guard near(x, y) end
  action In:[x, y] ==> Out:[0] guard not near(x, y) end end
> 10 12 12 10 1 9
= fires 0 0 1, sends 12 10 0, waits, 0 left
# A guard traps in a function.
actor Per() uint(size=8) In ==> uint(size=8) Out :
  function per(uint(size=8) v) --> int : 100 / v end
  action In:[x] ==> Out:[x] guard per(x) < 50 end end
> 5 0
= fires 0, sends 5, traps in 0 by DivideByZero, 1 left
# An argument is stored in its type.
actor Wrap() int(size=16) In ==> int(size=16) Out :
  function low(uint(size=8) v) --> int(size=16) : v end
  action In:[x] ==> Out:[low(x)] guard low(x) = 1 end
  action In:[x] ==> Out:[0] guard low(x) != 1 end end
> 257 2 -255
= fires 0 1 0, sends 1 0 1, waits, 0 left";

const LISTS: &str = "
# An item of a list that is written out, and an index behind its last one.
actor Pick() uint(size=8) In ==> uint(size=8) Out :
  action In:[i] ==> Out:[[10, 20, 30][i]] end end
> 2 0 1 3
= fires 0 0 0, sends 30 10 20, traps in 0 by IndexRange, 1 left
# An item of a list that a generator makes.
actor Made() uint(size=8) In ==> uint(size=8) Out :
  action In:[x, i] ==> Out:[[x + k : for int k in 0 .. 3][i]] end end
> 5 3 7 0 1 4
= fires 0 0, sends 8 7, traps in 0 by IndexRange, 2 left
# An item of a list that is chosen.
actor Chosen() uint(size=8) In ==> uint(size=8) Out :
  action In:[x, i] ==> Out:[(if x > 5 then [1, 2] else [x, 4] end)[i]] end end
> 6 1 3 0 4 1
= fires 0 0 0, sends 2 3 4, waits, 0 left
# Lists in lists, and an index in an index.
actor Deep() uint(size=8) In ==> uint(size=8) Out :
  action In:[i, j] ==> Out:[[[1, 2], [3, 4], [5, 6]][[2, 1, 0][i]][j] + [7, 9][j]] end end
> 0 1 1 0 2 1
= fires 0 0 0, sends 15 10 11, waits, 0 left
# In guards.
actor Ask() uint(size=8) In ==> uint(size=8) Out :
  action In:[x] ==> Out:[1] guard [3, 0][x] > 1 end
  action In:[x] ==> Out:[2] guard [3, 0][x] <= 1 end end
> 0 1 0 2
= fires 0 1 0, sends 1 2 1, traps in 0 by IndexRange, 1 left
# An item of a list that a generator makes, in guards.
actor Sift() uint(size=8) In ==> uint(size=8) Out :
  action In:[x, i] ==> Out:[x] guard [x * k : for int k in 1 .. 3][i] > 10 end
  action In:[x, i] ==> Out:[0] guard [x * k : for int k in 1 .. 3][i] <= 10 end end
> 4 2 4 1 6 0 1 3
= fires 0 1 1, sends 4 0 0, traps in 0 by IndexRange, 2 left
# In a function that guards call.
actor Above() uint(size=8) In ==> uint(size=8) Out :
  function above(int v, int i) --> bool : [v + k : for int k in 0 .. 3][i] > 9 end
  action In:[x] ==> Out:[x] guard above(x, 3) end
  action In:[x] ==> Out:[0] guard not above(x, 3) end end
> 7 6 200
= fires 0 1 0, sends 7 0 200, waits, 0 left
# Cells that are cleared before a guard aren't those of the state.
actor Kept() uint(size=8) In ==> uint(size=8) Out : uint(size=8) n := 5;
  action In:[x] ==> Out:[n] guard [n + k : for int k in 0 .. 1][x] > 5 do n := n + 1; end
  action In:[x] ==> Out:[0] guard [n + k : for int k in 0 .. 1][x] <= 5 end end
> 0 1 0
= fires 1 0 0, sends 0 6 7, waits, 0 left
# The list comes before the index, and both before the test.
actor Order() uint(size=8) In ==> uint(size=8) Out :
  action In:[x, i] ==> Out:[[1, 6 / x][9 / i]] end end
> 3 9 0 1
= fires 0, sends 2, traps in 0 by DivideByZero, 2 left
# In a function, and in a loop whose rounds find other items there.
actor Loop() uint(size=8) In ==> uint(size=8) Out :
  function item(int v, int i) --> int : [v, 2 * v, 3 * v][i] end
  action In:[n] ==> Out:[s] var int i := 0, int s := 0
  do while i < n do s := s + [i, s][1] + item(i, 2); i := i + 1; end end end
> 3 0 1
= fires 0 0 0, sends 12 0 0, waits, 0 left";

const TURNS: &str = "
# All turns but one too many.
actor Loop() uint(size=32) In ==> uint(size=8) Out :
  action In:[n] ==> Out:[1] var int i := 0 do while i < n do i := i + 1; end end end
> 1048576 1048577
= fires 0, sends 1, traps in 0 by TurnLimit, 1 left
# A guard runs out of turns in the functions that it calls.
actor Deep() uint(size=8) In ==> uint(size=8) Out :
  function f0(int v) --> int : v end
  function f1(int v) --> int : f0(v) + f0(v) + f0(v) + f0(v) + f0(v) + f0(v) + f0(v) + f0(v) end
  function f2(int v) --> int : f1(v) + f1(v) + f1(v) + f1(v) + f1(v) + f1(v) + f1(v) + f1(v) end
  function f3(int v) --> int : f2(v) + f2(v) + f2(v) + f2(v) + f2(v) + f2(v) + f2(v) + f2(v) end
  function f4(int v) --> int : f3(v) + f3(v) + f3(v) + f3(v) + f3(v) + f3(v) + f3(v) + f3(v) end
  function f5(int v) --> int : f4(v) + f4(v) + f4(v) + f4(v) + f4(v) + f4(v) + f4(v) + f4(v) end
  function f6(int v) --> int : f5(v) + f5(v) + f5(v) + f5(v) + f5(v) + f5(v) + f5(v) + f5(v) end
  function f7(int v) --> int : f6(v) + f6(v) + f6(v) + f6(v) + f6(v) + f6(v) + f6(v) + f6(v) end
  action In:[x] ==> Out:[x] guard x = 0 or f7(x) > 0 end end
> 0 1
= fires 0, sends 0, traps in 0 by TurnLimit, 1 left";

#[test]
fn actions_fire(rt: HostRuntime) {
    hold(&rt, rt.alloc(), ACTIONS);
}

#[test]
fn guards_call_functions(rt: HostRuntime) {
    hold(&rt, rt.alloc(), CALLS);
}

#[test]
fn any_list_is_indexed(rt: HostRuntime) {
    hold(&rt, rt.alloc(), LISTS);
}

#[test]
fn turns_run_out(rt: HostRuntime) {
    hold(&rt, rt.alloc(), TURNS);
}

#[test]
fn queues_go_round(rt: HostRuntime) {
    let source =
        "actor Rep() uint(size=8) In ==> uint(size=8) Out : action In:[a, b] repeat 2 ==> Out:[b, a] repeat 2 end end";
    let code = code_of(rt.alloc(), source).expect(&rt, "memory");
    let code = code.expect(&rt, "an actor");
    let fired = fire_twice(rt.alloc(), code, "1 2 3 4 5", "6 7 8").expect(&rt, "memory");
    let (first, second) = fired.expect(&rt, "two firings");
    assert_eq!(rt; first.as_str(), "fires 0, sends 2 1 4 3, goes on, 1 left");
    assert_eq!(rt; second.as_str(), "fires 0, sends 6 5 8 7, goes on, 0 left");
}

const STORES: &str = "
# A list is stored in an item of a list, each number in its type, and not behind the last item.
actor Rows() uint(size=8) In ==> uint(size=8) Out :
  List(type: List(type: uint(size=4), size=2), size=3) m := [[0, 0], [0, 0], [0, 0]];
  action In:[i, x] ==> Out:[m[i][0], m[i][1]] do m[i] := [x, x + 1]; end end
> 2 20 0 15 3 1
= fires 0 0, sends 4 5 15 0, traps in 0 by IndexRange, 2 left
# Its neighbours stay as they were.
actor Near() uint(size=8) In ==> uint(size=8) Out :
  List(type: List(type: uint(size=8), size=2), size=3) m := [[1, 2], [3, 4], [5, 6]];
  action In:[x] ==> Out:[m[0][0], m[0][1], m[1][0], m[1][1], m[2][0], m[2][1]] do m[1] := [x, x]; end end
> 9
= fires 0, sends 1 2 9 9 5 6, waits, 0 left
# Another item of the same list, and items that are exchanged in one.
actor Swap() uint(size=8) In ==> uint(size=8) Out :
  List(type: List(type: uint(size=8), size=2), size=2) m := [[1, 2], [3, 4]];
  action In:[i] ==> Out:[m[0][0], m[0][1], m[1][0], m[1][1]]
  do m[i] := m[1 - i]; m[0] := [m[0][1], m[0][0]]; end end
> 1
= fires 0, sends 2 1 1 2, waits, 0 left
# From a name, a generator, a choice and a list that is filled apart.
actor Ways() uint(size=8) In ==> uint(size=8) Out :
  List(type: List(type: uint(size=8), size=2), size=4) m;
  action In:[x] ==> Out:[m[0][1], m[1][1], m[2][1], m[3][1]] var List(type: int(size=8), size=2) v := [x, x + 1]
  do m[0] := v; m[1] := [x * k : for int k in 2 .. 3]; m[2] := if x > 5 then v else m[0] end;
    m[3] := [[1, 2], [3, x]][x / 7]; end end
> 7 1
= fires 0 0, sends 8 21 8 7 2 3 2 2, waits, 0 left
# At any depth, with indexes in indexes.
actor Deep() uint(size=8) In ==> uint(size=8) Out :
  List(type: List(type: List(type: uint(size=8), size=2), size=2), size=2) c;
  action In:[i, j, x] ==> Out:[c[1][0][1], c[1][1][0], c[1][1][1]]
  do c[[1, 0][i]] := [[x, x + 1], [x + 2, x + 3]]; c[1][c[1][0][j] - x] := [9, x]; end end
> 0 1 5
= fires 0, sends 6 9 5, waits, 0 left
# The places come first, then the value, and then the tests.
actor Order() uint(size=8) In ==> uint(size=8) Out :
  List(type: List(type: uint(size=8), size=2), size=3) m;
  action In:[i, x] ==> Out:[m[2][0]] do m[9 / i] := [6 / x, 0]; end end
> 4 2 3 0
= fires 0, sends 3, traps in 0 by DivideByZero, 2 left
# The tests go from left to right, and no number is stored before them.
actor Left() uint(size=8) In ==> uint(size=8) Out :
  List(type: List(type: List(type: uint(size=8), size=1), size=2), size=2) c;
  action In:[i, j] ==> Out:[c[i][j][0]] do c[i][j] := [i + j + 1]; end end
> 1 1 1 2
= fires 0, sends 3, traps in 0 by IndexRange, 2 left
# In a procedure, and in a loop.
actor Proc() uint(size=8) In ==> uint(size=8) Out :
  List(type: List(type: uint(size=8), size=2), size=3) m;
  procedure put(int i, int x) begin m[i] := [x, i]; end
  action In:[x] ==> Out:[m[0][0], m[1][1], m[2][0]]
  do foreach int i in 0 .. 2 do put(i, x + i); end end end
> 4
= fires 0, sends 4 1 6, waits, 0 left
# Tokens are stored in an item.
actor Take() uint(size=8) In ==> uint(size=8) Out :
  List(type: List(type: uint(size=8), size=2), size=2) m;
  action In:[v] repeat 2 ==> Out:[m[1][0], m[1][1], m[0][0]] do m[1] := v; end end
> 7 8
= fires 0, sends 7 8 0, waits, 0 left
# Lists in lists are stored whole, from another one and from the same.
actor Whole() uint(size=8) In ==> uint(size=8) Out :
  List(type: List(type: uint(size=4), size=2), size=2) m;
  List(type: List(type: uint(size=8), size=2), size=2) k := [[1, 2], [3, 20]];
  action In:[x] ==> Out:[m[0][0], m[0][1], m[1][0], m[1][1]] do k[0] := [x, k[1][0]]; m := k; m := m; end end
> 17
= fires 0, sends 1 3 3 4, waits, 0 left";

#[test]
fn lists_are_stored_in_lists(rt: HostRuntime) {
    hold(&rt, rt.alloc(), STORES);
}
