//! Functions with lists, and truth values in front of `and` and `or`, at work in cells.

use crate::sources::hold;

const FUNCTIONS: &str = "
# A function has a list, whose start sees the argument.
actor Pick() uint(size=8) In ==> uint(size=8) Out :
  function pick(uint(size=8) v) --> uint(size=8)
    var List(type: uint(size=8), size=4) t = [v, v + 1, 7, v * 2] : t[v mod 4] end
  action In:[x] ==> Out:[pick(x)] end end
> 0 5 2 3 131
= fires 0 0 0 0 0, sends 0 6 7 6 6, waits, 0 left
# Its numbers are stored in its type, and later locals see it.
actor Sum() uint(size=8) In ==> uint(size=8) Out :
  function sum(uint(size=8) v) --> uint(size=8)
    var List(type: uint(size=4), size=3) t = [v + k : for int k in 0 .. 2], int n = t[0] + t[1],
        List(type: int, size=2) u = [n, n * t[2]] : u[1] + u[0] end
  action In:[x] ==> Out:[sum(x)] end end
> 1 15
= fires 0 0, sends 12 30, waits, 0 left
# Lists in lists, one without a start, a call in a start, and an index behind the last item.
actor Grid() uint(size=8) In ==> uint(size=8) Out :
  function twice(uint(size=8) v) --> uint(size=8) : 2 * v end
  function grid(uint(size=8) i, uint(size=8) j) --> uint(size=8)
    var List(type: List(type: uint(size=8), size=2), size=2) m = [[i, twice(j)], [3, 4]],
        List(type: uint(size=8), size=3) z : m[i][j] + z[2] end
  action In:[i, j] ==> Out:[grid(i, j)] end end
> 0 1 1 0 0 0 2 0
= fires 0 0 0, sends 2 3 0, traps in 0 by IndexRange, 2 left
# A list is started again in each call, and a guard calls the function too.
actor Again() uint(size=8) In ==> uint(size=8) Out :
  function last(uint(size=8) v) --> uint(size=8) var List(type: uint(size=8), size=2) t = [t0(v), v / 2] : t[1] + t[0] end
  function t0(uint(size=8) v) --> uint(size=8) var List(type: uint(size=8), size=2) t = [9, v] : t[v mod 2] end
  action In:[x] ==> Out:[last(x) + last(x + 1)] guard last(x) > 9 end
  action In:[x] ==> Out:[last(x)] guard last(x) <= 9 end end
> 4 1 0 3
= fires 0 1 1 1, sends 18 1 9 4, waits, 0 left";

const TRUTHS: &str = "
# A call in front of `and` and of `or`.
actor Both() uint(size=8) In ==> uint(size=8) Out :
  function even(uint(size=8) v) --> bool : v mod 2 = 0 end
  action In:[x] ==> Out:[1] guard even(x) and x > 3 end
  action In:[x] ==> Out:[2] guard even(x) or x > 3, not (even(x) and x > 3) end
  action In:[x] ==> Out:[3] guard not (even(x) or x > 3) end end
> 4 2 5 1
= fires 0 1 1 2, sends 1 2 2 3, waits, 0 left
# Items of lists that are written out, and that generators make.
actor Items() uint(size=8) In ==> uint(size=8) Out :
  action In:[x, i] ==> Out:[if [true, x > 5][i] and x < 9 then 1 else 2 end,
    if [k = i : for int k in 0 .. 2][x mod 3] or x = 7 then 3 else 4 end] end end
> 6 1 4 1 7 2
= fires 0 0, sends 1 4 2 3, traps in 0 by IndexRange, 2 left
# Items of a list that is chosen.
actor Chosen() uint(size=8) In ==> uint(size=8) Out :
  function even(uint(size=8) v) --> bool : v mod 2 = 0 end
  action In:[x, i] ==> Out:[if (if x > 5 then [even(x), true] else [false, even(x)] end)[i] and x > 1 then 5 else 6 end] end end
> 6 1 4 1 7 0 5 1
= fires 0 0 0 0, sends 5 5 6 6, waits, 0 left
# Lists in lists, with a name and without one, and what stands behind is evaluated only if it decides.
actor Deep() uint(size=8) In ==> uint(size=8) Out :
  List(type: List(type: bool, size=2), size=2) m := [[true, false], [false, true]];
  action In:[i, j] ==> Out:[if m[i][j] and [[i > 0, true], [false, 4 / i > 3]][i][j] then 1 else 2 end] end end
> 0 1 1 1 1 0 0 0
= fires 0 0 0, sends 2 1 2, traps in 0 by DivideByZero, 2 left
# A call with a list's item, and with a call, as its argument.
actor Inner() uint(size=8) In ==> uint(size=8) Out :
  function odd(uint(size=8) v) --> bool : v mod 2 = 1 end
  function half(uint(size=8) v) --> uint(size=8) : v / 2 end
  action In:[x] ==> Out:[if odd(half([x, 4][x mod 2])) or odd(x + 1) then 1 else 0 end] end end
> 4 5 2 3
= fires 0 0 0 0, sends 1 0 1 0, waits, 0 left";

const EMPTY: &str = "
# An index on a list without items traps, and nothing of its element is evaluated.
actor Index() uint(size=8) In ==> uint(size=8) Out :
  action In:[x] ==> Out:[if x < 7 then x else [4 / (x - x) : for int k in 1 .. 0][x] end] end end
> 3 7
= fires 0, sends 3, traps in 0 by IndexRange, 1 left
# The index is evaluated before it is tested.
actor Order() uint(size=8) In ==> uint(size=8) Out :
  action In:[x] ==> Out:[if x < 7 then x else [k : for int k in 1 .. 0][4 / (x - 7)] end] end end
> 3 7
= fires 0, sends 3, traps in 0 by DivideByZero, 1 left
# A generator of no number inside another one, and a list of lists without items in front of `and`.
actor Inner() uint(size=8) In ==> uint(size=8) Out :
  action In:[x] ==> Out:[if x < 5 then 1 else [j + k : for int j in 1 .. 9, for int k in 1 .. 0][0] end] end
  action In:[x] ==> Out:[2] guard x > 5 and [[true : for int k in 1 .. 0] : for int j in 1 .. 2][x][0] and x > 1 end end
> 4 5
= fires 0, sends 1, traps in 0 by IndexRange, 1 left
# An item of a list without items that is a list.
actor Rows() uint(size=8) In ==> uint(size=8) Out :
  List(type: uint(size=8), size=2) v;
  action In:[x] ==> Out:[v[1]] do v := if x < 7 then [x, x] else [[k, k] : for int k in 1 .. 0][0] end; end end
> 3 7
= fires 0, sends 3, traps in 0 by IndexRange, 1 left";

#[test]
fn lists_may_have_no_items(rt: HostRuntime) {
    hold(&rt, rt.alloc(), EMPTY);
}

#[test]
fn functions_have_lists(rt: HostRuntime) {
    hold(&rt, rt.alloc(), FUNCTIONS);
}

#[test]
fn truth_values_are_seen(rt: HostRuntime) {
    hold(&rt, rt.alloc(), TRUTHS);
}
