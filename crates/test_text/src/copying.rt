//! Files with every kind of part, and their copies.

use kit_trees::is_copied;
use std::alloc::Global;
use std::process::Abort;

/// Stops unless the copy of the file that a text spells is equal to it.
fn has_copy(rt: &impl Abort, alloc: Global, text: &str) {
    assert!(rt; is_copied(alloc, text.as_bytes()).expect(rt, "memory"));
}

#[test]
fn a_copied_actor_is_equal(rt: HostRuntime) {
    has_copy(&rt, rt.alloc(), ACTOR);
}

/// An actor with each kind of member, statement and expression.
const ACTOR: &str = "package go.on;
import dec.Lib;
import dec.*;
actor A(int(size=8, type:int) K, int L = 1) int(size=8) In, int B ==> int(size=8) Out, int C :
  int(size=8, type:int) v := 1;
  int w;
  int c = 1;
  function f(int(size=8) In) --> int(size=8) var int v = 1, int w := 2 : 6 end
  procedure p(int(size=8) In)
  var int v := 1
  begin
    p(x, f(false), (1), if 2 then 3 else 4 end, [5], [6 : for int(size=8) k in 0 .. true], l[8], ~9, 10 mod 11);
    q();
    if false then
      foreach int(size=8) i in 3 .. 4 do
        while true do
          begin
          var int v := 1
          do
            y[x][f(false)] := 2;
            y := [3, 4];
          end
        end
      end
    else
      if false then end
    end
  end
  go.on: action In:[n] repeat 5, [m] ==> [x, -1], Out:[2] repeat 1
  guard not true, f(x) = 2
  var int v := 1
  do
    v := 2;
  end
  initialize ==> end
  schedule fsm s : s (go.on, go) --> t; t (go) --> s; end
  priority go.on > go > go.on; go > go.on; end
end";

#[test]
fn a_copied_unit_is_equal(rt: HostRuntime) {
    has_copy(&rt, rt.alloc(), UNIT);
}

/// A unit with a variable.
const UNIT: &str = "package go.on;
import dec.Lib;
unit U :
  int(size=8, type:int) v := 1;
end";
