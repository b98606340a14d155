//! Texts with the trees that they spell, or the place where they break the grammar.

use crate::table::answered;
use kit_trees::{Alone, Asked, told, told_alone};
use rvc_base::Memory;
use std::alloc::Global;
use std::process::Abort;

/// Stops unless a text has its answer.
fn holds(rt: &impl Abort, alloc: Global, asked: Asked, text: &[u8], expected: &str) {
    let found = told(alloc, asked, text).expect(rt, "an answer");
    assert_eq!(rt; found.as_str(), expected);
}

/// Stops unless each text of a table has its answer.
fn hold(rt: &impl Abort, alloc: Global, asked: Asked, table: &str) {
    for row in table.split("\n# ") {
        if !row.is_empty() {
            let (text, expected) = answered(row);
            holds(rt, alloc, asked, text.as_bytes(), expected);
        }
    }
}

#[test]
fn files(rt: HostRuntime) {
    hold(&rt, rt.alloc(), Asked::File, FILES);
}

/// Packages, imports, parameters and ports, and where a file begins.
const FILES: &str = "
# package a.b; import c.*; import d.e; unit U : end
= (file (a@8.b@10)@8 [(import [c@20] *)@13 (import [d@32] e@34)@25] (unit U@42 [])@37)@0
# import a.b.c.d; actor A(int K = 1, bool b) int X ==> int Y : end
= (file - [(import [a@7 b@9 c@11] d@13)@0] (actor A@22 [((int@24)@24 K@28 1@32)@24 ((bool@35)@35 b@40 -)@35] [((int@43)@43 X@47)@43] [((int@53)@53 Y@57)@53] [])@16)@0
#   actor A() ==> : endactor
= (file - [] (actor A@8 [] [] [] [])@2)@2";

#[test]
fn members(rt: HostRuntime) {
    hold(&rt, rt.alloc(), Asked::Members, MEMBERS);
}

/// Variables, functions, procedures, actions, schedules and priorities.
const MEMBERS: &str = "
# actor A() ==> : int s := 0; end
= [(var (int@16)@16 s@20 := 0@25)@16]
# actor A() ==> : int(size=8) K = 1; end
= [(var (int@16 size@20=8@25)@16 K@28 = 1@32)@16]
# actor A() ==> : function f(int x) --> int : x end end
= [(function f@25 [((int@27)@27 x@31)@27] (int@38)@38 [] x@44)@16]
# actor A() ==> : procedure p() var int y begin y := 1; endprocedure end
= [(procedure p@26 [] [(var (int@34)@34 y@38 :=)@34] [(:= y@46 [] 1@51)@46])@16]
# actor A() ==> : a.b: action In:[x] repeat 2, [y] ==> guard true do end end
= [(action (a@16.b@18)@16 [(In@28 [x@32] 2@42)@28 (- [y@46] -)@45] [] [true@59] [] [])@16]
# actor A() ==> : initialize ==> Out:[1, 2] end end
= [(initialize - [] [(Out@31 [1@36 2@39] -)@31] [] [] -)@16]
# actor A() ==> : schedule fsm s : s (a.x, b) --> t; end end
= [(schedule s@29 [(s@33 [(a@36.x@38)@36 (b@41)@41] t@48)@33])@16]
# actor A() ==> : priority a > b.c > d; end end
= [(priority [[(a@25)@25 (b@29.c@31)@29 (d@35)@35]])@16]";

#[test]
fn what_cannot_follow(rt: HostRuntime) {
    hold(&rt, rt.alloc(), Asked::Outcome, REFUSED);
}

/// Where no file goes on.
const REFUSED: &str = "
# 
= G1 at 0
# unit U : int X = ; end
= G1 at 17
# unit U : 
= G1 at 9
# unit U : end unit
= G1 at 13
# unit U : endactor
= G1 at 9
# import a; unit U : end
= G1 at 8
# import a.*.b; unit U : end
= G1 at 10
# actor A() ==> : priority a; end end
= G1 at 26
# actor A() ==> : schedule fsm s : end schedule fsm t : end end
= G1 at 37
# unit U : function f() --> int : 1 endprocedure end
= G1 at 34";

/// The actor that adds 1 to each token.
const INC: &[u8] =
    b"actor Inc() uint(size=8) In ==> uint(size=8) Out : action In:[a] ==> Out:[a + 1] end end";

/// How many fronts of a text break the grammar, one after another from the empty one.
fn broken_fronts(alloc: Global, text: &[u8]) -> Result<usize, Memory> {
    for size in 0..text.len() {
        if !told(alloc, Asked::Outcome, &text[..size])?.starts_with("G1 at ") {
            return Ok(size);
        }
    }
    Ok(text.len())
}

#[test]
fn each_front_of_a_file_breaks_off(rt: HostRuntime) {
    let broken = broken_fronts(rt.alloc(), INC).expect(&rt, "an answer");
    assert_eq!(rt; broken, INC.len());
}

/// A unit with a constant, which stands in so many pairs of parentheses.
fn in_pairs(alloc: Global, inner: &[u8], pairs: usize) -> Result<Vec<u8>, Memory> {
    let opens = vec![in alloc; b'('; pairs]?;
    let closes = vec![in alloc; b')'; pairs]?;
    let mut text = Vec::new(alloc);
    text.extend_from_slice(b"unit U : int X = ")?;
    text.extend_from_slice(&opens)?;
    text.extend_from_slice(inner)?;
    text.extend_from_slice(&closes)?;
    text.extend_from_slice(b"; end")?;
    Ok(text)
}

/// Stops unless a constant that stands in so many pairs of parentheses has this answer.
fn holds_in_pairs(rt: &impl Abort, alloc: Global, inner: &[u8], pairs: usize, expected: &str) {
    let text = in_pairs(alloc, inner, pairs).expect(rt, "a text");
    holds(rt, alloc, Asked::Outcome, &text, expected);
}

#[test]
fn pairs_of_parentheses(rt: HostRuntime) {
    holds_in_pairs(&rt, rt.alloc(), b"1", 255, "read");
    holds_in_pairs(&rt, rt.alloc(), b"1", 256, "G2 at 529");
}

#[test]
fn half_a_million_dropped_pairs(rt: HostRuntime) {
    holds_in_pairs(&rt, rt.alloc(), b"a+b", 500000, "read");
}

#[test]
fn a_long_sum_and_what_cannot_follow_it(rt: HostRuntime) {
    let text = long_sum(rt.alloc()).expect(&rt, "a text");
    holds(&rt, rt.alloc(), Asked::Outcome, &text, "G1 at 821");
}

/// A unit with a sum of 201 numbers, and a semicolon too many.
fn long_sum(alloc: Global) -> Result<Vec<u8>, Memory> {
    let mut text = Vec::new(alloc);
    text.extend_from_slice(b"unit U : int X = 1")?;
    for _ in 0..200 {
        text.extend_from_slice(b" + 1")?;
    }
    text.extend_from_slice(b" ; ; end")?;
    Ok(text)
}

/// Stops unless the tokens of a text from one number up to another have this answer.
fn holds_alone(
    rt: &impl Abort,
    alloc: Global,
    asked: Alone,
    text: &str,
    from: u32,
    to: u32,
    expected: &str,
) {
    let found = told_alone(alloc, asked, text.as_bytes(), from, to).expect(rt, "an answer");
    assert_eq!(rt; found.as_str(), expected);
}

/// Stops unless tokens of `( 1 + 2 ) * x , y` spell what they are to spell as an expression.
fn holds_sum(rt: &impl Abort, alloc: Global, from: u32, to: u32, expected: &str) {
    holds_alone(
        rt,
        alloc,
        Alone::Expression,
        "( 1 + 2 ) * x , y",
        from,
        to,
        expected,
    );
}

/// Stops unless tokens of `int ( size = 8 ) x` spell what they are to spell as a type.
fn holds_int(rt: &impl Abort, alloc: Global, from: u32, to: u32, expected: &str) {
    holds_alone(
        rt,
        alloc,
        Alone::Type,
        "int ( size = 8 ) x",
        from,
        to,
        expected,
    );
}

#[test]
fn expressions_and_types_alone(rt: HostRuntime) {
    holds_sum(&rt, rt.alloc(), 0, 7, "(* (+ 1@2 2@6)@0 x@12)@0");
    holds_sum(&rt, rt.alloc(), 0, 8, "G1 at 14");
    holds_sum(&rt, rt.alloc(), 0, 6, "G1 at 12");
    holds_sum(&rt, rt.alloc(), 7, 7, "G1 at 14");
    holds_sum(&rt, rt.alloc(), 8, 9, "y@16");
    holds_sum(&rt, rt.alloc(), 9, 9, "G1 at 17");
    holds_int(&rt, rt.alloc(), 0, 6, "(int@0 size@6=8@13)@0");
    holds_int(&rt, rt.alloc(), 0, 5, "G1 at 15");
    holds_int(&rt, rt.alloc(), 0, 7, "G1 at 17");
    holds_int(&rt, rt.alloc(), 6, 7, "(x@17)@17");
}

#[test]
fn whole_sources(rt: HostRuntime) {
    for text in SOURCES.split("\n# ") {
        if !text.is_empty() {
            holds(&rt, rt.alloc(), Asked::Outcome, text.as_bytes(), "read");
        }
    }
}

/// Actors of every kind, each behind `# `.
const SOURCES: &str = "
# actor Inc() uint(size=8) In ==> uint(size=8) Out : action In:[a] ==> Out:[a + 1] end end
# actor Peek() uint(size=8) In ==> uint(size=8) Out : action In:[a, b] ==> Out:[a] guard b > 100 end end
# actor Two() uint(size=8) In ==> uint(size=8) Out : hi: action In:[a, b] ==> Out:[a + b] end lo: action In:[a] ==> Out:[a] end priority hi > lo; end end
# actor Alt() uint(size=8) A, uint(size=8) B ==> uint(size=8) Out : uint(size=1) s := 0; ta: action A:[x] ==> Out:[x] guard s = 0 do s := 1; end tb: action B:[x] ==> Out:[x] guard s != 0 do s := 0; end end
# actor Fsm() uint(size=8) In ==> uint(size=8) Out : a.x: action In:[v] ==> Out:[1] guard v < 10 end a.y: action In:[v] ==> Out:[2] guard v >= 10, v < 20 end b: action In:[v] ==> Out:[3] guard v < 20 end action In:[v] ==> Out:[v] guard v >= 20 end schedule fsm s0 : s0 (a) --> s1; s1 (b) --> s0; end end
# actor Amb() uint(size=8) In ==> : a.x: action In:[v] ==> end schedule fsm s : s (a) --> s; s (a.x) --> t; end end
# actor Cyc() uint(size=8) In ==> : a: action In:[v] ==> end b: action In:[v] ==> end c: action In:[v] ==> end priority a > b; b > c; c > a; end end
# actor Div() uint(size=8) In ==> uint(size=8) Out : action In:[a, b] ==> Out:[a / b] end end
# actor Loop() uint(size=32) In ==> uint(size=8) Out : action In:[n] ==> Out:[1] var int i := 0 do while i < n do i := i + 1; end end end
# actor Race() uint(size=8) In ==> uint(size=8) Out : uint(size=2) n := 0; hi: action In:[x] ==> guard n = 0 do n := 2; end lo: action ==> Out:[1] guard n = 0 do n := 1; end priority hi > lo; end end
# actor Id16() int(size=16) In ==> int(size=16) Out : action In:[x] ==> Out:[x] end end
# actor Fl() float In ==> : end
# actor Copy() uint(size=8) In ==> uint(size=8) Out : action In:[x] ==> Out:[x] end end
# actor Sum() uint(size=8) In ==> uint(size=8) Out : action In:[x, y] ==> Out:[x + y] end end
# actor Join() uint(size=8) A, uint(size=8) B ==> uint(size=8) Out : action A:[a], B:[b] ==> Out:[a + b] end end
# actor Add(int K) uint(size=8) In ==> uint(size=8) Out : action In:[x] ==> Out:[x + K] end end
# actor Flip(int K) uint(size=8) In ==> uint(size=8) Out : f: action In:[x] ==> Out:[x ^ K] end g: action In:[x] ==> Out:[x] end schedule fsm s : s (f) --> t; t (g) --> s; end end
# actor Inc() uint(size=8) In ==> uint(size=8) Out : action In:[a] ==> Out:[a+1] endaction endactor
# package dec; actor Rld() int(size=16) In ==> int(size=16) Out :
  int(size=8) run := 0; int(size=16) level := 0;
  get: action In:[r, v] ==> do run := r; level := v; end
  zero: action ==> Out:[0] guard run > 0 do run := run - 1; end
  put: action ==> Out:[level] guard run = 0 end
  schedule fsm idle : idle (get) --> give; give (zero) --> give; give (put) --> idle; end
end
# package dec; actor Zigzag() int(size=16) In ==> int(size=16) Out :
  List(type:int(size=8), size=64) zz = [0, 1, 8, 16, 9, 2, 3, 10, 17, 24, 32, 25, 18, 11, 4, 5,
    12, 19, 26, 33, 40, 48, 41, 34, 27, 20, 13, 6, 7, 14, 21, 28, 35, 42, 49, 56, 57, 50, 43, 36,
    29, 22, 15, 23, 30, 37, 44, 51, 58, 59, 52, 45, 38, 31, 39, 46, 53, 60, 61, 54, 47, 55, 62, 63];
  action In:[x] repeat 64 ==> Out:[y] repeat 64
  var List(type:int(size=16), size=64) y
  do foreach int k in 0 .. 63 do y[zz[k]] := x[k]; end end
end
# package dec; actor Sat() int(size=16) In ==> uint(size=8) Out :
  action In:[v] ==> Out:[if v + 128 < 0 then 0 else if v + 128 > 255 then 255 else v + 128 end end] end
end";
