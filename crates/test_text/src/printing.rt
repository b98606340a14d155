//! Texts with their canonical texts, which give the same trees again.

use crate::canon_table::answered;
use kit_trees::{Asked, canon, told, without_offsets};
use std::alloc::{AllocError, Global};
use std::process::Abort;

/// What stands before and behind the text of a row, in the source and in its canonical text.
#[derive(Clone, Copy)]
struct Frame {
    before: &'static str,
    behind: &'static str,
    canon_before: &'static str,
    canon_behind: &'static str,
}

/// The canonical text of a text.
fn canon_of(rt: &impl Abort, alloc: Global, text: &[u8]) -> Vec<u8> {
    canon(alloc, text).expect(rt, "memory").expect(rt, "a tree")
}

/// The tree of a text, ignoring offsets.
fn tree(rt: &impl Abort, alloc: Global, text: &[u8]) -> Vec<u8> {
    let shown = told(alloc, Asked::File, text).expect(rt, "a text");
    without_offsets(alloc, shown.as_bytes()).expect(rt, "a text")
}

/// Whether two texts spell the same tree, ignoring offsets.
fn same_tree(rt: &impl Abort, alloc: Global, text: &[u8], other: &[u8]) -> bool {
    tree(rt, alloc, text).as_slice() == tree(rt, alloc, other).as_slice()
}

/// Whether the canonical text of `source` is `expected`, which is the canonical text of itself and spells the same
/// tree.
fn has_canon(rt: &impl Abort, alloc: Global, source: &[u8], expected: &[u8]) -> bool {
    canon_of(rt, alloc, source).as_slice() == expected
        && canon_of(rt, alloc, expected).as_slice() == expected
        && same_tree(rt, alloc, source, expected)
}

/// A text within what stands before and behind it.
fn within(alloc: Global, before: &str, text: &str, behind: &str) -> Result<String, AllocError> {
    format!(in alloc; "{before}{text}{behind}")
}

/// Stops unless a text has its canonical text.
fn hold_row(rt: &impl Abort, alloc: Global, frame: &Frame, row: &str) {
    let (text, expected) = answered(row);
    let source = within(alloc, frame.before, text, frame.behind).expect(rt, "a text");
    let canon = within(alloc, frame.canon_before, expected, frame.canon_behind);
    let canon = canon.expect(rt, "a text");
    let holds = has_canon(rt, alloc, source.as_bytes(), canon.as_bytes());
    assert!(rt; holds, "{text}");
}

/// Stops at the first text of a table that has another canonical text.
fn hold(rt: &impl Abort, alloc: Global, frame: &Frame, table: &str) {
    for row in table.split("\n# ") {
        if !row.is_empty() {
            hold_row(rt, alloc, frame, row);
        }
    }
}

#[test]
fn files(rt: HostRuntime) {
    let frame = Frame {
        before: "",
        behind: "",
        canon_before: "",
        canon_behind: "",
    };
    hold(&rt, rt.alloc(), &frame, FILES);
}

/// Whole files.
const FILES: &str = "
# actor Inc() uint(size=8) In ==> uint(size=8) Out : action In:[a] ==> Out:[a+1] endaction endactor
= actor Inc ( ) uint ( size = 8 ) In ==> uint ( size = 8 ) Out : action In : [ a ] ==> Out : [ a + 1 ] end\nend\n
# unit U : int X = if a then b else c endif; end
= unit U : int X = if a then b else c end\n;\nend\n
# unit U : int X = (if a then b else c end); end
= unit U : int X = if a then b else c end\n;\nend\n
# unit U : List(type:List(type:int(size=8),size=2),size=n*2) X = f(); bool b; endunit
= unit U : List ( type : List ( type : int ( size = 8 ) , size = 2 ) , size = n * 2 ) X = f ( ) ;\nbool b ;\nend\n
# unit U : end
= unit U : end\n
# package a.b.c;import d.*;import e.f.g;unit U:int X:=1;function f()-->int:X endfunction endunit
= package a . b . c ;\nimport d . * ;\nimport e . f . g ;\nunit U : int X := 1 ;\nfunction f ( ) --> int : X end\nend\n
# actor A() ==> : end
= actor A ( ) ==> : end\n
# package p; actor A(int K = 1+2, bool b) int X, int Y ==> int Z, bool W : endactor // end
= package p ;\nactor A ( int K = 1 + 2 , bool b ) int X , int Y ==> int Z , bool W : end\n";

#[test]
fn expressions(rt: HostRuntime) {
    let frame = Frame {
        before: "unit U : int X = ",
        behind: "; end",
        canon_before: "unit U : int X = ",
        canon_behind: " ;\nend\n",
    };
    hold(&rt, rt.alloc(), &frame, EXPRS);
}

/// Starts of a constant: literals, calls and lists, operators, parentheses.
const EXPRS: &str = "
# 0x00fF
= 255
# 0xffffffffffffffffffffffffffffffff
= 340282366920938463463374607431768211455
# 0
= 0
# true
= true
# false
= false
# f()
= f ( )
# f(1,g(x),y)
= f ( 1 , g ( x ) , y )
# [1,2]
= [ 1 , 2 ]
# [x+y:for int x in 0..3,for int(size=4) y in x .. f(x)]
= [ x + y : for int x in 0 .. 3 , for int ( size = 4 ) y in x .. f ( x ) ]
# a||b
= a or b
# a or b
= a or b
# a&&b
= a and b
# a and b
= a and b
# a|b
= a | b
# a^b
= a ^ b
# a&b
= a & b
# a=b
= a = b
# a!=b
= a != b
# a<b
= a < b
# a<=b
= a <= b
# a>b
= a > b
# a>=b
= a >= b
# a<<b
= a << b
# a>>b
= a >> b
# a+b
= a + b
# a-b
= a - b
# a*b
= a * b
# a/b
= a / b
# a div b
= a / b
# a mod b
= a mod b
# not a
= not a
# -a
= - a
# ~a
= ~ a
# (a)
= ( a )
# ((1))
= ( ( 1 ) )
# (a+b)
= a + b
# (((a+b)))
= a + b
# (-a)
= - a
# a+b*c
= a + ( b * c )
# a*b+c
= ( a * b ) + c
# a-b-c
= ( a - b ) - c
# a-(b-c)
= a - ( b - c )
# a+(b)
= a + ( b )
# a+f(b+c)
= a + f ( b + c )
# a+b[c+d]
= a + b [ c + d ]
# --a
= - ( - a )
# not(a or b)
= not ( a or b )
# -a[i]
= - a [ i ]
# (-a)[i]
= ( - a ) [ i ]
# (a+b)[i]
= ( a + b ) [ i ]
# (a)[i]
= ( a ) [ i ]
# a[i][j]
= a [ i ] [ j ]
# [1,2][i]
= [ 1 , 2 ] [ i ]
# if a then b else c end + 1
= ( if a then b else c end\n) + 1
# not if a then b else c end
= not ( if a then b else c end\n)
# if a then b else c end[i]
= ( if a then b else c end\n) [ i ]";

#[test]
fn statements(rt: HostRuntime) {
    let frame = Frame {
        before: "actor A() ==> : procedure p() begin ",
        behind: " end end",
        canon_before: "actor A ( ) ==> : procedure p ( ) begin ",
        canon_behind: "end\nend\n",
    };
    hold(&rt, rt.alloc(), &frame, STMTS);
}

/// Statements of a procedure.
const STMTS: &str = "
# x := 1;
= x := 1 ;\n
# x[i+1][j] := y[0];
= x [ i + 1 ] [ j ] := y [ 0 ] ;\n
# p(); q(1, x);
= p ( ) ;\nq ( 1 , x ) ;\n
# if a then endif
= if a then end\n
# if a then else end
= if a then else end\n
# if a then x := 1; else y := 2; end
= if a then x := 1 ;\nelse y := 2 ;\nend\n
# if a then x := 1; elsif b then y := 2; elsif c then else z := 3; endif
= if a then x := 1 ;\nelse if b then y := 2 ;\nelse if c then else z := 3 ;\nend\nend\nend\n
# while i < n do i := i + 1; endwhile
= while i < n do i := i + 1 ;\nend\n
# foreach uint(size=4) k in 0 .. n - 1 do endforeach
= foreach uint ( size = 4 ) k in 0 .. n - 1 do end\n
# begin endbegin
= begin end\n
# begin var int x := 1, bool b do p(); end
= begin var int x := 1 , bool b do p ( ) ;\nend\n";

#[test]
fn members(rt: HostRuntime) {
    let frame = Frame {
        before: "actor A() ==> : ",
        behind: " end",
        canon_before: "actor A ( ) ==> : ",
        canon_behind: "end\n",
    };
    hold(&rt, rt.alloc(), &frame, MEMBERS);
}

/// Members of an actor: functions and procedures, actions, schedules and priorities.
const MEMBERS: &str = "
# int s; int t := 0; int(size=8) K = 0x1F;
= int s ;\nint t := 0 ;\nint ( size = 8 ) K = 31 ;\n
# function f(int x, bool y) --> int var int z = 1, int w := z : x endfunction
= function f ( int x , bool y ) --> int var int z = 1 , int w := z : x end\n
# procedure p(int x) var int y begin y := x; endprocedure procedure q() begin end
= procedure p ( int x ) var int y begin y := x ;\nend\nprocedure q ( ) begin end\n
# action ==> end
= action ==> end\n
# action ==> do endaction
= action ==> do end\n
# a.b: action In:[x, y] repeat 2, [z] ==> Out:[x, 1] repeat n, [z] guard x > 0, y var int s, int t := 1 do s := x; end
= a . b : action In : [ x , y ] repeat 2 , [ z ] ==> Out : [ x , 1 ] repeat n , [ z ] guard x > 0 , y var int s , int t := 1 do s := x ;\nend\n
# initialize ==> Out:[1] endinitialize i: initialize ==> guard true do p(); end
= initialize ==> Out : [ 1 ] end\ni : initialize ==> guard true do p ( ) ;\nend\n
# schedule fsm s : endschedule
= schedule fsm s : end\n
# schedule fsm s : s (a.x, b) --> t; t (c) --> s; end
= schedule fsm s : s ( a . x , b ) --> t ;\nt ( c ) --> s ;\nend\n
# priority endpriority
= priority end\n
# priority a > b.c > d; e > f; end
= priority a > b . c > d ;\ne > f ;\nend\n";
