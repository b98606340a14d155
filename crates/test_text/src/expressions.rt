//! Texts of expressions and types within an actor, with what is read of them, or the place where no file goes on.

use crate::expression_table::{answered, cut};
use kit_trees::{Frame, Framed, told_in};
use std::alloc::Global;
use std::process::Abort;

/// Stops unless a text, read up to a height, has its answer.
fn holds(rt: &impl Abort, alloc: Global, asked: Framed, frame: &Frame, row: &str) {
    let (read, expected) = answered(row);
    let (room, text) = cut(read, " ");
    let room = room.parse().unwrap_or(0);
    let found = told_in(alloc, asked, frame, text.as_bytes(), room).expect(rt, "an answer");
    assert_eq!(rt; found.as_str(), expected);
}

/// Stops unless each text of a table has its answer. Each stands behind the height up to which it is read.
fn hold(rt: &impl Abort, alloc: Global, asked: Framed, frame: &Frame, table: &str) {
    for row in table.split("\n# ") {
        if !row.is_empty() {
            holds(rt, alloc, asked, frame, row);
        }
    }
}

#[test]
fn expressions(rt: HostRuntime) {
    // a constant, in lists of one
    let frame = Frame {
        before: b"actor A() ==> : int X = ",
        opens: b"[",
        closes: b"]",
        behind: b"; end",
    };
    hold(&rt, rt.alloc(), Framed::Expr, &frame, EXPRESSIONS);
}

/// Operators that group to the left, pairs that are dropped or kept, primaries.
const EXPRESSIONS: &str = "
# 3 1 - 2 - 3
= (- (- 1@0 2@4)@0 3@8)@0
# 2 1 - 2 - 3
= G2 at 6
# 3 1 + 2 * 3
= (+ 1@0 (* 2@4 3@8)@4)@0
# 2 ((-1))
= (- 1@3)@0
# 3 ((1))
= (paren (paren 1@2)@1)@0
# 2 ((1))
= G2 at 4
# 2 ((1)
= G1 at 4
# 0 
= G1 at 0
# 3 f(x)[1]
= (index (call f x@2)@0 1@5)@0
# 3 if true then [] else f() endif
= G1 at 14
# 2 [1 : for int i in 2 .. 3]
= (comp 1@1 (for (int@9)@9 i@13 2@18 3@23)@5)@0";

#[test]
fn expressions_that_break_off(rt: HostRuntime) {
    // a constant, in lists of one, where the file ends with the text
    let frame = Frame {
        before: b"actor A() ==> : int X = ",
        opens: b"[",
        closes: b"",
        behind: b"",
    };
    hold(&rt, rt.alloc(), Framed::Expr, &frame, BROKEN_OFF);
}

/// Expressions that are not there to their end.
const BROKEN_OFF: &str = "
# 2 ((1)
= G1 at 4
# 0 
= G1 at 0";

#[test]
fn types(rt: HostRuntime) {
    // the type of a variable, in types
    let frame = Frame {
        before: b"actor A() ==> : ",
        opens: b"List(type:",
        closes: b")",
        behind: b" x; end",
    };
    hold(&rt, rt.alloc(), Framed::Type, &frame, TYPES);
}

/// Types with arguments.
const TYPES: &str = "
# 2 List(type, size = 2)
= G1 at 9
# 2 List(type: int, size=2)
= (List@0 type@5:(int@11)@11 size@16=2@21)@0
# 2 List(type: int, size=2) x
= G1 at 24
# 1 List(type: int)
= G2 at 11";

#[test]
fn lists_of_some(rt: HostRuntime) {
    // the guards of an action
    let frame = Frame {
        before: b"actor A() ==> : action ==> guard ",
        opens: b"",
        closes: b"",
        behind: b" end end",
    };
    hold(&rt, rt.alloc(), Framed::Exprs, &frame, LISTS);
}

/// Lists that have a part.
const LISTS: &str = "
# 256 1, [2, 3], f(4, 5)
= 3
# 256 )
= G1 at 0";

#[test]
fn lists_of_any(rt: HostRuntime) {
    // the arguments of a call
    let frame = Frame {
        before: b"actor A() ==> : procedure p() begin q(",
        opens: b"",
        closes: b"",
        behind: b"; end end",
    };
    hold(&rt, rt.alloc(), Framed::Args, &frame, ARGUMENTS);
}

/// Lists that may have none.
const ARGUMENTS: &str = "
# 256 )
= 0";
