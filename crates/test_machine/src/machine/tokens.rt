//! Tokens that are read.

use crate::programs::Found::{Ran, Unfit};
use crate::programs::Item::{Do, To};
use crate::programs::{Item, ON_SIX, OPERATION, Table, hold};
use action_machine::Outcome;
use code_ir::Instr;
use rvc_base::{Num, Trap};

const LEAST: Num = Num::MIN;

const GREATEST: Num = Num::MAX;

/// Tokens that are pushed or go to cells. Code that may read a token that isn't there is not run.
const READ: &[Item] = &[
    Do(Instr::Token(0, 0)),
    Do(Instr::Store(0, None)),
    To(Ran(Outcome::Done, [10, 2, 3, 4, 5, 6])),
    Do(Instr::Token(0, 3)),
    Do(Instr::Store(0, None)),
    To(Ran(Outcome::Done, [40, 2, 3, 4, 5, 6])),
    Do(Instr::Token(0, 7)),
    Do(Instr::Store(0, None)),
    To(Ran(Outcome::Done, [80, 2, 3, 4, 5, 6])),
    Do(Instr::Token(1, 0)),
    Do(Instr::Store(0, None)),
    To(Ran(Outcome::Done, [-5, 2, 3, 4, 5, 6])),
    Do(Instr::Token(1, 1)),
    Do(Instr::Store(0, None)),
    To(Ran(Outcome::Done, [GREATEST, 2, 3, 4, 5, 6])),
    Do(Instr::TokenList(0, 0, 0, 1, 6)),
    To(Ran(Outcome::Done, [10, 20, 30, 40, 50, 60])),
    Do(Instr::TokenList(1, 0, 1, 3, 3)),
    To(Ran(Outcome::Done, [1, 20, 50, 80, 5, 6])),
    Do(Instr::TokenList(3, 0, 7, 2, 1)),
    To(Ran(Outcome::Done, [1, 2, 3, 80, 5, 6])),
    Do(Instr::TokenList(2, 0, 4, 0, 3)),
    To(Ran(Outcome::Done, [1, 2, 50, 50, 50, 6])),
    Do(Instr::TokenList(4, 1, 0, 1, 2)),
    To(Ran(Outcome::Done, [1, 2, 3, 4, -5, GREATEST])),
    Do(Instr::TokenList(6, 0, 9, 1, 0)),
    To(Ran(Outcome::Done, [1, 2, 3, 4, 5, 6])),
    Do(Instr::Token(0, 8)),
    Do(Instr::Store(0, None)),
    To(Unfit),
    Do(Instr::Token(1, 2)),
    Do(Instr::Store(0, None)),
    To(Unfit),
    Do(Instr::Token(2, 0)),
    Do(Instr::Store(0, None)),
    To(Unfit),
    Do(Instr::Token(0, 4294967295)),
    Do(Instr::Store(0, None)),
    To(Unfit),
    Do(Instr::Const(0)),
    Do(Instr::TokenAt(0, 0, 1, 9)),
    Do(Instr::Store(0, None)),
    To(Unfit),
    Do(Instr::Const(0)),
    Do(Instr::TokenAt(0, 2, 3, 3)),
    Do(Instr::Store(0, None)),
    To(Unfit),
    Do(Instr::Const(0)),
    Do(Instr::TokenAt(0, 0, 4294967295, 4294967295)),
    Do(Instr::Store(0, None)),
    To(Unfit),
    Do(Instr::TokenList(0, 0, 3, 1, 6)),
    To(Unfit),
    Do(Instr::TokenList(0, 0, 8, 0, 1)),
    To(Unfit),
];

const READ_AT: &[Item] = &[
    Do(Instr::Const(0)),
    Do(Instr::TokenAt(0, 0, 1, 8)),
    To(Ran(Outcome::Done, [10, 0, 0, 0, 0, 0])),
    Do(Instr::Const(7)),
    Do(Instr::TokenAt(0, 0, 1, 8)),
    To(Ran(Outcome::Done, [80, 0, 0, 0, 0, 0])),
    Do(Instr::Const(8)),
    Do(Instr::TokenAt(0, 0, 1, 8)),
    To(Ran(Outcome::Trap(Trap::IndexRange), [0, 0, 0, 0, 0, 0])),
    Do(Instr::Const(-1)),
    Do(Instr::TokenAt(0, 0, 1, 8)),
    To(Ran(Outcome::Trap(Trap::IndexRange), [0, 0, 0, 0, 0, 0])),
    Do(Instr::Const(0)),
    Do(Instr::TokenAt(0, 1, 3, 3)),
    To(Ran(Outcome::Done, [20, 0, 0, 0, 0, 0])),
    Do(Instr::Const(1)),
    Do(Instr::TokenAt(0, 1, 3, 3)),
    To(Ran(Outcome::Done, [50, 0, 0, 0, 0, 0])),
    Do(Instr::Const(2)),
    Do(Instr::TokenAt(0, 1, 3, 3)),
    To(Ran(Outcome::Done, [80, 0, 0, 0, 0, 0])),
    Do(Instr::Const(3)),
    Do(Instr::TokenAt(0, 1, 3, 3)),
    To(Ran(Outcome::Trap(Trap::IndexRange), [0, 0, 0, 0, 0, 0])),
    Do(Instr::Const(3)),
    Do(Instr::TokenAt(0, 5, 0, 4)),
    To(Ran(Outcome::Done, [60, 0, 0, 0, 0, 0])),
    Do(Instr::Const(0)),
    Do(Instr::TokenAt(1, 1, 1, 1)),
    To(Ran(Outcome::Done, [GREATEST, 0, 0, 0, 0, 0])),
    Do(Instr::Const(0)),
    Do(Instr::TokenAt(0, 0, 1, 0)),
    To(Ran(Outcome::Trap(Trap::IndexRange), [0, 0, 0, 0, 0, 0])),
    Do(Instr::Const(LEAST)),
    Do(Instr::TokenAt(0, 0, 1, 8)),
    To(Ran(Outcome::Trap(Trap::IndexRange), [0, 0, 0, 0, 0, 0])),
    Do(Instr::Const(GREATEST)),
    Do(Instr::TokenAt(0, 0, 1, 8)),
    To(Ran(Outcome::Trap(Trap::IndexRange), [0, 0, 0, 0, 0, 0])),
    Do(Instr::Const(4294967296)),
    Do(Instr::TokenAt(0, 0, 1, 8)),
    To(Ran(Outcome::Trap(Trap::IndexRange), [0, 0, 0, 0, 0, 0])),
    Do(Instr::Const(18446744073709551616)),
    Do(Instr::TokenAt(0, 0, 1, 8)),
    To(Ran(Outcome::Trap(Trap::IndexRange), [0, 0, 0, 0, 0, 0])),
];

const TOKENS: &[Table] = &[(ON_SIX, READ), (OPERATION, READ_AT)];

#[test]
fn tokens_are_pushed_and_go_to_cells(rt: HostRuntime) {
    hold(&rt, rt.alloc(), TOKENS);
}
