//! Comparisons.

use crate::programs::Answer;
use crate::programs::Answer::Gives;
use code_ir::Instr;
use rvc_base::Num;

const LEAST: Num = Num::MIN;

const GREATEST: Num = Num::MAX;

pub(super) const COMPARED: &[(Instr, Num, Num, Answer)] = &[
    (Instr::Eq, 1, 2, Gives(0)),
    (Instr::Ne, 1, 2, Gives(1)),
    (Instr::Lt, 1, 2, Gives(1)),
    (Instr::Le, 1, 2, Gives(1)),
    (Instr::Gt, 1, 2, Gives(0)),
    (Instr::Ge, 1, 2, Gives(0)),
    (Instr::Eq, 2, 2, Gives(1)),
    (Instr::Ne, 2, 2, Gives(0)),
    (Instr::Lt, 2, 2, Gives(0)),
    (Instr::Le, 2, 2, Gives(1)),
    (Instr::Gt, 2, 2, Gives(0)),
    (Instr::Ge, 2, 2, Gives(1)),
    (Instr::Eq, 2, 1, Gives(0)),
    (Instr::Ne, 2, 1, Gives(1)),
    (Instr::Lt, 2, 1, Gives(0)),
    (Instr::Le, 2, 1, Gives(0)),
    (Instr::Gt, 2, 1, Gives(1)),
    (Instr::Ge, 2, 1, Gives(1)),
    (Instr::Eq, -1, 0, Gives(0)),
    (Instr::Ne, -1, 0, Gives(1)),
    (Instr::Lt, -1, 0, Gives(1)),
    (Instr::Le, -1, 0, Gives(1)),
    (Instr::Gt, -1, 0, Gives(0)),
    (Instr::Ge, -1, 0, Gives(0)),
    (Instr::Eq, LEAST, GREATEST, Gives(0)),
    (Instr::Ne, LEAST, GREATEST, Gives(1)),
    (Instr::Lt, LEAST, GREATEST, Gives(1)),
    (Instr::Le, LEAST, GREATEST, Gives(1)),
    (Instr::Gt, LEAST, GREATEST, Gives(0)),
    (Instr::Ge, LEAST, GREATEST, Gives(0)),
    (Instr::Eq, GREATEST, LEAST, Gives(0)),
    (Instr::Ne, GREATEST, LEAST, Gives(1)),
    (Instr::Lt, GREATEST, LEAST, Gives(0)),
    (Instr::Le, GREATEST, LEAST, Gives(0)),
    (Instr::Gt, GREATEST, LEAST, Gives(1)),
    (Instr::Ge, GREATEST, LEAST, Gives(1)),
    (Instr::Eq, LEAST, LEAST, Gives(1)),
    (Instr::Ne, LEAST, LEAST, Gives(0)),
    (Instr::Lt, LEAST, LEAST, Gives(0)),
    (Instr::Le, LEAST, LEAST, Gives(1)),
    (Instr::Gt, LEAST, LEAST, Gives(0)),
    (Instr::Ge, LEAST, LEAST, Gives(1)),
    (Instr::Eq, 18446744073709551616, 0, Gives(0)),
    (Instr::Ne, 18446744073709551616, 0, Gives(1)),
    (Instr::Lt, 18446744073709551616, 0, Gives(0)),
    (Instr::Le, 18446744073709551616, 0, Gives(0)),
    (Instr::Gt, 18446744073709551616, 0, Gives(1)),
    (Instr::Ge, 18446744073709551616, 0, Gives(1)),
    (
        Instr::Eq,
        18446744073709551617,
        18446744073709551616,
        Gives(0),
    ),
    (
        Instr::Ne,
        18446744073709551617,
        18446744073709551616,
        Gives(1),
    ),
    (
        Instr::Lt,
        18446744073709551617,
        18446744073709551616,
        Gives(0),
    ),
    (
        Instr::Le,
        18446744073709551617,
        18446744073709551616,
        Gives(0),
    ),
    (
        Instr::Gt,
        18446744073709551617,
        18446744073709551616,
        Gives(1),
    ),
    (
        Instr::Ge,
        18446744073709551617,
        18446744073709551616,
        Gives(1),
    ),
];
