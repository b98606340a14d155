//! Cells as a caller reads and writes them.

use crate::programs::{Found, Frame, admitted, first_six, run_on};
use action_machine::{Outcome, cells};
use code_ir::{Admitted, Instr, are_sized};
use rvc_base::{Num, Scalar};
use std::alloc::Global;
use std::process::Abort;

/// Code that copies cell 1 to cell 2.
const COPYING: Frame<'static> = Frame {
    cells: 3,
    routines: &[],
    entries: &[0],
    entry: 0,
    before: &[Instr::Load(1), Instr::Store(2, None), Instr::Done],
    after: &[],
};

/// Three cells as they are made, after -7 is put in cell 1, and what a run of the code comes to then.
fn around_a_run<R: Abort>(rt: &R, alloc: Global, code: &Admitted) -> ([Num; 6], [Num; 6], Found) {
    let mut cells = cells(alloc, code).expect(rt, "memory");
    assert!(rt; cells.count() == 3);
    let made = first_six(&cells);
    cells.set(1, -7);
    let put = first_six(&cells);
    let found = run_on(code, 0, &mut cells);
    assert!(rt; cells.count() == 3);
    (made, put, found)
}

#[test]
fn cells_hold_zero_and_then_what_is_put_in(rt: HostRuntime) {
    let Ok(code) = admitted(&rt, rt.alloc(), &COPYING, &[]) else {
        panic!(rt; "it is admitted")
    };
    let (made, put, found) = around_a_run(&rt, rt.alloc(), &code);
    assert!(rt; made == [0, 0, 0, 0, 0, 0]);
    assert!(rt; put == [0, -7, 0, 0, 0, 0]);
    assert!(rt; found == Found::Ran(Outcome::Done, [0, -7, -7, 0, 0, 0]));
}

/// A type, and whether its size is one that a type may have.
const SIZES: &[(Option<Scalar>, bool)] = &[
    (None, true),
    (Some(Scalar::Bool), true),
    (Some(Scalar::Int(1)), true),
    (Some(Scalar::Int(32)), true),
    (Some(Scalar::Int(33)), true),
    (Some(Scalar::Int(64)), true),
    (Some(Scalar::Uint(32)), true),
    (Some(Scalar::Uint(33)), true),
    (Some(Scalar::Uint(64)), true),
    (Some(Scalar::Int(0)), false),
    (Some(Scalar::Int(65)), false),
    (Some(Scalar::Uint(0)), false),
    (Some(Scalar::Uint(65)), false),
];

/// In each instruction that names one.
#[test]
fn sizes_of_types_are_those_that_types_have(rt: HostRuntime) {
    for &(t, want) in SIZES {
        for instr in [
            Instr::Store(0, t),
            Instr::StoreAt(0, 1, t),
            Instr::Copy(0, 0, 1, t),
            Instr::CopyTo(0, 1, 0, 1, t),
        ] {
            assert!(rt; are_sized(&[Instr::Neg, instr]) == want, "{instr:?}");
        }
    }
}
