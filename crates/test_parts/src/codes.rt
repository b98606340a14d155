//! Code that is admitted, and what breaks a line.

use code_ir::{ActorCode, CodeFault, Instr, admit, are_few, are_sized};
use std::alloc::{AllocError, Global};
use std::process::Abort;

/// What code comes to.
#[derive(Clone, Copy, PartialEq, Eq)]
enum Found {
    IsAdmitted,
    BadAt(u32),
    NotAsked,
}

/// One instruction, with an entry at it.
fn single(alloc: Global, instr: Instr) -> Result<ActorCode, AllocError> {
    Ok(ActorCode {
        instrs: [instr].to_vec(alloc)?,
        routines: Vec::new(alloc),
        entries: [0].to_vec(alloc)?,
        cells: 0,
    })
}

fn admit_single(alloc: Global, instr: Instr) -> Found {
    let Ok(code) = single(alloc, instr) else {
        return Found::NotAsked
    };
    if !are_sized(&code.instrs) || !are_few(&code) {
        return Found::NotAsked;
    }
    match admit(alloc, code) {
        Ok(_admitted) => Found::IsAdmitted,
        Err(CodeFault::Bad { at }) => Found::BadAt(at),
        Err(CodeFault::Memory) => Found::NotAsked,
    }
}

fn hold<R: Abort>(rt: &R, alloc: Global, rows: &[(Instr, Found)]) {
    for &(instr, want) in rows {
        assert!(rt; admit_single(alloc, instr) == want, "{instr:?}");
    }
}

#[test]
fn names_what_breaks_a_line_and_admits_a_firing_without_effect(rt: HostRuntime) {
    hold(
        &rt,
        rt.alloc(),
        &[
            (Instr::Jump(9), Found::BadAt(0)),
            (Instr::Jump(0), Found::BadAt(0)),
            (Instr::Return, Found::BadAt(0)),
            (Instr::Done, Found::IsAdmitted),
        ],
    );
}
