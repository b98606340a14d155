//! Programs that are admitted and run, and what they come to.

ghost use Rattle.std.specs.Prelude.{[], if◌then◌else◌, ◌==◌, ◌<◌, ◌^◌, length};
ghost use Rattle.action_machine.specs.Kept.{IsMadeFor};

use action_machine::{Cells, Outcome, Run, cells};
use code_ir::{
    ActorCode, Admitted, CodeFault, Instr, Routine, Tokens, admit, are_few, are_sized, has_tokens,
};
use rvc_base::{Num, Trap};
use std::alloc::Global;
use std::process::Abort;

/// What a program comes to.
#[derive(Clone, Copy, PartialEq)]
pub(crate) enum Found {
    /// It runs: how the run ends, and what is left in the first six cells, 0 where there is no cell.
    Ran(Outcome, [Num; 6]),
    /// The instruction at this place breaks a typing line.
    Bad(u32),
    /// A type, an entry or a token that it names isn't one.
    Unfit,
}

/// The tokens before an actor with at most two ports.
#[derive(Drop)]
pub(crate) struct Ports<'a> {
    pub first: &'a [Num],
    pub second: &'a [Num],
    ghost few: { length first.now < 2 ^ 32 },
    ghost few_second: { length second.now < 2 ^ 32 },
}

impl<'a> Tokens for Ports<'a> {
    ghost tokens = { λ ports p. if p == 0 then ports.first.now else if p == 1 then ports.second.now else
        [] };

    fn count(&self, port: u32) -> u32 {
        match port {
            0 => self.first.len() as u32,
            1 => self.second.len() as u32,
            _ => 0,
        }
    }

    fn at(&self, port: u32, k: u32) -> Num {
        match port {
            0 => self.first[k as usize],
            1 => self.second[k as usize],
            _ => unreachable!(),
        }
    }
}

/// What stands around the instructions of a row, and where the program is run from.
#[derive(Clone, Copy)]
pub(crate) struct Frame<'a> {
    pub cells: u32,
    pub routines: &'a [Routine],
    pub entries: &'a [u32],
    pub entry: u32,
    pub before: &'a [Instr],
    pub after: &'a [Instr],
}

/// Six cells, each of which holds 0.
pub(crate) const ALONE: Frame<'static> = Frame {
    cells: 6,
    routines: &[],
    entries: &[0],
    entry: 0,
    before: &[],
    after: &[],
};

/// Six cells that hold 1, 2, 3 and so on. The firing ends after a row.
pub(crate) const ON_SIX: Frame<'static> = Frame {
    cells: 6,
    routines: &[],
    entries: &[0],
    entry: 0,
    before: &[
        Instr::Const(1),
        Instr::Store(0, None),
        Instr::Const(2),
        Instr::Store(1, None),
        Instr::Const(3),
        Instr::Store(2, None),
        Instr::Const(4),
        Instr::Store(3, None),
        Instr::Const(5),
        Instr::Store(4, None),
        Instr::Const(6),
        Instr::Store(5, None),
    ],
    after: &[Instr::Done],
};

/// The top is left in cell 0.
pub(crate) const OPERATION: Frame<'static> = Frame {
    cells: 6,
    routines: &[],
    entries: &[0],
    entry: 0,
    before: &[],
    after: &[Instr::Store(0, None), Instr::Done],
};

fn code<R: Abort>(rt: &R, alloc: Global, frame: &Frame<'_>, instrs: &[Instr]) -> ActorCode {
    let mut all = Vec::from_slice(alloc, frame.before).expect(rt, "memory");
    all.extend_from_slice(instrs).expect(rt, "memory");
    all.extend_from_slice(frame.after).expect(rt, "memory");
    ActorCode {
        instrs: all,
        routines: Vec::from_slice(alloc, frame.routines).expect(rt, "memory"),
        entries: Vec::from_slice(alloc, frame.entries).expect(rt, "memory"),
        cells: frame.cells,
    }
}

/// The program of a row, if it is admitted.
pub(crate) fn admitted<R: Abort>(
    rt: &R,
    alloc: Global,
    frame: &Frame<'_>,
    instrs: &[Instr],
) -> Result<Box<Admitted>, Found> {
    let code = code(rt, alloc, frame, instrs);
    if !are_sized(&code.instrs) || !are_few(&code) {
        return Err(Found::Unfit);
    }
    match admit(alloc, code) {
        Ok(code) => Ok(Box::new(alloc, code).expect(rt, "memory")),
        Err(CodeFault::Bad { at }) => Err(Found::Bad(at)),
        Err(CodeFault::Memory) => panic!(rt; "memory"),
    }
}

/// The numbers in the first six cells.
pub(crate) fn first_six(cells: &Cells) -> [Num; 6] {
    let mut numbers = [0; 6];
    for c in 0u32..6 {
        if (c as usize) < cells.count() {
            numbers[c as usize] = cells.get(c);
        }
    }
    numbers
}

/// Runs admitted code from an entry, on these cells. There are eight tokens on port 0, and two on port 1.
pub(crate) fn run_on(code: &Admitted, entry: u32, cells: &mut Cells) -> Found
    requires { IsMadeFor code.now cells.old }
{
    let ports = Ports {
        first: &[10, 20, 30, 40, 50, 60, 70, 80],
        second: &[-5, Num::MAX],
    };
    if !code.is_entry(entry) || !has_tokens(code, &ports) {
        return Found::Unfit;
    }
    let outcome = code.run(entry, cells, &ports);
    Found::Ran(outcome, first_six(cells))
}

/// What the program of a row comes to from an entry.
pub(crate) fn run<R: Abort>(
    rt: &R,
    alloc: Global,
    frame: &Frame<'_>,
    entry: u32,
    instrs: &[Instr],
) -> Found {
    match admitted(rt, alloc, frame, instrs) {
        Ok(code) => {
            let mut cells = cells(alloc, &code).expect(rt, "memory");
            run_on(&code, entry, &mut cells)
        }
        Err(found) => found,
    }
}

/// A part of a table.
pub(crate) enum Item {
    /// What follows is run from this entry.
    From(u32),
    Do(Instr),
    /// What the instructions since the last answer come to.
    To(Found),
}

/// Programs with one frame. They are one list, since each list inside of a list is proved apart.
pub(crate) type Table = (Frame<'static>, &'static [Item]);

/// Asserts what programs come to.
pub(crate) fn hold<R: Abort>(rt: &R, alloc: Global, tables: &[Table]) {
    let mut instrs = Vec::new(alloc);
    for (frame, items) in tables {
        let mut entry = frame.entry;
        for item in *items {
            match item {
                Item::From(at) => entry = *at,
                Item::Do(instr) => instrs.push(*instr).expect(rt, "memory"),
                Item::To(want) => {
                    let found = run(rt, alloc, frame, entry, &instrs);
                    assert!(rt; found == *want, "{instrs:?} from {entry}");
                    instrs.clear();
                }
            }
        }
        assert!(rt; instrs.is_empty(), "{instrs:?}");
    }
}

/// What an operation comes to.
pub(crate) enum Answer {
    Gives(Num),
    Traps(Trap),
}

/// Asserts what instructions make of two operands, the right one of which is the top.
pub(crate) fn hold_of_two<R: Abort>(
    rt: &R,
    alloc: Global,
    tables: &[&[(Instr, Num, Num, Answer)]],
) {
    for rows in tables {
        for (instr, a, b, want) in *rows {
            let want = match want {
                Answer::Gives(n) => Found::Ran(Outcome::Done, [*n, 0, 0, 0, 0, 0]),
                Answer::Traps(trap) => Found::Ran(Outcome::Trap(*trap), [0; 6]),
            };
            let instrs = [Instr::Const(*a), Instr::Const(*b), *instr];
            assert!(rt;
                run(rt, alloc, &OPERATION, 0, &instrs) == want,
                "{instrs:?}"
            );
        }
    }
}
