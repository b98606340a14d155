//! The cells of which a body may have to know whether they are set.

use crate::body::Body;
use code_ir::Instr;
use lowered_actor::Parts;

/// The cells from `low` on and below `high`.
#[derive(Clone, Copy, Debug, PartialEq, Eq)]
pub(crate) struct Reach {
    pub low: u32,
    pub high: u32,
}

/// Those behind the state cells that the instructions of a body read or write, and those that its routines need.
pub(crate) fn reach_of(
    parts: &Parts,
    routines: &[Option<Body>],
    begin: usize,
    end: usize,
) -> Reach {
    let instrs = parts.code.instrs();
    let mut reach = Reach {
        low: u32::MAX,
        high: parts.kept,
    };
    for place in begin..end {
        if place < instrs.len() {
            take(parts.kept, routines, &instrs[place], &mut reach);
        }
    }
    if reach.low > reach.high {
        reach.low = reach.high;
    }
    reach
}

/// Those of an instruction.
fn take(kept: u32, routines: &[Option<Body>], instr: &Instr, reach: &mut Reach) {
    match *instr {
        Instr::Load(cell) => widen(kept, cell, 1, reach),
        Instr::Store(cell, _) => widen(kept, cell, 1, reach),
        Instr::LoadAt(cell, count) => widen(kept, cell, count, reach),
        Instr::Copy(to, from, count, _) => {
            widen(kept, to, count, reach);
            widen(kept, from, count, reach);
        }
        Instr::CopyTo(_, _, from, count, _) => widen(kept, from, count, reach),
        Instr::CopyFrom(to, from, whole, count) => {
            widen(kept, to, count, reach);
            widen(kept, from, whole, reach);
        }
        Instr::TokenList(to, _, _, _, count) => widen(kept, to, count, reach),
        Instr::Zero(cell, count) => widen(kept, cell, count, reach),
        Instr::Call(r) => take_needed(kept, routines, r, reach),
        _ => {}
    }
}

/// What a routine needs.
fn take_needed(kept: u32, routines: &[Option<Body>], r: u32, reach: &mut Reach) {
    if let Some(Some(callee)) = routines.get(r as usize) {
        if let Some(first) = callee.rows.get(0) {
            let mut cell = callee.low;
            for k in 0..first.len() {
                if first[k] {
                    widen(kept, cell, 1, reach);
                }
                cell = cell.saturating_add(1);
            }
        }
    }
}

/// So many cells are among them, but for state cells.
fn widen(kept: u32, cell: u32, count: u32, reach: &mut Reach) {
    let from = cell.max(kept);
    let to = cell.saturating_add(count);
    if from < to {
        reach.low = reach.low.min(from);
        reach.high = reach.high.max(to);
    }
}
