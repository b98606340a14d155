//! The rows of a body. Whether they show that the body keeps the facts is tested once they are found.

ghost use Rattle.std.specs.Prelude.{◌≡◌, IfOk};

use crate::body::Body;
use crate::instrs::{ends_body, goes_on, target};
use crate::reach::reach_of;
use code_ir::Instr;
use lowered_actor::Parts;
use std::alloc::{AllocError, Global};

/// The body that begins at a place, with what is set at each place if the cells that it needs are set where it begins.
pub(crate) fn body_at(
    alloc: Global,
    parts: &Parts,
    routines: &[Option<Body>],
    begin: usize,
) -> Result<Body, AllocError>
    ensures { IfOk result (λ body. body.begin ≡ begin) }
{
    let end = end_of(parts.code.instrs(), begin);
    let reach = reach_of(parts, routines, begin, end);
    let low = reach.low;
    let mut needed = vec![in alloc; false; reach.high.saturating_sub(low) as usize]?;
    let mut rows = rows_from(alloc, &needed, begin, end)?;
    settle(parts, routines, begin, low, &mut rows, &mut needed)?;
    let mut rows = rows_from(alloc, &needed, begin, end)?;
    settle(parts, routines, begin, low, &mut rows, &mut needed)?;
    Ok(Body {
        begin,
        end,
        low,
        rows,
    })
}

/// Goes through a body as long as that changes what is set.
fn settle(
    parts: &Parts,
    routines: &[Option<Body>],
    begin: usize,
    low: u32,
    rows: &mut Vec<Vec<bool>>,
    needed: &mut Vec<bool>,
) -> Result<(), AllocError> {
    for _pass in 0..rows.len() {
        let changed = pass(parts, routines, begin, low, rows, needed)?;
        if !changed {
            return Ok(());
        }
    }
    Ok(())
}

/// The place behind the first instruction from one on that ends a body.
fn end_of(instrs: &[Instr], begin: usize) -> usize {
    for place in begin..instrs.len() {
        if ends_body(&instrs[place]) {
            return place + 1;
        }
    }
    instrs.len()
}

/// The row of the first place, and for each place behind it one in which all is set: as long as no way to it is seen.
fn rows_from(
    alloc: Global,
    first: &[bool],
    begin: usize,
    end: usize,
) -> Result<Vec<Vec<bool>>, AllocError> {
    let mut rows = Vec::new(alloc);
    rows.push(Vec::from_slice(alloc, first)?)?;
    for _place in begin..end {
        rows.push(vec![in alloc; true; first.len()]?)?;
    }
    Ok(rows)
}

/// Goes once through a body: at a place that may come next is set what was set before or is written there, on each way.
/// What is read and isn't set is needed at the begin. Whether anything changed comes back.
fn pass(
    parts: &Parts,
    routines: &[Option<Body>],
    begin: usize,
    low: u32,
    rows: &mut Vec<Vec<bool>>,
    needed: &mut Vec<bool>,
) -> Result<bool, AllocError> {
    let instrs = parts.code.instrs();
    let mut changed = false;
    for k in 0..rows.len() {
        let place = begin.saturating_add(k);
        if place < instrs.len() {
            let mut row = rows[k].clone()?;
            read(low, routines, &instrs[place], &mut row, needed);
            write(low, &instrs[place], &mut row);
            if pass_on(begin, place, &instrs[place], &row, rows) {
                changed = true;
            }
        }
    }
    Ok(changed)
}

/// What an instruction reads is needed at the begin if it isn't set.
fn read(low: u32, routines: &[Option<Body>], instr: &Instr, row: &mut [bool], needed: &mut [bool]) {
    match *instr {
        Instr::Load(cell) => read_each(low, cell, 1, row, needed),
        Instr::LoadAt(cell, count) => read_each(low, cell, count, row, needed),
        Instr::Copy(_, from, count, _) => read_each(low, from, count, row, needed),
        Instr::CopyTo(_, _, from, count, _) => read_each(low, from, count, row, needed),
        Instr::CopyFrom(_, from, count, _) => read_each(low, from, count, row, needed),
        Instr::Call(r) => read_needed(low, routines, r, row, needed),
        _ => {}
    }
}

/// So many cells are read.
fn read_each(low: u32, cell: u32, count: u32, row: &mut [bool], needed: &mut [bool]) {
    for k in 0..count as usize {
        let cell = cell as usize + k;
        if cell >= low as usize {
            need(cell - low as usize, row, needed);
        }
    }
}

/// What a routine needs is read.
fn read_needed(low: u32, routines: &[Option<Body>], r: u32, row: &mut [bool], needed: &mut [bool]) {
    if let Some(Some(callee)) = routines.get(r as usize) {
        if let Some(first) = callee.rows.get(0) {
            let mut cell = callee.low;
            for k in 0..first.len() {
                if first[k] {
                    read_each(low, cell, 1, row, needed);
                }
                cell = cell.saturating_add(1);
            }
        }
    }
}

/// A cell is needed at the begin unless it is set.
fn need(cell: usize, row: &mut [bool], needed: &mut [bool]) {
    if cell < row.len() && cell < needed.len() && !row[cell] {
        row[cell] = true;
        needed[cell] = true;
    }
}

/// What an instruction writes is set.
fn write(low: u32, instr: &Instr, row: &mut [bool]) {
    match *instr {
        Instr::Store(cell, _) => write_each(low, cell, 1, row),
        Instr::Copy(to, _, count, _) => write_each(low, to, count, row),
        Instr::CopyFrom(to, _, _, count) => write_each(low, to, count, row),
        Instr::TokenList(to, _, _, _, count) => write_each(low, to, count, row),
        Instr::Zero(cell, count) => write_each(low, cell, count, row),
        _ => {}
    }
}

/// So many cells are set.
fn write_each(low: u32, cell: u32, count: u32, row: &mut [bool]) {
    for k in 0..count as usize {
        let cell = cell as usize + k;
        if cell >= low as usize && cell - (low as usize) < row.len() {
            row[cell - low as usize] = true;
        }
    }
}

/// At the places that may come next no more is set than this. Whether less is set there than before comes back.
fn pass_on(
    begin: usize,
    place: usize,
    instr: &Instr,
    row: &[bool],
    rows: &mut [Vec<bool>],
) -> bool {
    let mut changed = false;
    if goes_on(instr) {
        changed = meet_at(begin, place.saturating_add(1), row, rows);
    }
    if let Some(to) = target(instr) {
        if meet_at(begin, to as usize, row, rows) {
            changed = true;
        }
    }
    changed
}

/// At a place no more is set than this.
fn meet_at(begin: usize, place: usize, row: &[bool], rows: &mut [Vec<bool>]) -> bool {
    if begin <= place && place - begin < rows.len() {
        meet(&mut rows[place - begin], row)
    } else {
        false
    }
}

/// No more is set than this.
fn meet(into: &mut [bool], row: &[bool]) -> bool {
    let mut changed = false;
    for k in 0..into.len() {
        if k < row.len() && into[k] && !row[k] {
            into[k] = false;
            changed = true;
        }
    }
    changed
}
