//! Cells that are made of code, and fire.

use crate::telling::told;
use actor_cell::Cell;
use lowered_actor::Lowered;
use net_model::{BurstEnd, Firing};
use rvc_base::{Memory, Num};
use std::alloc::{AllocError, Global};
use std::sync::Arc;

/// A cell of an actor with one or two input ports and one output port, whose queues have room for 8 tokens.
fn cell_of(alloc: Global, code: Arc<Lowered>) -> Result<Option<Cell>, Memory> {
    if code.outs() != 1 {
        return Ok(None);
    }
    match code.ins() {
        1 => Ok(Some(Cell::new(alloc, code, &[8], &[8], 8)?)),
        2 => Ok(Some(Cell::new(alloc, code, &[8, 8], &[8], 8)?)),
        _ => Ok(None),
    }
}

/// Puts tokens before an input port of the cell.
fn accept(cell: &mut Cell, port: u32, tokens: &str) {
    for word in tokens.split_whitespace() {
        if port < cell.actor().ins() && cell.room_before(port) > 0 {
            let token: Num = word.parse().unwrap_or(0);
            cell.accept(port, token);
        }
    }
}

/// Lets the cell fire up to 8 times.
fn burst(cell: &mut Cell) -> Option<BurstEnd> {
    if cell.is_trapped() || !cell.are_rooms(&[8]) || cell.room_in_journal() < 8 {
        return None;
    }
    Some(cell.burst(8, &[8]))
}

/// What a cell of this code does with tokens, in up to 8 firings; those of two input ports have a semicolon between them.
/// Each queue has room for 8 tokens. Of code with other ports than one or two for input and one for output, that it
/// `has other ports`.
///
/// # Errors
///
/// `Memory` if memory runs out.
pub fn fire(alloc: Global, code: Arc<Lowered>, tokens: &str) -> Result<String, Memory> {
    let Some(mut cell) = cell_of(alloc, code)? else {
        return Ok(String::from_str(alloc, "has other ports")?);
    };
    let (first, second) = tokens.split_once(";").unwrap_or((tokens, ""));
    accept(&mut cell, 0, first);
    accept(&mut cell, 1, second);
    let end = burst(&mut cell);
    Ok(told(alloc, &cell, end)?)
}

/// A cell whose queues are full after one firing, with room for 5 tokens that come and 4 that are sent.
fn small_cell(alloc: Global, code: Arc<Lowered>) -> Result<Option<Cell>, Memory> {
    if code.ins() != 1 || code.outs() != 1 {
        return Ok(None);
    }
    Ok(Some(Cell::new(alloc, code, &[5], &[4], 1)?))
}

/// Puts tokens before the cell, lets it fire once, and tells what it did.
fn fire_once(alloc: Global, cell: &mut Cell, tokens: &str) -> Result<String, AllocError> {
    accept(cell, 0, tokens);
    if cell.is_trapped() || !cell.are_rooms(&[4]) || cell.room_in_journal() < 1 {
        return String::from_str(alloc, "can't fire");
    }
    let end = cell.burst(1, &[4]);
    told(alloc, cell, Some(end))
}

/// What a cell of this code does with the first tokens in one firing, and with the second ones in another once it is
/// cleared. Its queues have room for 5 tokens that come and 4 that are sent. Nothing of code with other ports than one
/// for input and one for output.
///
/// # Errors
///
/// `Memory` if memory runs out.
pub fn fire_twice(
    alloc: Global,
    code: Arc<Lowered>,
    first: &str,
    second: &str,
) -> Result<Option<(String, String)>, Memory> {
    let Some(mut cell) = small_cell(alloc, code)? else {
        return Ok(None);
    };
    let before = fire_once(alloc, &mut cell, first)?;
    cell.clear();
    let behind = fire_once(alloc, &mut cell, second)?;
    Ok(Some((before, behind)))
}
