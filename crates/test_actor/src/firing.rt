//! Actors that are lowered and at work.

use actor_cell::Cell;
use kit_actors::{count, double};
use lower_actor::lower;
use lowered_actor::Lowered;
use net_model::{BurstEnd, Firing};
use rvc_base::{Memory, Num};
use std::alloc::Global;
use std::sync::Arc;

/// A cell of the actor that counts.
fn counter(alloc: Global) -> Result<Option<Cell>, Memory> {
    let b = count(alloc)?;
    let lowered = lower(alloc, &b)?;
    cell_of(alloc, lowered)
}

/// A cell of the one that doubles.
fn doubler(alloc: Global) -> Result<Option<Cell>, Memory> {
    let b = double(alloc)?;
    let lowered = lower(alloc, &b)?;
    cell_of(alloc, lowered)
}

/// A cell of a lowered actor, with room for 8 tokens and 8 firings; none if it has other ports.
fn cell_of(alloc: Global, lowered: Lowered) -> Result<Option<Cell>, Memory> {
    let code = Arc::new(alloc, lowered)?;
    if code.ins() != 1 || code.outs() != 1 {
        return Ok(None);
    }
    Ok(Some(Cell::new(alloc, code, &[8], &[8], 8)?))
}

/// Puts tokens before the cell, lets it fire, and tells how that ends.
fn burst(cell: &mut Cell, tokens: &[Num]) -> Option<BurstEnd> {
    for &token in tokens {
        if cell.actor().ins() == 0 || cell.room_before(0) == 0 {
            return None;
        }
        cell.accept(0, token);
    }
    if cell.is_trapped() || !cell.are_rooms(&[8]) || cell.room_in_journal() < 8 {
        return None;
    }
    Some(cell.burst(8, &[8]))
}

/// Whether these are the tokens that it sent.
fn sent_are(cell: &Cell, tokens: &[Num]) -> bool {
    if cell.actor().outs() != 1 || cell.sent(0) as usize != tokens.len() {
        return false;
    }
    for k in 0..cell.sent(0) {
        if cell.sent_at(0, k) != tokens[k as usize] {
            return false;
        }
    }
    true
}

#[test]
fn counts_up_to_each_token(rt: HostRuntime) {
    let rows: [(&[Num], &[Num]); 3] = [
        (&[3, 5], &[7, 11]),
        (&[199, 3], &[143, 203]),
        (&[200], &[]),
    ];
    for (tokens, sent) in rows {
        let made = counter(rt.alloc()).expect(&rt, "memory");
        let mut cell = made.expect(&rt, "a port on each side");
        let end = burst(&mut cell, tokens);
        assert!(rt;
            end == Some(BurstEnd::Waits) && sent_are(&cell, sent),
            "{end:?}"
        );
    }
}

#[test]
fn keeps_the_doubles_of_two_tokens(rt: HostRuntime) {
    let made = doubler(rt.alloc()).expect(&rt, "memory");
    let mut cell = made.expect(&rt, "a port on each side");
    let end = burst(&mut cell, &[3, 5, 200]);
    assert!(rt;
        end == Some(BurstEnd::Waits) && sent_are(&cell, &[6, 16, 154]),
        "{end:?}"
    );
}
