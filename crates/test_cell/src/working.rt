//! Cells that fire.

ghost use Rattle.std.specs.Prelude.{◌≤◌};

use actor_cell::Cell;
use kit_codes::{Sample, lowered};
use net_model::{BurstEnd, Firing, Look, Tried};
use rvc_base::{ActId, Memory, Num, Trap};
use std::alloc::Global;
use std::process::Abort;
use std::sync::Arc;

/// A cell of this actor, with inboxes and an outbox for so many tokens, and a journal for so many firings.
fn made(alloc: Global, named: Sample, inbox: u32, outbox: u32, burst: u32) -> Result<Cell, Memory>
    requires inbox { 1 ≤ inbox }
    requires burst { 1 ≤ burst }
{
    let code = Arc::new(alloc, lowered(alloc, named)?)?;
    if code.outs() != 1 {
        return Err(Memory);
    }
    match code.ins() {
        1 => Cell::new(alloc, code, &[inbox], &[outbox], burst),
        2 => Cell::new(alloc, code, &[inbox, inbox], &[outbox], burst),
        _ => Err(Memory),
    }
}

/// Puts these tokens before an input port.
fn accept(cell: &mut Cell, port: u32, tokens: &[Num]) -> Result<(), Memory> {
    for &token in tokens {
        if port >= cell.actor().ins() || cell.room_before(port) == 0 {
            return Err(Memory);
        }
        cell.accept(port, token);
    }
    Ok(())
}

/// Lets the cell fire, at most so often.
fn burst(cell: &mut Cell, limit: u32, rooms: &[u32]) -> Result<BurstEnd, Memory> {
    if cell.is_trapped() || !cell.are_rooms(rooms) || cell.room_in_journal() < limit as usize {
        return Err(Memory);
    }
    Ok(cell.burst(limit, rooms))
}

/// What the cell would do.
fn look(cell: &mut Cell, rooms: &[u32]) -> Result<Look, Memory> {
    if cell.is_trapped() || !cell.are_rooms(rooms) {
        return Err(Memory);
    }
    Ok(cell.look(rooms))
}

/// What comes of a named action.
fn tried(cell: &mut Cell, action: u16, rooms: &[u32]) -> Result<Tried, Memory> {
    if cell.is_trapped() || !cell.are_rooms(rooms) {
        return Err(Memory);
    }
    Ok(cell.try_fire(ActId(action), rooms))
}

/// Whether these are the tokens that it sent.
fn sent_are(cell: &Cell, tokens: &[Num]) -> bool {
    if cell.actor().outs() != 1 || cell.sent(0) as usize != tokens.len() {
        return false;
    }
    for k in 0..cell.sent(0) {
        if cell.sent_at(0, k) != tokens[k as usize] {
            return false;
        }
    }
    true
}

/// Whether so many tokens wait before the first input port.
fn holds(cell: &Cell, count: usize) -> bool {
    cell.actor().ins() != 0 && cell.held(0) as usize == count
}

/// An actor, the tokens before its two ports, how the burst ends, the firings, what was sent, and how many tokens wait
/// then before the first port.
type Row<'a> = (
    Sample,
    &'a [Num],
    &'a [Num],
    BurstEnd,
    &'a [u16],
    &'a [Num],
    usize,
);

fn hold<R: Abort>(rt: &R, alloc: Global, rows: &[Row<'_>]) -> Result<(), Memory> {
    for &(named, first, second, end, firings, sent, left) in rows {
        let mut cell = made(alloc, named, 8, 8, 8)?;
        accept(&mut cell, 0, first)?;
        accept(&mut cell, 1, second)?;
        let found = burst(&mut cell, 8, &[8])?;
        let as_wanted = found == end && cell.journal() == firings;
        assert!(rt;
            as_wanted && sent_are(&cell, sent) && holds(&cell, left),
            "{named:?} {found:?}"
        );
    }
    Ok(())
}

const WAITS: BurstEnd = BurstEnd::Waits;

const TRAPS: BurstEnd = BurstEnd::Trap {
    action: ActId(0),
    trap: Trap::DivideByZero,
};

const BURSTS: &[(Sample, &[Num], &[Num], BurstEnd, &[u16], &[Num], usize)] = &[
    (Sample::Ini, &[5], &[], WAITS, &[0, 1], &[9, 5], 0),
    (
        Sample::Rep,
        &[1, 2, 3, 4, 5],
        &[],
        WAITS,
        &[0],
        &[2, 1, 4, 3],
        1,
    ),
    (Sample::Peek, &[1], &[], WAITS, &[], &[], 1),
    (Sample::Peek, &[1, 101], &[], WAITS, &[0], &[1], 0),
    (Sample::Peek, &[1, 100], &[], WAITS, &[], &[], 2),
    (Sample::Two, &[1, 2, 3], &[], WAITS, &[0, 1], &[3, 3], 0),
    (Sample::Two, &[255, 2], &[], WAITS, &[0], &[1], 0),
    (
        Sample::Alt,
        &[1, 2],
        &[10],
        WAITS,
        &[0, 1, 0],
        &[1, 10, 2],
        0,
    ),
    (Sample::Alt, &[], &[10], WAITS, &[], &[], 0),
    (
        Sample::Fsm,
        &[5, 15, 30, 12, 3],
        &[],
        WAITS,
        &[0, 2, 3, 1, 2],
        &[1, 3, 30, 2, 3],
        0,
    ),
    (Sample::Div, &[10, 2, 7, 0, 9, 3], &[], TRAPS, &[0], &[5], 4),
    (Sample::Wide, &[-32767], &[], WAITS, &[0], &[-32767], 0),
    // its guard traps at the second token, which stays
    (Sample::Quo, &[5, 0], &[], TRAPS, &[0], &[], 1),
];

#[test]
fn bursts(rt: HostRuntime) -> Result<(), Memory> {
    hold(&rt, rt.alloc(), BURSTS)
}

/// Two firings round the end of the queues; of each, whether it sent what it should.
fn round_the_end(alloc: Global) -> Result<(bool, bool), Memory> {
    let mut cell = made(alloc, Sample::Rep, 5, 4, 1)?;
    accept(&mut cell, 0, &[1, 2, 3, 4, 5])?;
    let end = burst(&mut cell, 1, &[4])?;
    let first = end == BurstEnd::Spent && sent_are(&cell, &[2, 1, 4, 3]) && holds(&cell, 1);
    cell.clear();
    accept(&mut cell, 0, &[6, 7, 8])?;
    let end = burst(&mut cell, 1, &[4])?;
    let second = end == BurstEnd::Spent && sent_are(&cell, &[6, 5, 8, 7]) && holds(&cell, 0);
    Ok((first, second))
}

#[test]
fn queues_go_round(rt: HostRuntime) -> Result<(), Memory> {
    let found = round_the_end(rt.alloc())?;
    assert!(rt; found == (true, true), "{found:?}");
    Ok(())
}

/// An actor, the tokens before its first port, the room, and what it would do.
type Seen<'a> = (Sample, &'a [Num], u32, Look);

fn hold_looks<R: Abort>(rt: &R, alloc: Global, rows: &[Seen<'_>]) -> Result<(), Memory> {
    for &(named, tokens, room, want) in rows {
        let mut cell = made(alloc, named, 8, 8, 8)?;
        accept(&mut cell, 0, tokens)?;
        let found = look(&mut cell, &[room])?;
        assert!(rt;
            found == want && holds(&cell, tokens.len()),
            "{named:?} {found:?}"
        );
    }
    Ok(())
}

const LOOKS: &[(Sample, &[Num], u32, Look)] = &[
    (Sample::Two, &[1, 2], 8, Look::Ready(ActId(0))),
    (Sample::Two, &[1], 8, Look::Ready(ActId(1))),
    (Sample::Two, &[], 8, Look::Waits),
    (
        Sample::Two,
        &[1, 2],
        0,
        Look::NoRoom {
            action: ActId(0),
            port: 0,
        },
    ),
    (
        Sample::Rep,
        &[1, 2, 3, 4],
        3,
        Look::NoRoom {
            action: ActId(0),
            port: 0,
        },
    ),
    (Sample::Div, &[1, 0], 8, Look::Ready(ActId(0))),
    (
        Sample::Quo,
        &[0],
        8,
        Look::GuardTrap(ActId(0), Trap::DivideByZero),
    ),
];

#[test]
fn looks(rt: HostRuntime) -> Result<(), Memory> {
    hold_looks(&rt, rt.alloc(), LOOKS)
}

/// An actor, the tokens before its first port, the action that is named, the room, what comes of it, and how many
/// tokens wait then.
type Asked<'a> = (Sample, &'a [Num], u16, u32, Tried, usize);

fn hold_tries<R: Abort>(rt: &R, alloc: Global, rows: &[Asked<'_>]) -> Result<(), Memory> {
    for &(named, tokens, action, room, want, left) in rows {
        let mut cell = made(alloc, named, 8, 8, 8)?;
        accept(&mut cell, 0, tokens)?;
        let found = tried(&mut cell, action, &[room])?;
        let as_wanted = found == want && cell.journal().is_empty();
        assert!(rt; as_wanted && holds(&cell, left), "{named:?} {found:?}");
    }
    Ok(())
}

const TRAP: Tried = Tried::Trap(Trap::DivideByZero);

const NO_ROOM: Tried = Tried::NoRoom { port: 0 };

const TRIES: &[(Sample, &[Num], u16, u32, Tried, usize)] = &[
    (Sample::Two, &[1, 2], 0, 8, Tried::Fired, 0),
    // the first action is above it and enabled
    (Sample::Two, &[1, 2], 1, 8, Tried::NotExposed, 2),
    (Sample::Two, &[1], 1, 8, Tried::Fired, 0),
    // it lacks tokens
    (Sample::Two, &[1], 0, 8, Tried::NotExposed, 1),
    // there is no such action
    (Sample::Two, &[1], 2, 8, Tried::NotExposed, 1),
    (Sample::Two, &[1, 2], 0, 0, NO_ROOM, 2),
    // its guard is false
    (Sample::Peek, &[1, 1], 0, 8, Tried::NotExposed, 2),
    // it isn't eligible in the first state
    (Sample::Fsm, &[5], 2, 8, Tried::NotExposed, 1),
    (Sample::Fsm, &[5], 0, 8, Tried::Fired, 0),
    // of an action without room the body isn't run
    (Sample::Div, &[1, 0], 0, 0, NO_ROOM, 2),
    (Sample::Div, &[1, 0], 0, 8, TRAP, 2),
    (Sample::Quo, &[0], 0, 8, TRAP, 1),
];

#[test]
fn tries(rt: HostRuntime) -> Result<(), Memory> {
    hold_tries(&rt, rt.alloc(), TRIES)
}

/// How bursts end if the room is for one token, before and after what was sent has left.
fn one_by_one(alloc: Global) -> Result<[BurstEnd; 2], Memory> {
    let mut cell = made(alloc, Sample::Two, 8, 8, 2)?;
    accept(&mut cell, 0, &[1, 2, 3])?;
    let before = burst(&mut cell, 2, &[1])?;
    cell.clear();
    Ok([before, burst(&mut cell, 2, &[1])?])
}

#[test]
fn an_outbox_counts_against_its_room(rt: HostRuntime) -> Result<(), Memory> {
    let no_room = BurstEnd::NoRoom {
        action: ActId(1),
        port: 0,
    };
    let found = one_by_one(rt.alloc())?;
    assert!(rt; found == [no_room, BurstEnd::Waits], "{found:?}");
    Ok(())
}

/// A trapped cell, and what is sent on a port that nobody reads.
fn trapped(alloc: Global) -> Result<bool, Memory> {
    let mut cell = made(alloc, Sample::Div, 8, 0, 8)?;
    accept(&mut cell, 0, &[9, 3, 1, 0])?;
    let _end = burst(&mut cell, 8, &[u32::MAX])?;
    Ok(
        cell.is_trapped()
            && sent_are(&cell, &[])
            && holds(&cell, 2)
            && cell.journal() == [0].as_slice(),
    )
}

#[test]
fn what_nobody_reads_is_dropped(rt: HostRuntime) -> Result<(), Memory> {
    let found = trapped(rt.alloc())?;
    assert!(rt; found);
    Ok(())
}
