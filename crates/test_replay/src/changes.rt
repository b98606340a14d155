//! Traces of which one line is left out, doubled or exchanged with the next one.

use crate::replays::{Answer, Case, replay_case};
use crate::rows::{COUNTDOWN, INC, RING, STALL, STALLS};
use kit_runs::Net;
use rvc_base::Memory;
use std::alloc::Global;
use trace_replay::Why;
use trace_text::Line;

#[derive(Clone, Copy, Debug, PartialEq, Eq)]
enum Change {
    LeftOut,
    Doubled,
    Exchanged,
}

/// Puts one line of a text behind what stands in `out`; lines are numbered from 1.
fn put_line(text: &[u8], number: usize, out: &mut Vec<u8>) -> Result<(), Memory> {
    let mut at: usize = 1;
    for &byte in text {
        if at == number {
            out.push(byte)?;
        }
        if byte == b'\n' {
            at = at.saturating_add(1);
        }
    }
    Ok(())
}

/// The numbers of the lines that stand in place of line `at`, of which `number` is changed; 0 stands for none.
fn in_place(change: Change, number: usize, at: usize) -> [usize; 2] {
    let next = number.saturating_add(1);
    match change {
        Change::LeftOut if at == number => [0, 0],
        Change::Doubled if at == number => [at, at],
        Change::Exchanged if at == number => [next, 0],
        Change::Exchanged if at == next => [number, 0],
        _ => [at, 0],
    }
}

/// A trace of eight lines, of which one is changed.
fn changed(alloc: Global, text: &[u8], change: Change, number: usize) -> Result<Vec<u8>, Memory> {
    let mut out = Vec::new(alloc);
    for at in 1..9_usize {
        let [first, second] = in_place(change, number, at);
        put_line(text, first, &mut out)?;
        put_line(text, second, &mut out)?;
    }
    Ok(out)
}

/// A change, the number of the line, and the answer.
type Row = (Change, usize, Answer);

const INC_ROWS: &[Row] = &[
    (Change::LeftOut, 1, Answer::Fails(1, Why::Header)),
    (Change::LeftOut, 2, Answer::Fails(2, Why::Header)),
    (Change::LeftOut, 3, Answer::Fails(3, Why::NotExposed)),
    (Change::LeftOut, 4, Answer::Fails(7, Why::End)),
    (Change::LeftOut, 5, Answer::Fails(7, Why::End)),
    (Change::LeftOut, 6, Answer::Fails(7, Why::End)),
    (Change::LeftOut, 7, Answer::Fails(7, Why::End)),
    (Change::LeftOut, 8, Answer::Fails(8, Why::Cut)),
    (Change::Doubled, 1, Answer::Fails(2, Why::Header)),
    (Change::Doubled, 2, Answer::Fails(3, Why::Header)),
    (Change::Doubled, 3, Answer::Ends(Line::Quiet, 3, 3)),
    (Change::Doubled, 4, Answer::Fails(7, Why::NotExposed)),
    (Change::Doubled, 5, Answer::Fails(7, Why::NotExposed)),
    (Change::Doubled, 6, Answer::Fails(7, Why::NotExposed)),
    (Change::Doubled, 7, Answer::Ends(Line::Quiet, 3, 3)),
    (Change::Doubled, 8, Answer::Fails(9, Why::After)),
    (Change::Exchanged, 1, Answer::Fails(1, Why::Header)),
    (Change::Exchanged, 2, Answer::Fails(2, Why::Header)),
    (Change::Exchanged, 3, Answer::Fails(3, Why::NotExposed)),
    (Change::Exchanged, 4, Answer::Ends(Line::Quiet, 3, 2)),
    (Change::Exchanged, 5, Answer::Ends(Line::Quiet, 3, 2)),
    (Change::Exchanged, 6, Answer::Fails(8, Why::End)),
    (Change::Exchanged, 7, Answer::Fails(7, Why::End)),
];

const RING_ROWS: &[Row] = &[
    (Change::LeftOut, 1, Answer::Fails(1, Why::Header)),
    (Change::LeftOut, 2, Answer::Fails(2, Why::Header)),
    (Change::LeftOut, 3, Answer::Fails(3, Why::Header)),
    (Change::LeftOut, 4, Answer::Ends(Line::Quiet, 2, 1)),
    (Change::LeftOut, 5, Answer::Fails(7, Why::End)),
    (Change::LeftOut, 6, Answer::Fails(7, Why::End)),
    (Change::LeftOut, 7, Answer::Fails(7, Why::End)),
    (Change::LeftOut, 8, Answer::Fails(8, Why::Cut)),
    (Change::Doubled, 1, Answer::Fails(2, Why::Header)),
    (Change::Doubled, 2, Answer::Fails(3, Why::Header)),
    (Change::Doubled, 3, Answer::Fails(4, Why::Header)),
    (Change::Doubled, 4, Answer::Ends(Line::Quiet, 2, 3)),
    (Change::Doubled, 5, Answer::Fails(6, Why::NotExposed)),
    (Change::Doubled, 6, Answer::Fails(7, Why::NotExposed)),
    (Change::Doubled, 7, Answer::Ends(Line::Quiet, 2, 3)),
    (Change::Doubled, 8, Answer::Fails(9, Why::After)),
    (Change::Exchanged, 1, Answer::Fails(1, Why::Header)),
    (Change::Exchanged, 2, Answer::Fails(2, Why::Header)),
    (Change::Exchanged, 3, Answer::Fails(3, Why::Header)),
    (Change::Exchanged, 4, Answer::Fails(6, Why::NotExposed)),
    (Change::Exchanged, 5, Answer::Ends(Line::Quiet, 2, 2)),
    (Change::Exchanged, 6, Answer::Fails(7, Why::NotExposed)),
    (Change::Exchanged, 7, Answer::Fails(7, Why::End)),
];

const COUNTDOWN_ROWS: &[Row] = &[
    (Change::LeftOut, 1, Answer::Fails(1, Why::Header)),
    (Change::LeftOut, 2, Answer::Fails(2, Why::Header)),
    (Change::LeftOut, 3, Answer::Fails(3, Why::NotExposed)),
    (Change::LeftOut, 4, Answer::Fails(4, Why::NotExposed)),
    (Change::LeftOut, 5, Answer::Fails(5, Why::NotExposed)),
    (Change::LeftOut, 6, Answer::Fails(7, Why::End)),
    (Change::LeftOut, 7, Answer::Fails(7, Why::End)),
    (Change::LeftOut, 8, Answer::Fails(8, Why::Cut)),
    (Change::Doubled, 1, Answer::Fails(2, Why::Header)),
    (Change::Doubled, 2, Answer::Fails(3, Why::Header)),
    (Change::Doubled, 3, Answer::Ends(Line::Quiet, 3, 3)),
    (Change::Doubled, 4, Answer::Fails(5, Why::NotExposed)),
    (Change::Doubled, 5, Answer::Fails(6, Why::NotExposed)),
    (Change::Doubled, 6, Answer::Fails(7, Why::NotExposed)),
    (Change::Doubled, 7, Answer::Ends(Line::Quiet, 3, 3)),
    (Change::Doubled, 8, Answer::Fails(9, Why::After)),
    (Change::Exchanged, 1, Answer::Fails(1, Why::Header)),
    (Change::Exchanged, 2, Answer::Fails(2, Why::Header)),
    (Change::Exchanged, 3, Answer::Fails(3, Why::NotExposed)),
    (Change::Exchanged, 4, Answer::Fails(4, Why::NotExposed)),
    (Change::Exchanged, 5, Answer::Fails(5, Why::NotExposed)),
    (Change::Exchanged, 6, Answer::Ends(Line::Quiet, 3, 2)),
    (Change::Exchanged, 7, Answer::Fails(7, Why::End)),
];

const STALL_ROWS: &[Row] = &[
    (Change::LeftOut, 1, Answer::Fails(1, Why::Header)),
    (Change::LeftOut, 2, Answer::Fails(2, Why::Header)),
    (Change::LeftOut, 3, Answer::Fails(3, Why::Header)),
    (Change::LeftOut, 4, Answer::Fails(4, Why::Header)),
    (Change::LeftOut, 5, Answer::Fails(5, Why::NotExposed)),
    (Change::LeftOut, 6, Answer::Fails(7, Why::End)),
    (Change::LeftOut, 7, Answer::Fails(7, Why::End)),
    (Change::LeftOut, 8, Answer::Fails(8, Why::Cut)),
    (Change::Doubled, 1, Answer::Fails(2, Why::Header)),
    (Change::Doubled, 2, Answer::Fails(3, Why::Header)),
    (Change::Doubled, 3, Answer::Fails(4, Why::Header)),
    (Change::Doubled, 4, Answer::Fails(5, Why::Header)),
    (Change::Doubled, 5, Answer::Ends(STALL, 1, 3)),
    (Change::Doubled, 6, Answer::Fails(7, Why::NoRoom)),
    (Change::Doubled, 7, Answer::Ends(STALL, 1, 3)),
    (Change::Doubled, 8, Answer::Fails(9, Why::After)),
    (Change::Exchanged, 1, Answer::Fails(1, Why::Header)),
    (Change::Exchanged, 2, Answer::Fails(2, Why::Header)),
    (Change::Exchanged, 3, Answer::Fails(3, Why::Header)),
    (Change::Exchanged, 4, Answer::Fails(4, Why::Header)),
    (Change::Exchanged, 5, Answer::Fails(5, Why::NotExposed)),
    (Change::Exchanged, 6, Answer::Fails(8, Why::End)),
    (Change::Exchanged, 7, Answer::Fails(7, Why::End)),
];

/// What a trace comes to of which one line is changed.
fn answer_to(alloc: Global, net: Net, input: &[u8], text: &str, row: Row) -> Answer {
    let (change, number, _) = row;
    let Ok(trace) = changed(alloc, text.as_bytes(), change, number) else {
        return Answer::Nothing;
    };
    replay_case(
        alloc,
        Case {
            net,
            input,
            grow: 0,
            trace: &trace,
            failing: &[],
        },
    )
}

#[test]
fn a_changed_line_of_one_actor(rt: HostRuntime) {
    for &row in INC_ROWS {
        let found = answer_to(rt.alloc(), Net::Inc, &[0, 1, 255], INC, row);
        assert!(rt; found == row.2, "{row:?} {found:?}");
    }
}

#[test]
fn a_changed_line_of_two_actors(rt: HostRuntime) {
    for &row in RING_ROWS {
        let found = answer_to(rt.alloc(), Net::Ring, &[], RING, row);
        assert!(rt; found == row.2, "{row:?} {found:?}");
    }
}

#[test]
fn a_changed_line_of_an_actor_with_a_schedule(rt: HostRuntime) {
    for &row in COUNTDOWN_ROWS {
        let found = answer_to(rt.alloc(), Net::Countdown, &[1], COUNTDOWN, row);
        assert!(rt; found == row.2, "{row:?} {found:?}");
    }
}

#[test]
fn a_changed_line_before_a_stall(rt: HostRuntime) {
    for &row in STALL_ROWS {
        let found = answer_to(rt.alloc(), Net::Pair, &[1, 2, 3, 4], STALLS, row);
        assert!(rt; found == row.2, "{row:?} {found:?}");
    }
}
