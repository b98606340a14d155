//! The worked rows, and two threads at one board.

ghost use Rattle.std.specs.Prelude.{◌≡◌, ◌*◌, ◌%◌, ◌^◌, ℕ, length, false, None, IfOk};
ghost use Rattle.std.specs.List.{All};
ghost use Rattle.claim_board.specs.Seen.{IsPassOf};

use claim_board::{Board, Pass, Piece};
use std::alloc::{AllocError, Global};
use std::process::Abort;
use std::thread;
use std::thread::Threads;

/// A piece that holds a number and doubles it.
#[derive(Drop)]
struct Doubling {
    number: u64,
    worked: bool,
}

impl Piece for Doubling {
    ghost State = { ℕ };

    ghost state = { λ d. d.number };

    ghost marked = { λ d. d.worked };

    ghost gives = { λ before after. after ≡ before * 2 % 2 ^ 64 };

    fn work(&mut self) {
        self.number = self.number.wrapping_mul(2);
        self.worked = true;
    }
}

fn doublings(alloc: Global, count: u32) -> Result<Vec<Doubling>, AllocError>
    ensures { IfOk result (λ v. (length v.items ≡ count) × All (λ d. d.worked ≡ false) v.items) }
{
    let mut pieces = Vec::new(alloc);
    for number in 0..count {
        pieces.push(Doubling {
            number: u64::from(number) + 1,
            worked: false,
        })?;
    }
    Ok(pieces)
}

/// Draws, works and gives back once, and tells the place.
fn turn(board: &Board<Doubling>, pass: &mut Pass<Doubling>) -> Option<u32>
    requires own { IsPassOf board.now pass.old }
    requires free { pass.old.held ≡ None }
    ensures own { IsPassOf board.now pass.new }
    ensures free { pass.new.held ≡ None }
{
    let (place, mut piece) = board.draw(pass)?;
    piece.work();
    board.give_back(pass, place, piece);
    Some(place)
}

/// Asserts what turns of one pass draw.
fn hold_turns<R: Abort>(
    rt: &R,
    board: &Board<Doubling>,
    pass: &mut Pass<Doubling>,
    turns: &[Option<u32>],
)
    requires own { IsPassOf board.now pass.old }
    requires free { pass.old.held ≡ None }
    ensures own { IsPassOf board.now pass.new }
    ensures free { pass.new.held ≡ None }
{
    for &place in turns {
        assert!(rt; turn(board, pass) == place);
    }
}

/// The pieces, of three, when the board is closed after turns of one pass.
fn after_turns<R: Abort>(rt: &R, alloc: Global, turns: &[Option<u32>]) -> Option<Vec<Doubling>> {
    let Ok(pieces) = doublings(alloc, 3) else {
        return None
    };
    let Ok((board, mut passes)) = Board::open(alloc, pieces, 1) else {
        return None
    };
    let Some(mut pass) = passes.pop() else {
        unreachable!()
    };
    hold_turns(rt, &board, &mut pass, turns);
    let Ok(()) = passes.push(pass) else {
        return None
    };
    Some(board.close(passes))
}

/// Asserts the numbers and marks of pieces.
fn hold_pieces<R: Abort>(rt: &R, closed: &[Doubling], pieces: &[(u64, bool)]) {
    assert!(rt; closed.len() == pieces.len());
    for k in 0..closed.len() {
        let (number, worked) = pieces[k];
        assert!(rt;
            closed[k].number == number && closed[k].worked == worked,
            "piece {k}"
        );
    }
}

/// Asserts what turns of one pass draw, and what the pieces are then.
fn hold<R: Abort>(rt: &R, alloc: Global, turns: &[Option<u32>], pieces: &[(u64, bool)]) {
    let Some(closed) = after_turns(rt, alloc, turns) else {
        panic!(rt; "no memory")
    };
    hold_pieces(rt, &closed, pieces);
}

#[test]
fn a_drawn_piece_is_worked_and_the_others_are_as_put(rt: HostRuntime) {
    hold(
        &rt,
        rt.alloc(),
        &[Some(0)],
        &[(2, true), (2, false), (3, false)],
    );
}

#[test]
fn a_pass_that_draws_to_the_end_works_all(rt: HostRuntime) {
    hold(
        &rt,
        rt.alloc(),
        &[Some(0), Some(1), Some(2), None, None],
        &[(2, true), (4, true), (6, true)],
    );
}

/// How many pieces the two threads share.
const PIECES: u32 = 1000;

/// Draws, works and gives back until no piece is left.
fn draw_all(board: &Board<Doubling>, mut pass: Pass<Doubling>) -> Pass<Doubling>
    requires own { IsPassOf board.now pass }
    requires free { pass.held ≡ None }
    ensures own { IsPassOf board.now result }
    ensures free { result.held ≡ None }
{
    for _ in 0..=PIECES {
        if turn(board, &mut pass).is_none() {
            break;
        }
    }
    pass
}

/// Two workers draw from one board, each in a thread.
fn draw_in_two_threads<R: Threads>(
    rt: &R,
    board: &Board<Doubling>,
    first: Pass<Doubling>,
    second: Pass<Doubling>,
) -> (Pass<Doubling>, Pass<Doubling>)
    requires own { IsPassOf board.now first × IsPassOf board.now second }
    requires free { (first.held ≡ None) × (second.held ≡ None) }
    ensures own { IsPassOf board.now result.0 × IsPassOf board.now result.1 }
    ensures free { (result.0.held ≡ None) × (result.1.held ≡ None) }
{
    thread::join(
        rt,
        move || -> Pass<Doubling>
            requires { IsPassOf board.now first × (first.held ≡ None) }
            ensures { IsPassOf board.entry.now result × (result.held ≡ None) }
        { draw_all(board, first) },
        move || -> Pass<Doubling>
            requires { IsPassOf board.now second × (second.held ≡ None) }
            ensures { IsPassOf board.entry.now result × (result.held ≡ None) }
        { draw_all(board, second) },
    )
}

/// The pieces when two threads have drawn all.
fn after_two_threads<R: Threads>(rt: &R, alloc: Global) -> Option<Vec<Doubling>> {
    let Ok(pieces) = doublings(alloc, PIECES) else {
        return None
    };
    let Ok((board, mut passes)) = Board::open(alloc, pieces, 2) else {
        return None
    };
    let Some(second) = passes.pop() else {
        unreachable!()
    };
    let Some(first) = passes.pop() else {
        unreachable!()
    };
    let (first, second) = draw_in_two_threads(rt, &board, first, second);
    let Ok(()) = passes.push(first) else {
        return None
    };
    let Ok(()) = passes.push(second) else {
        return None
    };
    Some(board.close(passes))
}

/// Asserts that each number is doubled.
fn hold_doubled<R: Abort>(rt: &R, closed: &[Doubling]) {
    assert!(rt; closed.len() == PIECES as usize);
    for k in 0..closed.len() {
        assert!(rt; closed[k].worked && closed[k].number == 2 * (k as u64 + 1));
    }
}

#[test]
fn two_threads_double_each_number_once(rt: HostRuntime) {
    let Some(closed) = after_two_threads(&rt, rt.alloc()) else {
        panic!(rt; "no memory")
    };
    hold_doubled(&rt, &closed);
}
