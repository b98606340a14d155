//! Pieces of work, worked by a crew.

ghost use Rattle.std.specs.Prelude.{◌≡◌, ◌+◌, ◌≤◌, ◌<◌, ◌^◌, false, vec_len, IfOk, OnOk, IfErr};
ghost use Rattle.std.specs.List.{All};
ghost use Rattle.claimed_bursts.specs.Crews.{AreAllWorked, HaveArrived};

use crate::crew::Crew;
use crate::joining::work_part;
use claim_board::{Board, NoBoard, Piece};
use rvc_io::Gate;
use std::alloc::Global;
use std::thread::Threads;

/// Works all pieces, each once, by a crew whose workers claim them from a board, one by one. `gate` is told of each
/// worker as it starts. At most `threads` threads work at once, or one if no other can be had.
///
/// # Errors
///
/// `NoBoard` if memory runs out. Then nobody started, and it holds the pieces as they were (`no_board`).
pub fn work_all<R: Threads + Sync, P: Piece + Send, G: Gate>(
    rt: &R,
    gate: &G,
    alloc: Global,
    crew: Crew,
    threads: u32,
    pieces: Vec<P>,
) -> Result<Vec<P>, NoBoard<P>>
    requires some { 1 ≤ crew.count }
    requires numbers { crew.first + crew.count < 2 ^ 32 }
    requires unmarked { All (λ p. P.marked p ≡ false) pieces.items }
    requires few { vec_len pieces < 2 ^ 32 }
    ensures worked { IfOk result (λ done. AreAllWorked P.state P.marked P.gives pieces.items
        done.items) }
    ensures arrived { OnOk result (HaveArrived (G.arrived gate.now) crew) }
    ensures no_board { IfErr result (λ e. e.pieces.items ≡ pieces.items) }
{
    match Board::open(alloc, pieces, crew.count) {
        Ok((board, mut passes)) => {
            work_part(rt, gate, crew, threads, &board, passes.as_mut_slice());
            Ok(board.close(passes))
        }
        Err(none) => Err(none),
    }
}
