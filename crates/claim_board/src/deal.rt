//! How the passes are made when the board is opened, and made one when it is closed.

ghost use Rattle.std.specs.Prelude.{◌≡◌, ◌<◌, ◌≤◌, [], length, None, vec_len, vec_capacity};
ghost use Rattle.std.specs.List.{All};
ghost use Rattle.claim_board.specs.Steps.{first_view};
ghost use Rattle.claim_board.specs.Seen.{IsPassOf, new_pass, board_at, Gathered};

use crate::pass::Pass;
use crate::piece::Piece;
use crate::rule::{Claims, OnePass, Together};
use crate::slot::Slot;
use crate::view::{Opening, View};
use atomic_table::{Seat, Shared};

type Counter<P> = Shared<Slot<P>, View<P>, Opening<P>, Claims<P>>;

/// The passes, cut off the seat that stands for all of them.
pub(crate) fn deal<P: Piece>(
    shared: &Counter<P>,
    mut seat: Seat<Slot<P>, View<P>>,
    passes: u32,
    mut list: Vec<Pass<P>>,
) -> Vec<Pass<P>>
    requires own { (seat.table_id ≡ shared.now.table_id) × (0 < shared.now.table_id.words) }
    requires all { seat.me ≡ (first_view shared.now.key.put.value.items passes, []) }
    requires some { 1 ≤ passes }
    requires room { (list.items ≡ []) × (passes ≤ vec_capacity list) }
    ensures count { length result.items ≡ passes }
    ensures new { All (λ pass. pass
        ≡ new_pass (board_at shared.now.table_id shared.now.key.put.value.items passes))
        result.items }
{
    for _ in 1..passes {
        list.push_reserved(Pass {
            seat: shared.split_seat::<OnePass>(&mut seat),
            ended: false,
        });
    }
    list.push_reserved(Pass { seat, ended: false });
    list
}

/// One seat that knows what all the passes knew.
pub(crate) fn gather<P: Piece>(
    shared: &Counter<P>,
    mut passes: Vec<Pass<P>>,
) -> Seat<Slot<P>, View<P>>
    requires words { 0 < shared.now.table_id.words }
    requires some { 0 < length passes.items }
    requires own { All (λ pass. IsPassOf
        (board_at shared.now.table_id shared.now.key.put.value.items (length passes.items)) pass)
        passes.items }
    requires free { All (λ pass. pass.held ≡ None) passes.items }
    ensures table { result.table_id ≡ shared.now.table_id }
    ensures all { Gathered shared.now.key.put.value.items passes.items result.me }
{
    let Some(pass) = passes.pop() else {
        unreachable!()
    };
    let mut seat = pass.into_seat();
    while let Some(pass) = passes.pop() {
        let other = pass.into_seat();
        shared.join_seat::<Together>(&mut seat, other);
    }
    seat
}
