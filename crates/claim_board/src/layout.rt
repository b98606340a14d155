//! How the pieces get into the slots of the table, and out of them.

ghost use Rattle.std.specs.Prelude.{◌≡◌, ◌+◌, ◌≤◌, [], length, vec_len, vec_capacity};
ghost use Rattle.std.specs.Mem.Slots.{slots_items, IsFull};
ghost use Rattle.claim_board.specs.Layout.{IsLaidOut, pieces_of};

use crate::slot::Slot;
use atomic_table::Closed;
use std::alloc::Global;

/// A slot for each piece, and one with the room that they leave.
pub(crate) fn lay_out<P: Drop>(mut pieces: Vec<P>, mut slots: Vec<Slot<P>>) -> Vec<Slot<P>>
    requires empty { slots.items ≡ [] }
    requires room { vec_len pieces + 1 ≤ vec_capacity slots }
    ensures { IsLaidOut pieces.items result.items }
{
    while let Some(piece) = pieces.pop() {
        slots.push_reserved(Slot::Holds(piece));
    }
    slots.reverse();
    slots.push_reserved(Slot::Room(pieces));
    slots
}

/// The pieces as they were before [`lay_out`].
pub(crate) fn take_back<P: Drop>(mut slots: Vec<Slot<P>>) -> Vec<P>
    requires { IsLaidOut (pieces_of slots.items) slots.items }
    ensures { result.items ≡ pieces_of slots.items }
{
    let Some(Slot::Room(mut pieces)) = slots.pop() else {
        unreachable!()
    };
    slots.reverse();
    while let Some(slot) = slots.pop() {
        match slot {
            Slot::Holds(piece) => pieces.push_reserved(piece),
            _ => unreachable!(),
        }
    }
    pieces
}

/// The pieces of a table that is closed.
pub(crate) fn take_out<P: Drop>(mut closed: Closed<Slot<P>, Global>, places: usize) -> Vec<P>
    requires full { IsFull closed.words × IsFull closed.slots }
    requires laid { IsLaidOut (pieces_of (slots_items closed.slots)) (slots_items closed.slots) }
    requires places { places ≡ length (pieces_of (slots_items closed.slots)) }
    ensures { result.items ≡ pieces_of (slots_items closed.slots) }
{
    let Slot::Room(mut pieces) = closed.take(places) else {
        unreachable!()
    };
    for place in 0..places {
        match closed.take(place) {
            Slot::Holds(piece) => pieces.push_reserved(piece),
            _ => unreachable!(),
        }
    }
    closed.free();
    pieces
}
