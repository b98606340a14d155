//! The right of one worker to draw.

ghost use Rattle.claim_board.specs.Seen.{IsSeatOf};

use crate::slot::Slot;
use crate::view::View;
use atomic_table::Seat;
use std::marker::Model;

/// The right of one worker to draw from one board. It takes no bytes but a mark, and may go to another thread.
#[derive(Drop)]
pub struct Pass<P> {
    pub(crate) seat: Seat<Slot<P>, View<P>>,
    pub(crate) ended: bool,
}

impl<P> Model for Pass<P> {
    ghost use Rattle.claim_board.specs.Seen.{PassSeen, IsPass, pass_seen};

    ghost Value = { PassSeen P };

    ghost view = { λ p. pass_seen p.seat.table_id p.seat.me p.ended };

    ghost invariant = { λ p. IsPass p.seat.me p.ended };
}

impl<P> Pass<P> {
    /// The seat at the table.
    pub(crate) fn into_seat(self) -> Seat<Slot<P>, View<P>>
        ensures { IsSeatOf result.table_id result.me self }
    {
        let Pass { seat, ended: _ } = self;
        seat
    }
}
