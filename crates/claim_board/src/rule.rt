//! The rule of the board, and what each kind of step tells.

ghost use Rattle.std.specs.Prelude.{◌≡◌};
ghost use Rattle.claim_board.specs.Steps.{blank, drew, brought, looked, less_one, newcomer, joined};

use crate::piece::Piece;
use crate::slot::Slot;
use crate::view::{Opening, View};
use atomic_table::{Join, Play, Split, TableRule};
use std::marker::PhantomData;

/// The rule over the counter, the slots at home and the views.
pub(crate) struct Claims<P> {
    piece: PhantomData<P>,
}

impl<P: Piece> TableRule<Slot<P>, View<P>, Opening<P>> for Claims<P> {
    ghost use Rattle.claim_board.specs.Rule.{Kept};
    ghost use Rattle.claim_board.specs.Steps.{first_view};

    ghost holds = { λ o. Kept P.state P.marked P.gives o.put.value.items o.passes };

    ghost first = { λ o. first_view o.put.value.items o.passes };
}

/// The fetch-add of 1 on the counter.
pub(crate) struct Draws;

impl<P> Play<Slot<P>, View<P>> for Draws {
    ghost then = { drew };
}

/// The fetch-add of 0 with which a slot comes home.
pub(crate) struct BringsHome;

impl<P> Play<Slot<P>, View<P>> for BringsHome {
    ghost then = { brought };
}

/// A load of the counter.
pub(crate) struct Looks;

impl<P> Play<Slot<P>, View<P>> for Looks {
    ghost then = { looked };
}

/// One pass is cut off a seat that stands for several.
pub(crate) struct OnePass;

impl<P> Split<View<P>> for OnePass {
    ghost left = { less_one };

    ghost right = { newcomer };
}

/// Two seats are made one.
pub(crate) struct Together;

impl<P> Join<View<P>> for Together {
    ghost both = { joined };

    ghost spent = { blank };
}
