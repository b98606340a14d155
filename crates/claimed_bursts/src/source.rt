//! What workers draw from.

ghost use Rattle.claimed_bursts.specs.Crews.{HasEnded, IsFree};

use claim_board::{Board, Pass, Piece};

/// What several workers draw from, each with a right `Q` of its own.
///
/// It stands between the board and the halves of a crew, since the borrow checker refuses a function that comes back to
/// itself by closures and is lent both a board and a slice of its passes, which have one type parameter.
pub(crate) trait Source<Q> {
    /// Its worker may begin.
    ghost may_draw: { Self → Q → Type 0 };
    /// Its worker was answered that nothing is left.
    ghost has_ended: { Self → Q → Type 0 };

    /// Draws and works until nothing is left.
    fn draw_all(&self, right: &mut Q)
        requires may_draw { may_draw self.now right.old }
        ensures ended { has_ended self.now right.new };
}

impl<P: Piece> Source<Pass<P>> for Board<P> {
    ghost use Rattle.claimed_bursts.specs.Crews.{HasEnded, IsFree};

    ghost may_draw = { IsFree };

    ghost has_ended = { HasEnded };

    fn draw_all(&self, right: &mut Pass<P>) {
        draw_pieces(self, right);
    }
}

/// Draws, works and gives back until no piece is left.
fn draw_pieces<P: Piece>(board: &Board<P>, pass: &mut Pass<P>)
    requires free { IsFree board.now pass.old }
    ensures ended { HasEnded board.now pass.new }
{
    while let Some((place, mut piece)) = board.draw(pass) {
        piece.work();
        board.give_back(pass, place, piece);
    }
}
