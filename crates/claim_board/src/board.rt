//! The board.

ghost use Rattle.std.specs.Prelude.{◌≡◌, ◌⊎◌, ℕ, ◌<◌, ◌≤◌, ◌^◌, List, [], ◌∷◌, ◌++◌, length, true, false, Some, None, slice_get, IfOk, IfErr, IfSome, IfNone, vec_len};
ghost use Rattle.std.specs.List.{All, Any};
ghost use Rattle.claim_board.specs.Pieces.{IsAsPut, IsWorked};
ghost use Rattle.claim_board.specs.Seen.{IsPassOf, new_pass, drew_place, ended_pass, gave_back, times_drawn, EachDrawnOnce, AtEachPlace};

use crate::deal::{deal, gather};
use crate::layout::{lay_out, take_back, take_out};
use crate::pass::Pass;
use crate::piece::Piece;
use crate::rule::{BringsHome, Claims, Draws};
use crate::slot::Slot;
use crate::view::{Opening, View};
use atomic_table::{Refused, Table};
use std::alloc::Global;
use std::marker::Model;
use std::snapshot::Snapshot;

/// Pieces of work, each in its place, from which workers draw. Places are numbered from 0.
///
/// # Examples
///
/// Two pieces, of the numbers 3 and 4, whose work doubles the number:
///
/// ```
/// let alloc = rt.alloc();
/// let Ok((board, mut passes)) = Board::open(alloc, pieces, 1) else {
///     panic!(rt; "no memory")
/// };
/// while let Some((place, mut piece)) = board.draw(&mut passes[0]) {
///     piece.work();
///     board.give_back(&mut passes[0], place, piece);
/// }
/// let pieces = board.close(passes);
/// assert!(rt; pieces[0].number == 6 && pieces[1].number == 8);
/// ```
#[derive(Drop)]
pub struct Board<P: Piece> {
    table: Table<Slot<P>, View<P>, Opening<P>, Claims<P>, Global>,
    places: u32,
}

/// There was no memory for a board. The pieces come back.
#[derive(Drop)]
pub struct NoBoard<P> {
    pub pieces: Vec<P>,
}

impl<P: Piece> Model for Board<P> {
    ghost use Rattle.std.specs.Prelude.{◌≡◌, ◌+◌, ◌<◌, ◌≤◌, ◌^◌, length, false};
    ghost use Rattle.std.specs.List.{All};
    ghost use Rattle.claim_board.specs.Seen.{BoardSeen};

    ghost Value = { BoardSeen P };

    ghost view = { λ b. record {
      id = b.table.shared.table_id;
      put = b.table.shared.key.put.value.items;
      passes = b.table.shared.key.passes;
    } };

    ghost invariant = { λ b. (b.table.shared.table_id.words ≡ 1)
        × (b.table.shared.table_id.slots ≡ length b.table.shared.key.put.value.items + 1)
        × (b.places ≡ length b.table.shared.key.put.value.items)
        × (length b.table.shared.key.put.value.items < 2 ^ 32) × (1 ≤ b.table.shared.key.passes)
        × (b.table.shared.key.passes < 2 ^ 32)
        × All (λ p. P.marked p ≡ false) b.table.shared.key.put.value.items };
}

impl<P: Piece> Board<P> {
    /// A board with these pieces, and as many passes.
    ///
    /// # Errors
    ///
    /// `NoBoard` if memory runs out; it holds the pieces (`no_board`).
    pub fn open(
        alloc: Global,
        pieces: Vec<P>,
        passes: u32,
    ) -> Result<(Board<P>, Vec<Pass<P>>), NoBoard<P>>
        requires some_pass { 1 ≤ passes }
        requires unmarked { All (λ p. P.marked p ≡ false) pieces.items }
        requires few { vec_len pieces < 2 ^ 32 }
        ensures put { IfOk result (λ r. r.0.put ≡ pieces.items) }
        ensures passes { IfOk result (λ r. (r.0.passes ≡ passes) × (length r.1.items ≡ passes)) }
        ensures new { IfOk result (λ r. All (λ pass. pass ≡ new_pass r.0) r.1.items) }
        ensures no_board { IfErr result (λ e. e.pieces.items ≡ pieces.items) }
    {
        let places = pieces.len();
        let Ok(slots) = Vec::with_capacity(alloc, places + 1) else {
            return Err(NoBoard { pieces });
        };
        let Ok(list) = Vec::with_capacity(alloc, passes as usize) else {
            return Err(NoBoard { pieces });
        };
        let opening = Opening {
            put: Snapshot::of(&pieces),
            passes,
        };
        match Table::new(alloc, &[0], lay_out(pieces, slots), &opening) {
            Ok((table, seat)) => {
                let passes = deal(&table.shared, seat, passes, list);
                let places = places as u32;
                Ok((Board { table, places }, passes))
            }
            Err(Refused { slots }) => Err(NoBoard {
                pieces: take_back(slots),
            }),
        }
    }

    /// Draws a piece that nobody drew yet: the piece and its place.
    pub fn draw(&self, pass: &mut Pass<P>) -> Option<(u32, P)>
        requires own { IsPassOf self.now pass.old }
        requires free { pass.old.held ≡ None }
        ensures piece { IfSome result (λ r. slice_get self.now.put r.0 ≡ Some r.1) }
        ensures as_put { IfSome result (λ r. IsAsPut P.state P.marked self.now.put r.0 r.1) }
        ensures some { IfSome result (λ r. pass.new ≡ drew_place pass.old r.0) }
        ensures rises { IfSome result (λ r. All (λ place. place < r.0) pass.old.drawn) }
        ensures none { IfNone result (pass.new ≡ ended_pass pass.old) }
    {
        if pass.ended {
            return None;
        }
        let number = self.table.shared.fetch_add::<Draws>(&mut pass.seat, 0, 1);
        if number >= u64::from(self.places) {
            pass.ended = true;
            return None;
        }
        let slot = self
            .table
            .shared
            .exchange(&mut pass.seat, number as usize, Slot::Empty);
        match slot {
            Slot::Holds(piece) => Some((number as u32, piece)),
            _ => unreachable!(),
        }
    }

    /// Gives back the piece that was drawn at this place, worked.
    pub fn give_back(&self, pass: &mut Pass<P>, place: u32, piece: P)
        requires own { IsPassOf self.now pass.old }
        requires held { pass.old.held ≡ Some place }
        requires worked { IsWorked P.state P.marked P.gives self.now.put place piece }
        ensures { pass.new ≡ gave_back pass.old }
    {
        let shared = &self.table.shared;
        drop(shared.exchange(&mut pass.seat, place as usize, Slot::Holds(piece)));
        shared.fetch_add::<BringsHome>(&mut pass.seat, 0, 0);
    }

    /// Gives the pieces in their places. These are all the passes of the board.
    pub fn close(self, passes: Vec<Pass<P>>) -> Vec<P>
        requires own { All (λ pass. IsPassOf self pass) passes.items }
        requires all { length passes.items ≡ self.passes }
        requires free { All (λ pass. pass.held ≡ None) passes.items }
        ensures places { length result.items ≡ length self.put }
        ensures each { AtEachPlace (λ place piece. IsWorked P.state P.marked P.gives self.put place
            piece ⊎ IsAsPut P.state P.marked self.put place piece) result.items }
        ensures drawn { AtEachPlace (λ place piece. 0 < times_drawn place passes.items
            → IsWorked P.state P.marked P.gives self.put place piece) result.items }
        ensures left { AtEachPlace (λ place piece. times_drawn place passes.items ≡ 0
            → slice_get self.put place ≡ Some piece) result.items }
        ensures once { EachDrawnOnce self.put passes.items }
        ensures ended { Any (λ pass. pass.ended ≡ true) passes.items
            → AtEachPlace (λ place piece. IsWorked P.state P.marked P.gives self.put place piece)
            result.items }
    {
        let Board { table, places } = self;
        let seat = gather(&table.shared, passes);
        take_out(table.close_with(seat), places as usize)
    }
}
