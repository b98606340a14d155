//! A cell that is to make a burst, as a piece of work.

ghost use Rattle.std.specs.Prelude.{◌≡◌, None, length};
ghost use Rattle.claimed_bursts.specs.Tasks.{MayBurst};

use claim_board::Piece;
use net_model::{BurstEnd, Firing};
use rvc_base::InstId;
use std::marker::Model;

/// A cell that is to make a burst: how often it may fire, the rooms of its output ports, and how the burst ended once it
/// was made.
#[derive(Drop)]
pub struct BurstTask<'a, A: Firing> {
    cell: A,
    inst: InstId,
    limit: u32,
    rooms: &'a [u32],
    end: Option<BurstEnd>,
}

impl<'a, A: Firing> Model for BurstTask<'a, A> {
    ghost use Rattle.std.specs.Prelude.{◌≡◌, None};
    ghost use Rattle.claimed_bursts.specs.Tasks.{MayBurst, Task};

    ghost Value = { Task A };

    ghost view = { λ t. record {
      cell = t.cell;
      inst = t.inst;
      limit = t.limit;
      rooms = t.rooms.now;
      end = t.end;
    } };

    ghost invariant = { λ t. t.end ≡ None → MayBurst (A.cell t.cell) t.limit t.rooms.now };
}

impl<'a, A: Firing> BurstTask<'a, A> {
    /// A task for a cell, which has this number and may fire at most `limit` times with these rooms.
    pub fn new(cell: A, inst: InstId, limit: u32, rooms: &'a [u32]) -> BurstTask<'a, A>
        requires may { MayBurst (A.cell cell) limit rooms.now }
        ensures cell { result.cell ≡ cell }
        ensures inst { result.inst ≡ inst }
        ensures limit { result.limit ≡ limit }
        ensures rooms { result.rooms ≡ rooms.now }
        ensures end { result.end ≡ None }
    {
        BurstTask {
            cell,
            inst,
            limit,
            rooms,
            end: None,
        }
    }

    /// The number of the cell.
    pub fn inst(&self) -> InstId
        ensures { result ≡ self.now.inst }
    {
        self.inst
    }

    /// How the burst ended, once it was made.
    pub fn end(&self) -> Option<BurstEnd>
        ensures { result ≡ self.now.end }
    {
        self.end
    }

    /// How many firings the cell's journal names.
    pub fn fired(&self) -> u64
        ensures { result ≡ length (A.cell self.now.cell).journal }
    {
        self.cell.journal().len() as u64
    }

    /// The cell, without its task.
    pub fn into_cell(self) -> A
        ensures { result ≡ self.entry.cell }
    {
        let BurstTask { cell, .. } = self;
        cell
    }
}

impl<'a, A: Firing> Piece for BurstTask<'a, A> {
    ghost use Rattle.std.specs.Prelude.{is_some};
    ghost use Rattle.claimed_bursts.specs.Tasks.{MakesBurst, Task};

    ghost State = { Task A };

    ghost state = { λ t. t };

    ghost marked = { λ t. is_some t.end };

    ghost gives = { MakesBurst A.cell };

    fn work(&mut self) {
        // What holds of every actor is told with its number of outputs.
        let _ = self.cell.outs();
        self.end = Some(self.cell.burst(self.limit, self.rooms));
    }
}
