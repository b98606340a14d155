//! A lowered actor at work.

ghost use Rattle.std.specs.Prelude.{◌≡◌, ◌≤◌, ◌<◌, All, IfOk, length};
ghost use Rattle.std.specs.Arc.{arc_value};
ghost use Rattle.actor_cell.specs.Core.{IsAtStart, seen};

use crate::making::{first_cells, inboxes, outboxes};
use crate::outbox::Outbox;
use action_machine::Cells;
use lowered_actor::Lowered;
use rvc_base::Memory;
use std::alloc::Global;
use std::marker::Model;
use std::sync::Arc;
use token_ring::Ring;

/// A lowered actor with its state, its queues and its journal.
///
/// Contracts see what it keeps (`specs/Core.antt`); networks see of it what `Firing` says.
#[derive(Drop)]
pub struct Cell {
    pub(crate) code: Arc<Lowered>,
    pub(crate) state: u16,
    pub(crate) cells: Cells,
    pub(crate) inboxes: Vec<Ring>,
    pub(crate) outboxes: Vec<Outbox>,
    pub(crate) journal: Vec<u16>,
    pub(crate) trapped: bool,
}

impl Model for Cell {
    ghost use Rattle.actor_cell.specs.Core.{Core};

    ghost Value = { Core };

    ghost use Rattle.actor_cell.specs.Core.{IsSound};
    ghost use Rattle.actor_cell.specs.View.{core_of};

    ghost view = { core_of };

    ghost invariant = { λ c. IsSound (core_of c) };
}

impl Cell {
    /// A cell of an actor in its first state, with empty queues and an empty journal. All memory is taken here.
    ///
    /// `in_caps` and `out_caps` say for each port how many tokens its queue can hold, counted in tokens; 0 stands for
    /// an output port that nobody reads, and what is sent there is dropped. The journal has room for `burst` firings.
    ///
    /// # Errors
    ///
    /// `Memory` if memory runs out.
    pub fn new(
        alloc: Global,
        code: Arc<Lowered>,
        in_caps: &[u32],
        out_caps: &[u32],
        burst: u32,
    ) -> Result<Cell, Memory>
        requires ins { length in_caps.now ≡ (arc_value code).ins }
        requires outs { length out_caps.now ≡ (arc_value code).outs }
        requires room_for_one { All (λ capacity. 1 ≤ capacity) in_caps.now }
        requires burst { 1 ≤ burst }
        ensures { IfOk result (λ cell. IsAtStart (arc_value code) in_caps.now out_caps.now burst
            (seen cell)) }
    {
        // it tells the facts of lowered actors
        let _code = code.code();
        let cells = first_cells(alloc, &code)?;
        let inboxes = inboxes(alloc, in_caps)?;
        let outboxes = outboxes(alloc, out_caps)?;
        let journal = Vec::with_capacity(alloc, burst as usize)?;
        Ok(Cell {
            state: code.start(),
            code,
            cells,
            inboxes,
            outboxes,
            journal,
            trapped: false,
        })
    }
}
