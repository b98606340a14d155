//! Tokens of a cell as slices, and the work that it did.

use crate::cell::Cell;
use firing_effort::Effort;
use firing_slices::FiringSlices;
use rvc_base::Num;

impl FiringSlices for Cell {
    #[inline]
    fn sent_parts(&self, port: u32) -> (&[Num], &[Num]) {
        self.outboxes[port as usize].as_slices()
    }

    #[inline]
    fn accept_all(&mut self, port: u32, tokens: &[Num]) {
        self.inboxes[port as usize].push_all(tokens);
    }
}

/// A firing counts as one and as the turns of the longest of the latest ones.
impl Effort for Cell {
    fn effort(&self) -> u64 {
        let turns = u64::from(self.cells.late_turns());
        (self.journal.len() as u64).saturating_mul(turns + 1)
    }
}
