//! The registers of the machine.

/// Where a run is. Beside these it has its operands, its open calls and its cells in slices.
#[derive(Clone, Copy)]
pub(crate) struct Registers {
    /// Of the instruction that comes next.
    pub place: usize,
    /// How many operands there are.
    pub top: usize,
    /// How many calls are open.
    pub depth: usize,
    /// How many turns may still be made.
    pub left: u32,
}
