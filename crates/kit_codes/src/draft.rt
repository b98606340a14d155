//! The parts of an actor as tables.

use code_ir::Instr;
use lowered_actor::StateCell;

/// An action: how many tokens it takes of each input and sends to its output, its guards, its firing, and the first cell
/// from which it sends.
#[derive(Clone, Copy, Debug)]
pub(crate) struct Shape {
    pub needs: &'static [u32],
    pub gives: u32,
    pub guards: &'static [u32],
    pub fire: u32,
    pub sends: u32,
}

/// What an actor with one output is made of, but for its schedule and its priorities.
#[derive(Clone, Copy, Debug)]
pub(crate) struct Draft {
    pub instrs: &'static [Instr],
    /// The guards and the firings.
    pub entries: &'static [u32],
    pub cells: u32,
    pub actions: &'static [Shape],
    /// The state in which it begins.
    pub start: u16,
    /// How many state variables there are, and their types, in the first cells.
    pub kept: u32,
    pub saved: &'static [StateCell],
    pub ins: u32,
}
