//! What a lowered actor is made of.

use code_ir::Admitted;
use priority_order::Order;
use rvc_base::{Num, Scalar};
use schedule_fsm::Fsm;

/// An action as code: its rates, and where its guards and its firing stand.
#[derive(Debug, Drop)]
pub struct ActionCode {
    /// How many tokens it takes from each input port.
    pub needs: Vec<u32>,
    /// How many tokens it sends on each output port.
    pub gives: Vec<u32>,
    /// The entries of its guards, in the order in which they are asked. Each ends by `Answer`.
    pub guards: Vec<u32>,
    /// The entry of its locals, body and outputs, which ends by `Done`.
    pub fire: u32,
    /// For each output port the first of the cells in which the firing leaves the tokens to send.
    pub sends: Vec<u32>,
}

/// A cell that holds a scalar of a state variable which changes, and the scalar's type, which has a size: from 1 to
/// [`MAX_SIZE`](rvc_base::MAX_SIZE) bits if it is one of numbers.
#[derive(Clone, Copy, Debug, PartialEq, Eq)]
pub struct StateCell {
    pub cell: u32,
    pub kind: Scalar,
}

/// The parts of a lowered actor.
#[derive(Drop)]
pub struct Parts {
    pub code: Admitted,
    /// Which actions are eligible in a state of the schedule, and where they lead.
    pub fsm: Fsm,
    /// Which action is above which, and the line of the actions.
    pub order: Order,
    pub actions: Vec<ActionCode>,
    /// What each cell holds at first.
    pub first: Vec<Num>,
    /// The cells below this number are the state cells: parameters, constants and state variables. The others are
    /// for the runs of guards and firings alone.
    pub kept: u32,
    /// The first state of the schedule.
    pub start: u16,
    /// The state cells that a firing may change, in the order of the source, each once.
    pub saved: Vec<StateCell>,
    /// How many input and output ports there are.
    pub ins: u32,
    pub outs: u32,
}
