//! When the actions of each actor may fire: its schedule and its priorities.

use crate::sample::Sample;
use priority_order::{Order, close};
use rvc_base::Memory;
use schedule_fsm::{Fsm, Step, build};
use std::alloc::Global;

/// `initialize` leads from state 1, the fresh one, to state 0.
const FRESH: [Step; 2] = [
    Step {
        from: 1,
        action: 0,
        to: 0,
    },
    Step {
        from: 0,
        action: 1,
        to: 0,
    },
];

/// Two actions that leave the first state, and one that returns to it.
const TURNS: [Step; 3] = [
    Step {
        from: 0,
        action: 0,
        to: 1,
    },
    Step {
        from: 0,
        action: 1,
        to: 1,
    },
    Step {
        from: 1,
        action: 2,
        to: 0,
    },
];

/// Something is read in the first state, and sent piece by piece in the second.
const PIECES: [Step; 3] = [
    Step {
        from: 0,
        action: 0,
        to: 1,
    },
    Step {
        from: 1,
        action: 1,
        to: 1,
    },
    Step {
        from: 1,
        action: 2,
        to: 0,
    },
];

impl Sample {
    /// The schedule.
    pub(crate) fn schedule(self, alloc: Global) -> Result<Fsm, Memory> {
        let built = match self {
            Sample::Ini => build(alloc, &FRESH, &[false, false], 2),
            Sample::Fsm => build(alloc, &TURNS, &[false, false, false, true], 2),
            Sample::Runs | Sample::Countdown => build(alloc, &PIECES, &[false, false, false], 2),
            Sample::Two | Sample::Alt | Sample::Race | Sample::Late => build(
                alloc,
                &[],
                &[true, true],
                1,
            ),
            _ => build(alloc, &[], &[true], 1),
        };
        built.map_err(|_fault| Memory)
    }

    /// The priorities.
    pub(crate) fn order(self, alloc: Global) -> Result<Order, Memory> {
        let closed = match self {
            Sample::Two | Sample::Race | Sample::Late => close(alloc, &[(0, 1)], 2),
            Sample::Ini | Sample::Alt => close(alloc, &[], 2),
            Sample::Runs | Sample::Countdown => close(alloc, &[], 3),
            Sample::Fsm => close(alloc, &[], 4),
            _ => close(alloc, &[], 1),
        };
        closed.map_err(|_fault| Memory)
    }
}
