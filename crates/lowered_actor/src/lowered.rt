//! A lowered actor.

ghost use Rattle.std.specs.Prelude.{◌≡◌, ◌<◌, IfOk, Some, All, length, slice_get};
ghost use Rattle.lowered_actor.specs.Actor.{action_of, actor_of};
ghost use Rattle.lowered_actor.specs.Facts.{AreApart, FitTogether, RunRight, IsLowered};
ghost use Rattle.rvc_base.specs.Storing.{IsSize};
ghost use Rattle.lowered_actor.specs.Candidates.{eligible_among};

use crate::candidates::{Candidates, rows};
use crate::parts::{ActionCode, Parts, StateCell};
use code_ir::Admitted;
use priority_order::Order;
use rvc_base::{Memory, Num};
use schedule_fsm::Fsm;
use std::alloc::Global;
use std::marker::Model;

/// Why parts that were written by hand make no lowered actor.
#[derive(Clone, Copy, Debug, PartialEq, Eq)]
pub enum Unfit {
    /// The parts are of different actions, or a number is out of range.
    DoNotFit,
    /// The code of a guard or a firing is no straight line that keeps the facts.
    NotStraight,
    /// An allocation was refused.
    Memory,
}

/// An actor as code, with its automaton, its order and its rates. It keeps the facts of `specs/Facts.antt`.
#[derive(Drop)]
pub struct Lowered {
    parts: Parts,
    /// A row for each state.
    candidates: Vec<Candidates>,
}

impl Model for Lowered {
    ghost use Rattle.std.specs.Prelude.{◌≡◌};
    ghost use Rattle.lowered_actor.specs.Actor.{Actor, actor_of};
    ghost use Rattle.lowered_actor.specs.Facts.{IsLowered};
    ghost use Rattle.lowered_actor.specs.Candidates.{AreRows};

    ghost Value = { Actor };

    ghost view = { λ a. actor_of a.parts };

    ghost invariant = { λ a. IsLowered (actor_of a.parts)
        × AreRows a.parts.fsm a.parts.order.line a.parts.fsm.states a.candidates.items };
}

impl Lowered {
    /// A lowered actor of these parts. It makes the table of the actions that are eligible in each state.
    ///
    /// # Errors
    ///
    /// `Memory` if memory runs out.
    pub fn new(alloc: Global, parts: Parts) -> Result<Lowered, Memory>
        requires fits { FitTogether (actor_of parts) }
        requires right { RunRight (actor_of parts) }
        ensures { IfOk result (λ lowered. lowered ≡ actor_of parts) }
    {
        // it tells that the code is admitted
        let _most = parts.code.most_operands();
        let Ok(candidates) = rows(alloc, &parts.fsm, parts.order.line()) else {
            return Err(Memory);
        };
        Ok(Lowered { parts, candidates })
    }

    /// The same of parts that were written by hand, whose facts are tested.
    ///
    /// # Errors
    ///
    /// `DoNotFit` if [`Parts::fit`] is false; else `NotStraight` if [`Parts::are_straight`] is. `Memory` if memory
    /// runs out.
    pub fn of_straight_lines(alloc: Global, parts: Parts) -> Result<Lowered, Unfit>
        ensures { IfOk result (λ lowered. lowered ≡ actor_of parts) }
    {
        if !parts.fit() {
            return Err(Unfit::DoNotFit);
        }
        if !parts.are_straight() {
            return Err(Unfit::NotStraight);
        }
        let Ok(lowered) = Lowered::new(alloc, parts) else {
            return Err(Unfit::Memory);
        };
        Ok(lowered)
    }

    /// The code of its guards and firings.
    #[inline]
    pub fn code(&self) -> &Admitted
        ensures code { result.now ≡ self.now.code }
        ensures facts { IsLowered self.now }
    {
        &self.parts.code
    }

    /// The automaton of its schedule.
    #[inline]
    pub fn fsm(&self) -> &Fsm
        ensures { result.now ≡ self.now.fsm }
    {
        &self.parts.fsm
    }

    /// The order of its actions.
    #[inline]
    pub fn order(&self) -> &Order
        ensures { result.now ≡ self.now.order }
    {
        &self.parts.order
    }

    /// How many actions it has.
    #[inline]
    pub fn actions(&self) -> usize
        ensures { result ≡ length self.now.actions }
    {
        self.parts.actions.len()
    }

    /// One of its actions.
    #[inline]
    pub fn action(&self, a: u16) -> &ActionCode
        requires { a < length self.now.actions }
        ensures { slice_get self.now.actions a ≡ Some (action_of result.now) }
    {
        &self.parts.actions[usize::from(a)]
    }

    /// The actions that are eligible in a state, in the order of the line.
    #[inline]
    pub fn candidates(&self, state: u16) -> &[u16]
        requires { state < self.now.fsm.states }
        ensures eligible { result.now ≡ eligible_among self.now.fsm state self.now.order.line }
        ensures actions { All (λ a. a < length self.now.actions) result.now }
    {
        // it tells that the actions of the line are in range
        let _line = self.parts.order.line();
        &self.candidates[usize::from(state)].actions
    }

    /// What each cell holds at first.
    #[inline]
    pub fn first(&self) -> &[Num]
        ensures { result.now ≡ self.now.first }
    {
        &self.parts.first
    }

    /// How many cells, from cell 0 on, are state cells.
    #[inline]
    pub fn kept(&self) -> u32
        ensures { result ≡ self.now.kept }
    {
        self.parts.kept
    }

    /// The first state of the schedule.
    #[inline]
    pub fn start(&self) -> u16
        ensures { result ≡ self.now.start }
    {
        self.parts.start
    }

    /// The state cells that a firing may change, in the order of the source. No two are one, and each type has a size.
    #[inline]
    pub fn state_cells(&self) -> &[StateCell]
        ensures cells { result.now ≡ self.now.saved }
        ensures apart { AreApart result.now }
        ensures sizes { All (λ saved. IsSize saved.kind) result.now }
    {
        &self.parts.saved
    }

    /// How many input ports it has.
    #[inline]
    pub fn ins(&self) -> u32
        ensures { result ≡ self.now.ins }
    {
        self.parts.ins
    }

    /// How many output ports it has.
    #[inline]
    pub fn outs(&self) -> u32
        ensures { result ≡ self.now.outs }
    {
        self.parts.outs
    }
}
