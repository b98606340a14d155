//! All tables of an actor.

ghost use Rattle.std.specs.Prelude.{◌≡◌, ◌<◌, All, IfOk, length};
ghost use Rattle.cal_model.specs.Eligible.{start_state};
ghost use Rattle.cal_model.specs.Sound.{IsSound, scalars_of_vars};
ghost use Rattle.cal_model.specs.View.{actor_of};
ghost use Rattle.lowered_actor.specs.Facts.{AreApart};
ghost use Rattle.rvc_base.specs.Storing.{IsSize};
ghost use Rattle.lower_tables.specs.Tables.{AreRates, IsPriority, IsSchedule, saved_from};

use crate::cells::{cell_count, saved_cells};
use crate::priority::order;
use crate::rates::{Rates, action_rates};
use crate::schedule::{automaton, start_state};
use cal_model::Bound;
use lowered_actor::StateCell;
use priority_order::Order;
use rvc_base::Memory;
use schedule_fsm::Fsm;
use std::alloc::Global;

/// What a lowered actor has beside its code.
#[derive(Drop)]
pub struct Tables {
    /// Which actions are eligible in a state, and where they lead.
    pub fsm: Fsm,
    /// The state in which an instance begins.
    pub start: u16,
    /// Which action is above which, and the line of the actions.
    pub order: Order,
    /// How many tokens each action takes and sends.
    pub rates: Vec<Rates>,
    /// How many state cells there are: one for each scalar of the actor's variables.
    pub kept: u32,
    /// The state cells of variables that change, in the order of the source.
    pub saved: Vec<StateCell>,
    /// How many input and output ports there are.
    pub ins: u32,
    pub outs: u32,
}

/// The tables of a sound actor. The variables stand in its state cells from cell 0 on, one after the other and scalar
/// by scalar.
///
/// # Errors
///
/// `Memory` if memory runs out.
pub fn lower_tables(alloc: Global, b: &Bound) -> Result<Tables, Memory>
    requires sound { IsSound (actor_of b.now) }
    ensures schedule { IfOk result (λ tables. IsSchedule (actor_of b.now) tables.fsm) }
    ensures start { IfOk result (λ tables. tables.start ≡ start_state (actor_of b.now)) }
    ensures priority { IfOk result (λ tables. IsPriority (actor_of b.now) tables.order) }
    ensures rates { IfOk result (λ tables. AreRates (actor_of b.now)
        (length b.now.actions.items) tables.rates.items) }
    ensures kept { IfOk result (λ tables. tables.kept ≡ scalars_of_vars (actor_of b.now).vars) }
    ensures saved { IfOk result
        (λ tables. tables.saved.items ≡ saved_from 0 (actor_of b.now).vars) }
    ensures ins { IfOk result (λ tables. tables.ins ≡ length b.now.ins.items) }
    ensures outs { IfOk result (λ tables. tables.outs ≡ length b.now.outs.items) }
    // what a lowered actor asks for besides
    ensures begins { IfOk result (λ tables. tables.start < tables.fsm.states) }
    ensures inside { IfOk result
        (λ tables. All (λ saved. saved.cell < tables.kept) tables.saved.items) }
    ensures apart { IfOk result (λ tables. AreApart tables.saved.items) }
    ensures sizes { IfOk result (λ tables. All (λ saved. IsSize saved.kind) tables.saved.items) }
{
    let fsm = automaton(alloc, b)?;
    let order = order(alloc, b)?;
    let rates = action_rates(alloc, b)?;
    let saved = saved_cells(alloc, &b.vars)?;
    Ok(Tables {
        start: start_state(b),
        fsm,
        order,
        rates,
        kept: cell_count(&b.vars),
        saved,
        ins: b.ins.len() as u32,
        outs: b.outs.len() as u32,
    })
}
