//! Whether actors, wiring and plan can be run.

ghost use Rattle.std.specs.Prelude.{◌≡◌, ◌<◌, Some, length, map, slice_get, true};
ghost use Rattle.std.specs.Arc.{arc_value};
ghost use Rattle.kit_runs.specs.Fits.{HasFewRates, IsFine, IsLinkFine, IsPlanFine, IsWiringFine, OfEach};

use crate::ends::{actor_at, is_link_fine};
use crate::order::are_in_order;
use crate::rates::has_few_rates;
use crate::sizes::are_ports_sized;
use lowered_actor::Lowered;
use net_model::{Link, Wiring};
use round_runner::Plan;
use std::sync::Arc;

/// The most instances.
const MAX_INSTANCES: usize = 1024;

/// The most links.
const MAX_LINKS: usize = 4096;

/// The most outputs, each of which has a channel's number.
const MAX_OUTS: usize = 4_294_967_293;

/// The greatest capacity to which a link may grow.
const MAX_GROW: u32 = 1_048_576;

/// Whether a plan is one by which rounds are made.
fn is_plan_fine(plan: Plan) -> bool
    ensures { result ≡ true → IsPlanFine plan }
{
    if plan.workers < 1 || plan.workers > 64 {
        return false;
    }
    if plan.burst < 1 || plan.burst > 65_536 {
        return false;
    }
    plan.grow <= MAX_GROW
}

/// Whether ports are told and have their types, and links are few and in their order.
fn is_wiring_fine(wiring: &Wiring) -> bool
    ensures { result ≡ true → IsWiringFine wiring.now }
{
    if wiring.open_ins.len() != wiring.ins.len() || wiring.open_outs.len() != wiring.outs.len() {
        return false;
    }
    if wiring.outs.len() > MAX_OUTS || wiring.links.len() > MAX_LINKS {
        return false;
    }
    if !are_ports_sized(&wiring.ins) {
        return false;
    }
    if !are_ports_sized(&wiring.outs) {
        return false;
    }
    are_in_order(&wiring.links)
}

/// One of these links.
fn link_at(links: &[Link], l: usize) -> &Link
    requires { l < length links.now }
    ensures { slice_get links.now l ≡ Some result.now }
{
    &links[l]
}

/// Whether no action of these actors takes or gives more than a firing may.
fn have_few_rates(actors: &[Arc<Lowered>]) -> bool
    ensures { result ≡ true → OfEach (map arc_value actors.now) HasFewRates }
{
    for i in 0..actors.len() {
        if !has_few_rates(actor_at(actors, i)) {
            return false;
        }
    }
    true
}

/// Whether each link can be run.
fn are_links_fine(actors: &[Arc<Lowered>], wiring: &Wiring) -> bool
    ensures { result ≡ true → OfEach wiring.now.links.items
        (IsLinkFine (map arc_value actors.now) wiring.now) }
{
    for l in 0..wiring.links.len() {
        if !is_link_fine(actors, wiring, link_at(&wiring.links, l)) {
            return false;
        }
    }
    true
}

/// Whether actors that are joined so can be run by this plan.
pub(crate) fn can_be_run(actors: &[Arc<Lowered>], wiring: &Wiring, plan: Plan) -> bool
    ensures { result ≡ true → IsFine (map arc_value actors.now) wiring.now plan }
{
    if actors.len() > MAX_INSTANCES {
        return false;
    }
    if !is_plan_fine(plan) {
        return false;
    }
    if !is_wiring_fine(wiring) {
        return false;
    }
    if !have_few_rates(actors) {
        return false;
    }
    are_links_fine(actors, wiring)
}
