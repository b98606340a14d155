//! Actors are judged by the certification rule: each once, however many leaves it has.

ghost use Rattle.std.specs.Prelude.{◌≡◌, ◌<◌, ◌≤◌, All, IfOk, length, map};
ghost use Rattle.cal_model.specs.Sound.{Each, IsSound};
ghost use Rattle.cal_model.specs.View.{actor_of};
ghost use Rattle.rvc_engine.specs.Built.{AreJudged, IsJudged};
ghost use Rattle.network_check.specs.Checked.{StandAtLeaves};
ghost use Rattle.check_leaves.specs.Leaves.{actors_at_leaves};
ghost use Rattle.cmd_network.specs.Commands.{count_none};
ghost use Rattle.cmd_certify.specs.Steps.{IsVerdict, said_at, status_at, status_from};

use cal_model::Bound;
use check_leaves::LeafActors;
use cmd_report::Status;
use determinacy_cert::{CertFault, certify};
use rvc_base::{InstId, Memory};
use std::alloc::Global;

/// The most instances of a network. There is no memory for so many.
const MAX_INSTANCES: usize = 2_147_483_647;

/// What the actors at leaves come to.
#[derive(Clone, Copy)]
pub(crate) struct Verdict {
    /// How many leaves have a certified actor.
    pub certified: u64,
    pub said: Status,
}

/// Judges the actor at each leaf.
///
/// # Errors
///
/// `Memory`: an allocation was refused.
pub(crate) fn judge_leaves(alloc: Global, found: &LeafActors) -> Result<Verdict, Memory>
    requires { StandAtLeaves found.now }
    ensures { IfOk result (IsVerdict (actors_at_leaves found.now)) }
{
    let places = found.of_leaf.as_slice();
    if places.len() > MAX_INSTANCES {
        return Err(Memory);
    }
    let all = judge_all(alloc, found.actors.as_slice())?;
    Ok(Verdict {
        certified: count_certified(places, all.as_slice()),
        said: status_of_leaves(places, all.as_slice()),
    })
}

/// Why an actor isn't certified, or nothing if it is.
fn judge(alloc: Global, actor: &Bound) -> Result<Option<CertFault>, Memory>
    requires { IsSound (actor_of actor.now) }
    ensures { IfOk result (IsJudged (actor_of actor.now)) }
{
    match certify(alloc, actor) {
        Ok(()) => Ok(None),
        Err(CertFault::Memory) => Err(Memory),
        Err(
            CertFault::Uncertified {
                state,
                a,
                b,
                reason,
            },
        ) => Ok(Some(CertFault::Uncertified {
            state,
            a,
            b,
            reason,
        })),
    }
}

/// The same of each of several actors.
fn judge_all(alloc: Global, actors: &[Bound]) -> Result<Vec<Option<CertFault>>, Memory>
    requires { Each IsSound (map actor_of actors.now) }
    ensures judged { IfOk result (λ said. AreJudged (map actor_of actors.now) said.items) }
    ensures many { IfOk result (λ said. length said.items ≡ length actors.now) }
{
    let mut said = Vec::new(alloc);
    let mut rest = actors;
    'actors: while let Some((actor, others)) = rest.split_first() {
        let fault = judge(alloc, actor)?;
        said.push(fault)?;
        rest = others;
    }
    Ok(said)
}

/// How many leaves have a certified actor, of those whose actors stand at these places.
fn count_certified(places: &[u32], all: &[Option<CertFault>]) -> u64
    requires { All (λ p. p < length all.now) places.now }
    ensures { result ≡ count_none (said_at all.now places.now) }
{
    let mut count = 0u64;
    let mut rest = places;
    'places: while let Some((place, others)) = rest.split_first() {
        if all[*place as usize].is_none() {
            count += 1;
        }
        rest = others;
    }
    count
}

/// The status of certifying: that of the lowest leaf whose actor isn't certified, or that all are done.
fn status_of_leaves(places: &[u32], all: &[Option<CertFault>]) -> Status
    requires few { length places.now ≤ 4_294_967_295 }
    requires within { All (λ p. p < length all.now) places.now }
    ensures { result ≡ status_from 0 (said_at all.now places.now) }
{
    let mut leaf = 0u32;
    let mut rest = places;
    'places: while let Some((place, others)) = rest.split_first() {
        match all[*place as usize] {
            None => {}
            Some(fault) => return status_at(leaf, fault),
        }
        leaf += 1;
        rest = others;
    }
    Status::Done
}

/// The status of a leaf whose actor isn't certified.
fn status_at(leaf: u32, fault: CertFault) -> Status
    ensures { result ≡ status_at leaf fault }
{
    match fault {
        CertFault::Uncertified {
            state,
            a,
            b,
            reason,
        } => Status::Uncertified {
            inst: InstId(leaf),
            state,
            a,
            b,
            reason,
        },
        CertFault::Memory => Status::OutOfMemory,
    }
}
