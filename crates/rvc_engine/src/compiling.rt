//! Actors are compiled: each once, however many leaves it has.

ghost use Rattle.std.specs.Prelude.{◌≡◌, ◌<◌, All, IfOk, OnOk, List, length, map};
ghost use Rattle.std.specs.Arc.{arc_value};
ghost use Rattle.lower_actor.specs.Leaves.{StandForActors};
ghost use Rattle.cal_model.specs.Actor.{Actor};
ghost use Rattle.cal_model.specs.Sound.{Each, IsSound};
ghost use Rattle.cal_model.specs.View.{actor_of};
ghost use Rattle.check_leaves.specs.Leaves.{at_places};
ghost use Rattle.rvc_engine.specs.Built.{AreJudged, IsJudged};
ghost use Rattle.rvc_engine.specs.Compiling.{AddsCompiled, AreCompiled, IsCompiled};

use cal_model::Bound;
use determinacy_cert::{CertFault, certify};
use lower_actor::lower;
use lowered_actor::Lowered;
use rvc_base::Memory;
use std::alloc::Global;
use std::sync::Arc;

/// An actor that was compiled.
#[derive(Drop)]
pub(crate) struct Compiled {
    pub code: Arc<Lowered>,
    pub uncertified: Option<CertFault>,
}

/// Why an actor isn't certified, or nothing if it is.
fn judge(alloc: Global, actor: &Bound) -> Result<Option<CertFault>, Memory>
    requires { IsSound (actor_of actor.now) }
    ensures { IfOk result (IsJudged (actor_of actor.now)) }
{
    match certify(alloc, actor) {
        Ok(()) => Ok(None),
        Err(CertFault::Memory) => Err(Memory),
        Err(
            CertFault::Uncertified {
                state,
                a,
                b,
                reason,
            },
        ) => Ok(Some(CertFault::Uncertified {
            state,
            a,
            b,
            reason,
        })),
    }
}

/// An actor, compiled.
fn compile(alloc: Global, actor: &Bound) -> Result<Compiled, Memory>
    requires { IsSound (actor_of actor.now) }
    ensures { IfOk result (IsCompiled (actor_of actor.now)) }
{
    let lowered = lower(alloc, actor)?;
    let uncertified = judge(alloc, actor)?;
    let code = Arc::new(alloc, lowered)?;
    Ok(Compiled { code, uncertified })
}

/// One of several actors, compiled behind those before it.
fn compile_next(alloc: Global, all: &mut Vec<Compiled>, actor: &Bound) -> Result<(), Memory>
    requires { IsSound (actor_of actor.now) }
    ensures { OnOk result (AddsCompiled (actor_of actor.now) all.old.items all.new.items) }
{
    let compiled = compile(alloc, actor)?;
    all.push(compiled)?;
    Ok(())
}

/// Actors, compiled.
pub(crate) fn compile_all(alloc: Global, actors: &[Bound]) -> Result<Vec<Compiled>, Memory>
    requires { Each IsSound (map actor_of actors.now) }
    ensures { IfOk result (λ all. AreCompiled (map actor_of actors.now) all.items) }
{
    let mut all = Vec::new(alloc);
    let mut rest = actors;
    'actors: while let Some((actor, others)) = rest.split_first() {
        let Ok(()) = compile_next(alloc, &mut all, actor) else {
            return Err(Memory);
        };
        rest = others;
    }
    Ok(all)
}

/// The code of the actor at each of these places.
pub(crate) fn codes_at(
    alloc: Global,
    places: &[u32],
    all: &[Compiled],
) -> Result<Vec<Arc<Lowered>>, Memory>
    requires { All (λ p. p < length all.now) places.now }
    ensures { (actors : List Actor) → AreCompiled actors all.now → IfOk result
        (λ codes. StandForActors (at_places actors places.now) (map arc_value codes.items)) }
{
    let mut codes = Vec::new(alloc);
    let mut rest = places;
    'places: while let Some((place, others)) = rest.split_first() {
        let code = Arc::clone(&all[*place as usize].code)?;
        codes.push(code)?;
        rest = others;
    }
    Ok(codes)
}

/// Why an actor isn't certified.
fn uncertified_of(compiled: &Compiled) -> Option<CertFault>
    ensures { result ≡ compiled.now.uncertified }
{
    compiled.uncertified
}

/// What is said of the actor at each of these places.
pub(crate) fn uncertified_at(
    alloc: Global,
    places: &[u32],
    all: &[Compiled],
) -> Result<Vec<Option<CertFault>>, Memory>
    requires { All (λ p. p < length all.now) places.now }
    ensures { (actors : List Actor) → AreCompiled actors all.now → IfOk result
        (λ said. AreJudged (at_places actors places.now) said.items) }
{
    let mut said = Vec::new(alloc);
    let mut rest = places;
    'places: while let Some((place, others)) = rest.split_first() {
        said.push(uncertified_of(&all[*place as usize]))?;
        rest = others;
    }
    Ok(said)
}
