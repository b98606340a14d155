//! What is tested and made for a replay before anything is opened.

ghost use Rattle.std.specs.Prelude.{[], IfErr, IfOk, OnOk, map, string_bytes};
ghost use Rattle.cmd_replay.specs.Steps.{IsPermitted, IsPrepared, IsStopped};

use crate::naming::names_of_instances;
use crate::outcome::NotReplayed;
use cmd_ports::match_words;
use cmd_run_network::{fits_grown, wiring_of};
use fnl_flatten::Flat;
use net_model::Wiring;
use rvc_base::{Memory, Refusal};
use rvc_words::Job;
use std::alloc::Global;
use trace_replay::ReplayFault;

/// The most inputs of a network. There is no memory for so many.
const MAX_INPUTS: usize = 4_294_967_295;

/// What the replay over a network needs beside its cells.
#[derive(Drop)]
pub(crate) struct Prepared {
    pub(crate) wiring: Wiring,
    /// The path of each instance and its class, as the trace names them.
    pub(crate) names: Vec<String>,
}

/// Whether a job may be replayed over this network: each port word names an input of its own, and the links may grow as far
/// as the job asks.
fn check_job(flat: &Flat, job: &Job) -> Result<(), NotReplayed>
    ensures permitted { OnOk result (IsPermitted flat.now job.now) }
    ensures stopped { IfErr result (IsStopped flat.now job.now) }
{
    let ins = flat.ins.as_slice();
    if ins.len() > MAX_INPUTS {
        return Err(NotReplayed::Fault(ReplayFault::Memory));
    }
    if let Err(refusal) = match_words(job.ports.as_slice(), ins, &[]) {
        return Err(NotReplayed::Refused(refusal));
    }
    if let Err(refusal) = fits_grown(flat.links.as_slice(), job.grow) {
        return Err(NotReplayed::Refused(refusal));
    }
    Ok(())
}

/// The wiring of this network and the names of its instances.
fn make_ready(alloc: Global, flat: &Flat, job: &Job) -> Result<Prepared, Memory>
    ensures { IfOk result (λ p. IsPrepared flat.now job.now p.wiring (map string_bytes p.names.items)) }
{
    let wiring = wiring_of(alloc, flat, job.ports.as_slice())?;
    let names = names_of_instances(alloc, flat.paths.as_slice(), flat.classes.as_slice())?;
    Ok(Prepared { wiring, names })
}

/// Tests whether a job may be replayed over this network, and makes what that needs.
///
/// # Errors
///
/// `Refused` for the first port word that names no input, or one that a word before it names; or if the links may not grow
/// as far as the job asks. `Memory` if memory runs out, or there are more inputs than there can be.
pub(crate) fn prepare(alloc: Global, flat: &Flat, job: &Job) -> Result<Prepared, NotReplayed>
    ensures prepared { IfOk result (λ p. IsPrepared flat.now job.now p.wiring
        (map string_bytes p.names.items)) }
    ensures permitted { OnOk result (IsPermitted flat.now job.now) }
    ensures stopped { IfErr result (IsStopped flat.now job.now) }
{
    if let Err(stopped) = check_job(flat, job) {
        return Err(stopped);
    }
    match make_ready(alloc, flat, job) {
        Ok(prepared) => Ok(prepared),
        Err(Memory) => Err(NotReplayed::Fault(ReplayFault::Memory)),
    }
}
