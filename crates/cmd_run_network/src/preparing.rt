//! What is made for a job before anything is opened.

ghost use Rattle.std.specs.Prelude.{◌≡◌, ◌+◌, ◌<◌, IfErr, IfOk, OnOk, length, map};
ghost use Rattle.network_runner.specs.Asking.{seen_run};
ghost use Rattle.cmd_run_network.specs.Answering.{IsPermitted, IsRefused, NeverOpens, OnRefused};
ghost use Rattle.cmd_run_network.specs.Network.{CanRunAll, plan_of, words_of};
ghost use Rattle.cmd_run_network.specs.Preparing.{IsPrepared};

use crate::fits_grown;
use crate::head::head_of;
use crate::outcome::JobFault;
use crate::wiring::wiring_of;
use cmd_ports::match_words;
use fnl_flatten::Flat;
use net_model::{Counts, Firing};
use network_runner::{Runner, no_counts};
use round_plan::Policy;
use round_runner::Plan;
use rvc_base::{Memory, Refusal};
use rvc_words::Job;
use std::alloc::Global;

/// The most ports of a network. There is no memory for so many.
const MAX_PORTS: usize = 4_294_967_295;

/// A network that is ready to run.
#[derive(Drop)]
pub(crate) struct Prepared<A: Firing, P: Policy> {
    pub(crate) runner: Runner<A, P>,
    /// What stands in the trace before its first event.
    pub(crate) head: Vec<u8>,
    /// Places for the numbers of the run.
    pub(crate) counts: Counts,
}

/// By what the rounds of a job are made.
fn plan_of(job: &Job) -> Plan
    ensures { result ≡ plan_of job.now }
{
    Plan {
        workers: job.workers,
        burst: job.burst,
        grow: job.grow,
    }
}

/// Takes the memory for a run of these cells.
///
/// # Errors
///
/// `Memory` if memory runs out.
fn make_ready<A: Firing + Send, P: Policy>(
    alloc: Global,
    cells: Vec<A>,
    flat: &Flat,
    job: &Job,
    policy: P,
) -> Result<Prepared<A, P>, Memory>
    requires can_run { CanRunAll (map A.cell cells.items) flat.now (plan_of job.now) }
    requires not_asked { P.rounds policy ≡ 0 }
    ensures { IfOk result (λ p. IsPrepared (map A.cell cells.items) flat.now
        (words_of job.now) (plan_of job.now) (P.kind policy) (seen_run A.cell p.runner)
        p.head.items p.counts) }
{
    let plan = plan_of(job);
    let wiring = wiring_of(alloc, flat, job.ports.as_slice())?;
    let head = head_of(alloc, flat, cells.len() as u32, plan.grow)?;
    let counts = no_counts(alloc, flat.links.len(), flat.outs.len())?;
    let runner = Runner::new(alloc, cells, wiring, plan, policy)?;
    Ok(Prepared {
        runner,
        head,
        counts,
    })
}

/// Whether a job may be run: its port words are matched with the ports of its network, and then it is tested how far the
/// links may grow.
///
/// # Errors
///
/// The refusal of the first port word that names no port, or one that a word before it names; and then that of links which
/// may grow too far.
fn permit(flat: &Flat, job: &Job) -> Result<(), Refusal>
    requires few { length flat.now.ins.items + length flat.now.outs.items < 4294967296 }
    ensures permitted { OnOk result (IsPermitted flat.now job.now) }
    ensures refused { IfErr result (IsRefused flat.now job.now) }
{
    let ins = flat.ins.as_slice();
    let outs = flat.outs.as_slice();
    if let Err(refusal) = match_words(job.ports.as_slice(), ins, outs) {
        return Err(refusal);
    }
    fits_grown(flat.links.as_slice(), job.grow)
}

/// Tests whether a job may be run, and takes the memory for its run.
///
/// # Errors
///
/// `Refused` if a port word names no port, or one that a word before it names, or the links may grow too far; `Memory` if
/// memory runs out.
pub(crate) fn prepare<A: Firing + Send, P: Policy>(
    alloc: Global,
    cells: Vec<A>,
    flat: &Flat,
    job: &Job,
    policy: P,
) -> Result<Prepared<A, P>, JobFault>
    requires can_run { CanRunAll (map A.cell cells.items) flat.now (plan_of job.now) }
    requires not_asked { P.rounds policy ≡ 0 }
    ensures prepared { IfOk result (λ p. IsPrepared (map A.cell cells.items) flat.now
        (words_of job.now) (plan_of job.now) (P.kind policy) (seen_run A.cell p.runner)
        p.head.items p.counts) }
    ensures permitted { OnOk result (IsPermitted flat.now job.now) }
    ensures refused { OnRefused result (IsRefused flat.now job.now) }
    ensures only { NeverOpens result }
{
    if flat.ins.len() > MAX_PORTS / 2 || flat.outs.len() > MAX_PORTS / 2 {
        return Err(JobFault::Memory);
    }
    if let Err(refusal) = permit(flat, job) {
        return Err(JobFault::Refused(refusal));
    }
    match make_ready(alloc, cells, flat, job, policy) {
        Ok(prepared) => Ok(prepared),
        Err(Memory) => Err(JobFault::Memory),
    }
}
