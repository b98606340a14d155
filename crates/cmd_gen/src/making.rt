//! What is run: the job over the generated network, with its input named, and the files.

ghost use Rattle.std.specs.Prelude.{◌≡◌, ◌<◌, IfOk, IsSome, Some, map, string_bytes};
ghost use Rattle.rvc_words.specs.Words.{job_text, port_text};
ghost use Rattle.cmd_gen.specs.Jobs.{generated_job, instances_of, with_input};
ghost use Rattle.cmd_gen.specs.Making.{IsMadeFor};

use cmd_gen_network::{GeneratedLibrary, TOP_NAME, generated_library};
use rvc_base::Memory;
use rvc_words::{Job, PortWord};
use std::alloc::Global;

/// The name of the network's input, and of the file that it is read from.
const INPUT_NAME: &str = "In";

/// What is run for a job.
#[derive(Drop)]
pub(crate) struct Generated {
    /// The job itself, but for its top, which is the generated network, and one word more, that of the input.
    pub(crate) job: Job,
    /// The files of the network.
    pub(crate) library: GeneratedLibrary,
    /// How many instances it has.
    pub(crate) instances: u32,
}

/// What is to be run for a job.
///
/// # Errors
///
/// `Memory` if memory runs out.
pub(crate) fn generate(alloc: Global, job: &Job) -> Result<Generated, Memory>
    requires number { IsSome (instances_of (string_bytes job.now.top)) }
    ensures { IfOk result (λ made. IsMadeFor job.now made.job made.library made.instances) }
{
    let instances = instances_of(job.top.as_str());
    let library = generated_library(alloc, instances)?;
    let job = job_to_run(alloc, job)?;
    Ok(Generated {
        job,
        library,
        instances,
    })
}

/// How many instances the network has that this top asks for.
fn instances_of(top: &str) -> u32
    requires { IsSome (instances_of top.now) }
    ensures number { instances_of top.now ≡ Some result }
    ensures some { 0 < result }
{
    match top.parse::<u32>() {
        Ok(number) => number,
        Err(_) => unreachable!(),
    }
}

/// The job that is run.
fn job_to_run(alloc: Global, job: &Job) -> Result<Job, Memory>
    ensures { IfOk result (λ made. job_text made ≡ generated_job (job_text job.now)) }
{
    let top = String::from_str(alloc, TOP_NAME)?;
    let ports = words_with_input(alloc, job.ports.as_slice())?;
    let trace = String::from_str(alloc, job.trace.as_str())?;
    Ok(Job {
        verb: job.verb,
        top,
        ports,
        trace,
        workers: job.workers,
        round: job.round,
        burst: job.burst,
        budget: job.budget,
        grow: job.grow,
    })
}

/// A copy of port words, and the one of the input behind them.
fn words_with_input(alloc: Global, words: &[PortWord]) -> Result<Vec<PortWord>, Memory>
    ensures { IfOk result (λ all. map port_text all.items
        ≡ with_input (map port_text words.now)) }
{
    let mut all = copy_words(alloc, words)?;
    let input = word(alloc, INPUT_NAME, INPUT_NAME)?;
    all.push(input)?;
    Ok(all)
}

/// A copy of port words.
fn copy_words(alloc: Global, words: &[PortWord]) -> Result<Vec<PortWord>, Memory>
    ensures { IfOk result (λ copy. map port_text copy.items ≡ map port_text words.now) }
{
    let mut copy = Vec::new(alloc);
    let mut rest = words;
    'words: while let Some((first, others)) = rest.split_first() {
        let same = word(alloc, first.name.as_str(), first.file.as_str())?;
        copy.push(same)?;
        rest = others;
    }
    Ok(copy)
}

/// The word that gives a port a file.
fn word(alloc: Global, name: &str, file: &str) -> Result<PortWord, Memory>
    ensures { IfOk result (λ made. port_text made
        ≡ record { name = name.now; file = file.now }) }
{
    let name = String::from_str(alloc, name)?;
    let file = String::from_str(alloc, file)?;
    Ok(PortWord { name, file })
}
