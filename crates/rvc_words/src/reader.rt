//! The reader of the words.

ghost use Rattle.std.specs.Prelude.{◌≡◌, Err, IfOk, Ok, map};
ghost use Rattle.std.specs.List.{list_all};
ghost use Rattle.clap.specs.Walk.{texts as texts_behind};
ghost use Rattle.rvc_words.specs.Forms.{is_port};
ghost use Rattle.rvc_words.specs.Given.{parts_text, words_of};
ghost use Rattle.rvc_words.specs.Words.{IsWithin, asked, job, job_text, port, port_text, texts};
ghost use Rattle.rvc_words.specs.declared.fault.UsageCause.{UsageCause as Cause};
ghost use Rattle.rvc_words.specs.declared.fault.WordFault.TheVariants.{Usage};

use crate::command::matches;
use crate::fault::{UsageCause, WordFault};
use crate::forms::{is_port, is_top, lacks_trace, round_or_all, verb_of};
use crate::job::{
    DEFAULT_BUDGET, DEFAULT_BURST, DEFAULT_WORKERS, Job, MAX_BURST, MAX_GROW, MAX_WORKERS, PortWord,
};
use crate::names::cut;
use crate::numbers::number_or;
use crate::parts::{Parts, parts_of};
use rvc_base::MAX_BUDGET;
use std::alloc::{AllocError, Global};

/// Reads the words of the command line, the program's name first: `rvc VERB TOP [PORT=FILE ..]` and its options, in
/// any order.
///
/// # Errors
///
/// `Usage` if the words are no job, with the first cause (`usage`): [`UsageCause::Words`] if they don't fit the
/// command, and then, in the order of the variants, the first whose part isn't of its form. `Memory` if memory runs
/// out.
#[tactic(auto, unfolding(crate::specs::Words::job))]
pub fn read_words(alloc: Global, words: &[String]) -> Result<Job, WordFault>
    ensures read { IfOk result (λ given. job (texts words.now) ≡ Ok (job_text given)) }
    ensures usage { (cause : Cause) → result ≡ Err (Usage cause)
        → job (texts words.now) ≡ Err cause }
    ensures within { IfOk result (λ given. IsWithin (job_text given)) }
{
    let found = matches(alloc, words)?;
    asked(alloc, parts_of(&found))
}

/// What the parts of a command ask for.
fn asked(alloc: Global, parts: Parts<'_, '_>) -> Result<Job, WordFault>
    ensures read { IfOk result (λ given. asked (parts_text parts.entry) ≡ Ok (job_text given)) }
    ensures usage { (cause : Cause) → result ≡ Err (Usage cause)
        → asked (parts_text parts.entry) ≡ Err cause }
    ensures within { IfOk result (λ given. IsWithin (job_text given)) }
{
    let verb = verb_of(parts.verb).ok_or(UsageCause::Verb)?;
    if !is_top(verb, parts.top) {
        return Err(WordFault::Usage(UsageCause::Top));
    }
    let workers = number_or(parts.workers, DEFAULT_WORKERS, MAX_WORKERS).ok_or(UsageCause::Number)?;
    let burst = number_or(parts.burst, DEFAULT_BURST, MAX_BURST).ok_or(UsageCause::Number)?;
    let budget = number_or(parts.budget, DEFAULT_BUDGET, MAX_BUDGET).ok_or(UsageCause::Number)?;
    let grow = number_or(parts.grow, 0, MAX_GROW).ok_or(UsageCause::Number)?;
    let round = round_or_all(parts.round).ok_or(UsageCause::Round)?;
    if !are_ports(parts.ports) {
        return Err(WordFault::Usage(UsageCause::Port));
    }
    if lacks_trace(verb, parts.trace) {
        return Err(WordFault::Usage(UsageCause::Trace));
    }
    Ok(Job {
        verb,
        top: String::from_str(alloc, parts.top)?,
        ports: port_words(alloc, parts.ports)?,
        trace: String::from_str(alloc, parts.trace)?,
        workers: workers as u32,
        round,
        burst: burst as u32,
        budget,
        grow: grow as u32,
    })
}

/// Whether each word is `NAME=FILE`.
fn are_ports(words: Option<&[&str]>) -> bool
    ensures { result ≡ list_all is_port (words_of words.entry) }
{
    match words {
        Some(words) => all_are_ports(words),
        None => true,
    }
}

fn all_are_ports(words: &[&str]) -> bool
    ensures { result ≡ list_all is_port (texts_behind words.now) }
{
    words.iter().all(|word| is_port(word))
}

/// The words, each cut at its first `=`.
fn port_words(alloc: Global, words: Option<&[&str]>) -> Result<Vec<PortWord>, AllocError>
    ensures { IfOk result (λ ports. map port_text ports.items ≡ map port (words_of words.entry)) }
{
    match words {
        Some(words) => all_port_words(alloc, words),
        None => Ok(Vec::new(alloc)),
    }
}

fn all_port_words(alloc: Global, words: &[&str]) -> Result<Vec<PortWord>, AllocError>
    ensures { IfOk result (λ ports. map port_text ports.items ≡ map port (texts_behind words.now)) }
{
    let mut ports = Vec::new(alloc);
    for word in words {
        ports.push(port_word(alloc, word)?)?;
    }
    Ok(ports)
}

fn port_word(alloc: Global, word: &str) -> Result<PortWord, AllocError>
    ensures { IfOk result (λ owned. port_text owned ≡ port word.now) }
{
    let parts = cut(word, '=');
    Ok(PortWord {
        name: String::from_str(alloc, parts.front)?,
        file: String::from_str(alloc, parts.rest)?,
    })
}
