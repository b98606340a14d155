//! The command that the words are matched by.

ghost use Rattle.std.specs.Prelude.{◌≡◌, Err, IfOk, false, true};
ghost use Rattle.clap.specs.Walk.{rows_of, rule_of};
ghost use Rattle.clap.specs.Matches.{found_of};
ghost use Rattle.clap.specs.Simple.{app_of};
ghost use Rattle.rvc_words.specs.Command.{last_place, option, place, matches, refuses, rvc};
ghost use Rattle.rvc_words.specs.declared.fault.UsageCause.TheVariants.{Words};
ghost use Rattle.rvc_words.specs.declared.fault.UsageCause.{UsageCause as Cause};
ghost use Rattle.rvc_words.specs.declared.fault.WordFault.TheVariants.{Usage};
ghost use Rattle.rvc_words.specs.Texts.{texts};

use crate::fault::{UsageCause, WordFault};
use clap::error::ErrorKind;
use clap::{Arg, ArgMatches, Command};
use std::alloc::{AllocError, Global};

/// A place that one word has to take.
fn place<'a>(alloc: Global, id: &'a str) -> Arg<'a>
    ensures rule { rule_of result ≡ place id.entry.now }
    ensures local { result.global ≡ false }
{
    Arg::new(alloc, id).required(true)
}

/// A last place that any number of words take.
fn last_place<'a>(alloc: Global, id: &'a str) -> Arg<'a>
    ensures rule { rule_of result ≡ last_place id.entry.now }
    ensures local { result.global ≡ false }
{
    Arg::new(alloc, id).num_args(0..)
}

/// An option with a value, which may be given once.
fn option<'a>(alloc: Global, name: &'a str) -> Arg<'a>
    ensures rule { rule_of result ≡ option name.entry.now }
    ensures local { result.global ≡ false }
{
    Arg::new(alloc, name).long(name)
}

/// The command `rvc VERB TOP [PORTS ..]` with its options, and no flag for help or for a version.
fn command<'a>(alloc: Global) -> Result<Command<'a>, AllocError>
    ensures { IfOk result (λ command. app_of command ≡ rvc) }
{
    let bare = Command::new(alloc, "rvc")
        .disable_help_flag(true)
        .disable_version_flag(true);
    let with_verb = bare.arg(place(alloc, "VERB"))?;
    let with_top = with_verb.arg(place(alloc, "TOP"))?;
    let with_places = with_top.arg(last_place(alloc, "PORTS"))?;
    let with_trace = with_places.arg(option(alloc, "trace"))?;
    let with_workers = with_trace.arg(option(alloc, "workers"))?;
    let with_round = with_workers.arg(option(alloc, "round"))?;
    let with_burst = with_round.arg(option(alloc, "burst"))?;
    let with_budget = with_burst.arg(option(alloc, "budget"))?;
    with_budget.arg(option(alloc, "grow"))
}

/// The matches of the words.
///
/// # Errors
///
/// `Usage(Words)` if the command finds fault with the words; `Memory` if memory runs out.
pub fn matches<'a>(alloc: Global, words: &'a [String]) -> Result<ArgMatches<'a>, WordFault>
    ensures accepted { IfOk result (λ _. refuses (texts words.now) ≡ false) }
    ensures matched { IfOk result (λ m. rows_of (found_of m) ≡ matches (texts words.now)) }
    ensures usage { (cause : Cause) → result ≡ Err (Usage cause) → cause ≡ Words }
    ensures refused { (cause : Cause) → result ≡ Err (Usage cause)
        → refuses (texts words.now) ≡ true }
{
    match command(alloc)?.try_get_matches_from(words) {
        Ok(matches) => Ok(matches),
        Err(error) => {
            if error.kind() == ErrorKind::OutOfMemory {
                Err(WordFault::Memory)
            } else {
                Err(WordFault::Usage(UsageCause::Words))
            }
        }
    }
}
