//! The forms of the words.

ghost use Rattle.std.specs.Prelude.{◌≡◌};
ghost use Rattle.rvc_base.specs.declared.round_kind.RoundKind.TheVariants.{All};
ghost use Rattle.rvc_words.specs.Forms.{given_or, is_actor_or_network, is_port, is_source, is_top, lacks_trace, needs_trace, round_of, verb_of};
ghost use Rattle.rvc_words.specs.Given.{word_of};

use crate::job::{MAX_GENERATED, Verb};
use crate::names::{cut, is_file};
use crate::numbers::read_number;
use rvc_base::RoundKind;

/// The greatest start of the policy `seed:N`.
const MAX_SEED: u64 = 18_446_744_073_709_551_615;

/// The verb of a word.
#[tactic(auto, unfolding(crate::specs::Forms::verb_of))]
pub fn verb_of(word: &str) -> Option<Verb>
    ensures { result ≡ verb_of word.now }
{
    match word {
        "run" => Some(Verb::Run),
        "check" => Some(Verb::Check),
        "certify" => Some(Verb::Certify),
        "replay" => Some(Verb::Replay),
        "fmt" => Some(Verb::Fmt),
        "gen" => Some(Verb::Gen),
        _ => None,
    }
}

/// Whether a word is the name of a source.
fn is_source(word: &str) -> bool
    ensures { result ≡ is_source word.now }
{
    is_file(word, "cal")
}

/// Whether a word is the name of a source or of a network.
fn is_actor_or_network(word: &str) -> bool
    ensures { result ≡ is_actor_or_network word.now }
{
    is_source(word) || is_file(word, "xdf")
}

/// Whether a word is the top of a verb.
pub fn is_top(verb: Verb, word: &str) -> bool
    ensures { result ≡ is_top verb word.now }
{
    match verb {
        Verb::Fmt => is_source(word),
        Verb::Gen => read_number(word, 1, MAX_GENERATED).is_some(),
        Verb::Run | Verb::Check | Verb::Certify | Verb::Replay => is_actor_or_network(word),
    }
}

/// The policy of a word.
#[tactic(auto, unfolding(crate::specs::Forms::round_of))]
fn round_of(word: &str) -> Option<RoundKind>
    ensures { result ≡ round_of word.now }
{
    if word == "all" {
        return Some(RoundKind::All);
    }
    if word == "turn" {
        return Some(RoundKind::Turn);
    }
    let parts = cut(word, ':');
    if parts.front != "seed" {
        return None;
    }
    read_number(parts.rest, 0, MAX_SEED).map(|start| RoundKind::Seed(start))
}

/// The policy of the option, or all instances if it isn't given.
pub fn round_or_all(word: Option<&str>) -> Option<RoundKind>
    ensures { result ≡ given_or All round_of (word_of word.entry) }
{
    match word {
        Some(word) => round_of(word),
        None => Some(RoundKind::All),
    }
}

/// Whether a word is `NAME=FILE`.
#[tactic(auto, unfolding(crate::specs::Forms::is_port))]
pub fn is_port(word: &str) -> bool
    ensures { result ≡ is_port word.now }
{
    let parts = cut(word, '=');
    !parts.front.is_empty() && !parts.rest.is_empty()
}

/// Whether a verb needs a trace, and none is named.
pub fn lacks_trace(verb: Verb, trace: &str) -> bool
    ensures { result ≡ lacks_trace verb trace.now }
{
    needs_trace(verb) && trace.is_empty()
}

/// Whether a verb writes or reads a trace.
fn needs_trace(verb: Verb) -> bool
    ensures { result ≡ needs_trace verb }
{
    match verb {
        Verb::Run | Verb::Replay | Verb::Gen => true,
        Verb::Check | Verb::Certify | Verb::Fmt => false,
    }
}
