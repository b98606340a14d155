//! Which ports the port words name.

ghost use Rattle.std.specs.Prelude.{◌≡◌, ◌<◌, ◌+◌, ◌++◌, IfErr, OnOk, length, map};
ghost use Rattle.rvc_words.specs.Words.{port_text};
ghost use Rattle.cmd_ports.specs.Matching.{AreMatched, IsWrongWord, is_named, is_port, names_of};

use net_model::Port;
use rvc_base::{Place, Refusal, Rule};
use rvc_words::PortWord;

/// Whether each word names a port of its own, among the inputs and outputs that a verb opens.
///
/// # Errors
///
/// P1 or P2 for the first word that names no port, or a port that a word before it names. Its place is its number among
/// the words, on the command line.
pub fn match_words(words: &[PortWord], ins: &[Port], outs: &[Port]) -> Result<(), Refusal>
    requires few { length ins.now + length outs.now < 4294967296 }
    ensures matched { OnOk result (AreMatched (names_of ins.now ++ names_of outs.now)
        (map port_text words.now)) }
    ensures wrong { IfErr result (IsWrongWord (names_of ins.now ++ names_of outs.now)
        (map port_text words.now)) }
{
    for (number, word) in words.iter().enumerate() {
        if !is_port(word.name.as_str(), ins, outs) {
            return Err(wrong(Rule::UNKNOWN_PORT, number as u32));
        }
        if is_named(word.name.as_str(), &words[..number]) {
            return Err(wrong(Rule::PORT_TWICE, number as u32));
        }
    }
    Ok(())
}

/// Whether an input or an output has this name.
fn is_port(name: &str, ins: &[Port], outs: &[Port]) -> bool
    ensures { result ≡ is_port name.now (names_of ins.now ++ names_of outs.now) }
{
    is_among(name, ins) || is_among(name, outs)
}

/// Whether one of these ports has this name.
fn is_among(name: &str, ports: &[Port]) -> bool
    ensures { result ≡ is_port name.now (names_of ports.now) }
{
    ports
        .iter()
        .any(|port| port.name.as_bytes() == name.as_bytes())
}

/// Whether one of these words names a port of this name.
fn is_named(name: &str, words: &[PortWord]) -> bool
    ensures { result ≡ is_named name.now (map port_text words.now) }
{
    words
        .iter()
        .any(|word| word.name.as_bytes() == name.as_bytes())
}

/// The refusal of a port word, by its number among them.
fn wrong(rule: Rule, number: u32) -> Refusal
    ensures { result ≡ record { rule = rule; place = record { file = 0; offset = number } } }
{
    Refusal {
        rule,
        place: Place {
            file: 0,
            offset: number,
        },
    }
}
