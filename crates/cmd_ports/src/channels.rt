//! The channels of a network's trace and outputs are opened.

ghost use Rattle.std.specs.Prelude.{◌≡◌, ◌≢◌, ◌≤◌, ◌<◌, ◌+◌, ℕ, false, List, ◌∷◌, IfErr, OnErr, OnOk, length, map, option_map, string_bytes};
ghost use Rattle.rvc_io.specs.Channels.{Channels};
ghost use Rattle.rvc_io.specs.Past.{Done};
ghost use Rattle.rvc_words.specs.Words.{port_text};
ghost use Rattle.cmd_ports.specs.Matching.{names_of};
ghost use Rattle.cmd_ports.specs.Opening.{AreNoted, ChannelFails, ChannelsAreOpened, HoldsBefore, Opening, channels_of, opening_if, outputs_from};
ghost use Rattle.cmd_ports.specs.Steps.{ChannelsSoFar, IsNoted, IsUnopenedChannel, NotedSoFar};

use crate::naming::file_of;
use net_model::Port;
use rvc_io::{Drains, Failed};
use rvc_words::PortWord;

/// The channel of the trace.
pub const TRACE_CHANNEL: u32 = 1;

/// The channel of the first output.
const FIRST_OUTPUT_CHANNEL: u32 = 2;

/// Opens the channel of the trace, and then one for each of the outputs that has a file, in their order. Those of outputs
/// are numbered from 2, and those of outputs without a file are left out. Each is opened under the name of its file
/// (`noted`).
///
/// # Errors
///
/// The number of the first channel that couldn't be opened. The failure is counted, those before it are open, and no other
/// (`noted_before`).
pub fn open_channels<D: Drains>(
    trace: &str,
    words: &[PortWord],
    outs: &[Port],
    drains: &mut D,
) -> Result<(), u32>
    requires closed { (n : ℕ) → n ≢ 0 → (D.channels drains.old).is_open n ≡ false }
    requires few { length outs.now < 4294967294 }
    ensures opened { OnOk result (ChannelsAreOpened
        (channels_of trace.now (names_of outs.now) (map port_text words.now))
        (D.channels drains.old) (D.channels drains.new)) }
    ensures failed { IfErr result (λ channel. ChannelFails
        (channels_of trace.now (names_of outs.now) (map port_text words.now)) channel
        (D.channels drains.old) (D.channels drains.new)) }

    // Under which names.
    ensures noted { OnOk result (AreNoted
        (channels_of trace.now (names_of outs.now) (map port_text words.now))
        (D.past drains.old) (D.past drains.new)) }
    ensures noted_before { IfErr result (λ channel. HoldsBefore
        (channels_of trace.now (names_of outs.now) (map port_text words.now)) channel
        (λ made. AreNoted made (D.past drains.old) (D.past drains.new))) }
{
    match open_named(TRACE_CHANNEL, Some(trace), drains) {
        Ok(()) => open_outputs(words, outs, drains),
        Err(Failed) => Err(TRACE_CHANNEL),
    }
}

/// Opens the channels of the outputs that have a file, in their order.
fn open_outputs<D: Drains>(words: &[PortWord], outs: &[Port], drains: &mut D) -> Result<(), u32>
    requires closed { (n : ℕ) → 2 ≤ n → (D.channels drains.old).is_open n ≡ false }
    requires few { length outs.now < 4294967294 }
    ensures opened { OnOk result ((all : List Opening) (start : Channels)
        → ChannelsSoFar all (outputs_from 2 (names_of outs.now) (map port_text words.now)) 2 start
        (D.channels drains.old)
        → ChannelsAreOpened all start (D.channels drains.new)) }
    ensures failed { IfErr result (λ channel. (all : List Opening) (start : Channels)
        → ChannelsSoFar all (outputs_from 2 (names_of outs.now) (map port_text words.now)) 2 start
        (D.channels drains.old)
        → ChannelFails all channel start (D.channels drains.new)) }
    ensures noted { OnOk result ((all : List Opening) (past : List Done)
        → NotedSoFar all (outputs_from 2 (names_of outs.now) (map port_text words.now)) past
        (D.past drains.old)
        → AreNoted all past (D.past drains.new)) }
    ensures noted_before { IfErr result (λ channel. (all : List Opening) (past : List Done)
        → NotedSoFar all (outputs_from 2 (names_of outs.now) (map port_text words.now)) past
        (D.past drains.old)
        → HoldsBefore all channel (λ made. AreNoted made past (D.past drains.new))) }
{
    let mut number = FIRST_OUTPUT_CHANNEL;
    let mut rest = outs;
    'outs: while let Some((port, others)) = rest.split_first() {
        if let Err(channel) = open_output(number, words, port, drains) {
            return Err(channel);
        }
        number += 1;
        rest = others;
    }
    Ok(())
}

/// Opens the channel of an output, which has this number, if the output has a file.
fn open_output<D: Drains>(
    number: u32,
    words: &[PortWord],
    port: &Port,
    drains: &mut D,
) -> Result<(), u32>
    requires closed { (D.channels drains.old).is_open number ≡ false }
    ensures opened { OnOk result ((all : List Opening) (names : List (List ℕ)) (start : Channels)
        → ChannelsSoFar all
        (outputs_from number (string_bytes port.now.name ∷ names) (map port_text words.now)) number
        start (D.channels drains.old)
        → ChannelsSoFar all (outputs_from (number + 1) names (map port_text words.now))
        (number + 1) start (D.channels drains.new)) }
    ensures failed { IfErr result (λ channel. (all : List Opening) (names : List (List ℕ))
        (start : Channels) → ChannelsSoFar all
        (outputs_from number (string_bytes port.now.name ∷ names) (map port_text words.now)) number
        start (D.channels drains.old)
        → ChannelFails all channel start (D.channels drains.new)) }
    ensures noted { OnOk result ((all : List Opening) (names : List (List ℕ)) (past : List Done)
        → NotedSoFar all
        (outputs_from number (string_bytes port.now.name ∷ names) (map port_text words.now)) past
        (D.past drains.old)
        → NotedSoFar all (outputs_from (number + 1) names (map port_text words.now)) past
        (D.past drains.new)) }
    ensures noted_before { IfErr result (λ channel. (all : List Opening) (names : List (List ℕ))
        (past : List Done) → NotedSoFar all
        (outputs_from number (string_bytes port.now.name ∷ names) (map port_text words.now)) past
        (D.past drains.old)
        → HoldsBefore all channel (λ made. AreNoted made past (D.past drains.new))) }
    ensures later { (n : ℕ) → number < n
        → (D.channels drains.new).is_open n ≡ (D.channels drains.old).is_open n }
{
    match open_named(number, file_of(words, port.name.as_str()), drains) {
        Ok(()) => Ok(()),
        Err(Failed) => Err(number),
    }
}

/// Opens the channel of this number, if there is a file.
fn open_named<D: Drains>(number: u32, file: Option<&str>, drains: &mut D) -> Result<(), Failed>
    requires { (D.channels drains.old).is_open number ≡ false }
    ensures opened { OnOk result (ChannelsAreOpened
        (opening_if number (option_map (λ f. f.now) file.entry)) (D.channels drains.old)
        (D.channels drains.new)) }
    ensures failed { OnErr result (IsUnopenedChannel number (option_map (λ f. f.now) file.entry)
        (D.channels drains.old) (D.channels drains.new)) }
    ensures noted { OnOk result (IsNoted number (option_map (λ f. f.now) file.entry)
        (D.past drains.old) (D.past drains.new)) }
    ensures unnoted { OnErr result (D.past drains.new ≡ D.past drains.old) }
    ensures later { (n : ℕ) → number < n
        → (D.channels drains.new).is_open n ≡ (D.channels drains.old).is_open n }
{
    match file {
        Some(name) => drains.open(number, name),
        None => Ok(()),
    }
}
