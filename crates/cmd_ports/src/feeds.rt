//! The feeds of a network's inputs are opened.

ghost use Rattle.std.specs.Prelude.{◌≡◌, ◌≤◌, ◌<◌, ◌+◌, ℕ, false, List, ◌∷◌, IfErr, IfOk, OnErr, OnOk, length, map, option_map, slice_get};
ghost use Rattle.rvc_io.specs.Feeds.{Inputs};
ghost use Rattle.rvc_io.specs.Past.{Done};
ghost use Rattle.rvc_words.specs.Words.{port_text};
ghost use Rattle.net_model.specs.declared.wiring.Link.{Link as LinkOf};
ghost use Rattle.cmd_ports.specs.Matching.{names_of};
ghost use Rattle.cmd_ports.specs.Opening.{AreNoted, FeedFails, FeedsAreOpened, HoldsBefore, Opening, feeds_from, feeds_of, file_at, opening_if, replay_feeds};
ghost use Rattle.cmd_ports.specs.Steps.{FeedsSoFar, IsNoted, IsUnopenedFeed, NotedSoFar};

use crate::naming::file_of;
use net_model::{End, Link, Port};
use rvc_io::{Failed, Feeds};
use rvc_words::PortWord;

/// The feed of a trace that is to be replayed.
const TRACE_FEED: u32 = 0;

/// The feed of the first input link.
pub const FIRST_INPUT_FEED: u32 = 1;

/// Opens a feed for each of these links that begins at an input of the network which has a file, in the order of the
/// links. They are numbered from 1, and those of inputs without a file are left out. Each is opened under the name of its
/// file (`noted`).
///
/// # Errors
///
/// The number of the first feed that couldn't be opened. The failure is counted, those before it are open, and no other
/// (`noted_before`).
pub fn open_feeds<F: Feeds>(
    words: &[PortWord],
    links: &[Link],
    ins: &[Port],
    feeds: &mut F,
) -> Result<(), u32>
    requires closed { (n : ℕ) → 1 ≤ n → n ≤ length links.now
        → (F.feeds feeds.old).is_open n ≡ false }
    requires few { length links.now < 4294967295 }
    ensures opened { OnOk result (FeedsAreOpened
        (feeds_of links.now (names_of ins.now) (map port_text words.now)) (F.feeds feeds.old)
        (F.feeds feeds.new)) }
    ensures failed { IfErr result (λ feed. FeedFails
        (feeds_of links.now (names_of ins.now) (map port_text words.now)) feed (F.feeds feeds.old)
        (F.feeds feeds.new)) }

    // Under which names.
    ensures noted { OnOk result (AreNoted
        (feeds_of links.now (names_of ins.now) (map port_text words.now)) (F.past feeds.old)
        (F.past feeds.new)) }
    ensures noted_before { IfErr result (λ feed. HoldsBefore
        (feeds_of links.now (names_of ins.now) (map port_text words.now)) feed
        (λ made. AreNoted made (F.past feeds.old) (F.past feeds.new))) }
{
    open_inputs(words, links, ins, feeds)
}

/// Opens the feed of a trace that is to be replayed, which has the number 0, and then those of input links, as [`open_feeds`]
/// does.
///
/// # Errors
///
/// The number of the first feed that couldn't be opened. The failure is counted, those before it are open, and no other
/// (`noted_before`).
pub fn open_replay_feeds<F: Feeds>(
    trace: &str,
    words: &[PortWord],
    links: &[Link],
    ins: &[Port],
    feeds: &mut F,
) -> Result<(), u32>
    requires closed { (n : ℕ) → n ≤ length links.now → (F.feeds feeds.old).is_open n ≡ false }
    requires few { length links.now < 4294967295 }
    ensures opened { OnOk result (FeedsAreOpened
        (replay_feeds trace.now links.now (names_of ins.now) (map port_text words.now))
        (F.feeds feeds.old) (F.feeds feeds.new)) }
    ensures failed { IfErr result (λ feed. FeedFails
        (replay_feeds trace.now links.now (names_of ins.now) (map port_text words.now)) feed
        (F.feeds feeds.old) (F.feeds feeds.new)) }

    // Under which names.
    ensures noted { OnOk result (AreNoted
        (replay_feeds trace.now links.now (names_of ins.now) (map port_text words.now))
        (F.past feeds.old) (F.past feeds.new)) }
    ensures noted_before { IfErr result (λ feed. HoldsBefore
        (replay_feeds trace.now links.now (names_of ins.now) (map port_text words.now)) feed
        (λ made. AreNoted made (F.past feeds.old) (F.past feeds.new))) }
{
    match open_named(TRACE_FEED, Some(trace), feeds) {
        Ok(()) => open_inputs(words, links, ins, feeds),
        Err(Failed) => Err(TRACE_FEED),
    }
}

/// Opens the feeds of input links behind those that are open.
fn open_inputs<F: Feeds>(
    words: &[PortWord],
    links: &[Link],
    ins: &[Port],
    feeds: &mut F,
) -> Result<(), u32>
    requires closed { (n : ℕ) → 1 ≤ n → n ≤ length links.now
        → (F.feeds feeds.old).is_open n ≡ false }
    requires few { length links.now < 4294967295 }
    ensures opened { OnOk result ((all : List Opening) (start : Inputs)
        → FeedsSoFar all (feeds_of links.now (names_of ins.now) (map port_text words.now)) 1 start
        (F.feeds feeds.old)
        → FeedsAreOpened all start (F.feeds feeds.new)) }
    ensures failed { IfErr result (λ feed. (all : List Opening) (start : Inputs)
        → FeedsSoFar all (feeds_of links.now (names_of ins.now) (map port_text words.now)) 1 start
        (F.feeds feeds.old)
        → FeedFails all feed start (F.feeds feeds.new)) }
    ensures noted { OnOk result ((all : List Opening) (past : List Done)
        → NotedSoFar all (feeds_of links.now (names_of ins.now) (map port_text words.now)) past
        (F.past feeds.old)
        → AreNoted all past (F.past feeds.new)) }
    ensures noted_before { IfErr result (λ feed. (all : List Opening) (past : List Done)
        → NotedSoFar all (feeds_of links.now (names_of ins.now) (map port_text words.now)) past
        (F.past feeds.old)
        → HoldsBefore all feed (λ made. AreNoted made past (F.past feeds.new))) }
{
    let mut number = FIRST_INPUT_FEED;
    let mut rest = links;
    'links: while let Some((link, others)) = rest.split_first() {
        match open_from(number, words, link, ins, feeds) {
            Ok(next) => number = next,
            Err(feed) => return Err(feed),
        }
        rest = others;
    }
    Ok(())
}

/// Opens the feed of a link, if it begins at an input that has a file. It has this number if it begins at an input, and
/// then the next input link has the next one.
fn open_from<F: Feeds>(
    number: u32,
    words: &[PortWord],
    link: &Link,
    ins: &[Port],
    feeds: &mut F,
) -> Result<u32, u32>
    requires closed { (F.feeds feeds.old).is_open number ≡ false }
    requires small { number < 4294967295 }
    ensures next { IfOk result (λ next. (number ≤ next) × (next ≤ number + 1)) }
    ensures opened { IfOk result (λ next. (all : List Opening) (links : List LinkOf) (start : Inputs)
        → FeedsSoFar all
        (feeds_from number (link.now ∷ links) (names_of ins.now) (map port_text words.now)) number
        start (F.feeds feeds.old)
        → FeedsSoFar all (feeds_from next links (names_of ins.now) (map port_text words.now)) next
        start (F.feeds feeds.new)) }
    ensures failed { IfErr result (λ feed. (all : List Opening) (links : List LinkOf) (start : Inputs)
        → FeedsSoFar all
        (feeds_from number (link.now ∷ links) (names_of ins.now) (map port_text words.now)) number
        start (F.feeds feeds.old)
        → FeedFails all feed start (F.feeds feeds.new)) }
    ensures noted { IfOk result (λ next. (all : List Opening) (links : List LinkOf)
        (past : List Done) → NotedSoFar all
        (feeds_from number (link.now ∷ links) (names_of ins.now) (map port_text words.now)) past
        (F.past feeds.old)
        → NotedSoFar all (feeds_from next links (names_of ins.now) (map port_text words.now)) past
        (F.past feeds.new)) }
    ensures noted_before { IfErr result (λ feed. (all : List Opening) (links : List LinkOf)
        (past : List Done) → NotedSoFar all
        (feeds_from number (link.now ∷ links) (names_of ins.now) (map port_text words.now)) past
        (F.past feeds.old)
        → HoldsBefore all feed (λ made. AreNoted made past (F.past feeds.new))) }
    ensures later { IfOk result (λ next. (n : ℕ) → next ≤ n
        → (F.feeds feeds.new).is_open n ≡ (F.feeds feeds.old).is_open n) }
{
    match link.from {
        End::Leaf { inst: _, port: _ } => Ok(number),
        End::Net { port } => {
            match open_named(number, file_at(words, ins, port), feeds) {
                Ok(()) => Ok(number + 1),
                Err(Failed) => Err(number),
            }
        }
    }
}

/// The file of the input at a place.
fn file_at<'a>(words: &'a [PortWord], ins: &[Port], port: u32) -> Option<&'a str>
    ensures { option_map (λ file. file.now) result
        ≡ file_at (slice_get (names_of ins.now) port) (map port_text words.now) }
{
    match ins.get(port as usize) {
        Some(input) => file_of(words, input.name.as_str()),
        None => None,
    }
}

/// Opens the feed of this number, if there is a file.
fn open_named<F: Feeds>(number: u32, file: Option<&str>, feeds: &mut F) -> Result<(), Failed>
    requires { (F.feeds feeds.old).is_open number ≡ false }
    ensures opened { OnOk result (FeedsAreOpened
        (opening_if number (option_map (λ f. f.now) file.entry)) (F.feeds feeds.old)
        (F.feeds feeds.new)) }
    ensures failed { OnErr result (IsUnopenedFeed number (option_map (λ f. f.now) file.entry)
        (F.feeds feeds.old) (F.feeds feeds.new)) }
    ensures noted { OnOk result (IsNoted number (option_map (λ f. f.now) file.entry)
        (F.past feeds.old) (F.past feeds.new)) }
    ensures unnoted { OnErr result (F.past feeds.new ≡ F.past feeds.old) }
    ensures later { (n : ℕ) → number < n
        → (F.feeds feeds.new).is_open n ≡ (F.feeds feeds.old).is_open n }
{
    match file {
        Some(name) => feeds.open(number, name),
        None => Ok(()),
    }
}
