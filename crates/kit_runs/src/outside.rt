//! Feeds and channels in memory, for networks.

ghost use Rattle.std.specs.Prelude.{◌≡◌, ◌+◌, ◌≤◌, ◌∷◌, [], IfOk, IfSome, OnOk};
ghost use Rattle.rvc_io.specs.MemFeeds.{inputs_of};
ghost use Rattle.rvc_io.specs.MemDrains.{channels_of};
ghost use Rattle.round_runner.specs.Running.{count_inputs};
ghost use Rattle.kit_runs.specs.Outside.{AreChannelsOpen, AreFeedsOpen, AreOpenTo};

use net_model::{End, Link, Wiring};
use rvc_base::Memory;
use rvc_io::{Drains, Failed, Feeds, MemDrains, MemFeeds, names_are_distinct};
use std::alloc::Global;

/// The most links at inputs, and the most outputs.
const MAX_PORTS: u32 = 1024;

/// How many links begin at an input with this one, unless there are too many.
fn with_link(count: u32, link: &Link) -> Option<u32>
    requires few { count ≤ 1024 }
    ensures count { IfSome result (λ n. count + count_inputs (link.now ∷ []) ≡ n) }
    ensures still_few { IfSome result (λ n. n ≤ 1024) }
{
    match link.from {
        End::Leaf { inst: _, port: _ } => Some(count),
        End::Net { port: _ } => {
            if count >= MAX_PORTS {
                None
            } else {
                Some(count + 1)
            }
        }
    }
}

/// How many of these links begin at an input, unless there are too many.
pub fn count_inputs(links: &[Link]) -> Option<u32>
    ensures count { IfSome result (λ n. n ≡ count_inputs links.now) }
    ensures few { IfSome result (λ n. n ≤ 1024) }
{
    let mut count = 0;
    let mut rest = links;
    'links: while let Some((first, others)) = rest.split_first() {
        let Some(more) = with_link(count, first) else {
            return None;
        };
        count = more;
        rest = others;
    }
    Some(count)
}

/// Opens so many feeds from 1 on, each on the same bytes.
fn open_feeds<F: Feeds>(feeds: &mut F, count: u32) -> Result<(), Failed>
    requires closed { AreOpenTo 0 (F.feeds feeds.old).is_open }
    requires few { count ≤ 1024 }
    ensures { OnOk result (AreOpenTo count (F.feeds feeds.new).is_open) }
{
    for k in 0..count {
        feeds.open(k + 1, "in")?;
    }
    Ok(())
}

/// So many feeds from 1 on, which are open on these bytes, or none if an opening fails.
fn feeds_from_one(
    alloc: Global,
    count: u32,
    input: &[u8],
    failing: &[u64],
    step: u32,
) -> Result<Option<MemFeeds>, Memory>
    requires few { count ≤ 1024 }
    ensures { IfOk result (λ found. IfSome found (λ feeds. AreOpenTo count
        (inputs_of feeds).is_open)) }
{
    let mut files = Vec::new(alloc);
    files.push((
        String::from_str(alloc, "in")?,
        Vec::from_slice(alloc, input)?,
    ))?;
    if step == 0 || !names_are_distinct(&files) {
        return Ok(None);
    }
    let failing = Vec::from_slice(alloc, failing)?;
    let mut feeds = MemFeeds::new(alloc, files, failing, step, count + 1)?;
    let Ok(()) = open_feeds(&mut feeds, count) else {
        return Ok(None);
    };
    Ok(Some(feeds))
}

/// The feeds of a network, each of which gives these bytes, or none if it has more than 1,024 links at inputs or an
/// opening fails. A call moves at most `step` bytes, and `failing` lists the calls that are to fail; the first ones are
/// the openings, as many as there are links at inputs.
///
/// # Errors
///
/// `Memory` if memory runs out.
pub fn feeds_of(
    alloc: Global,
    wiring: &Wiring,
    input: &[u8],
    failing: &[u64],
    step: u32,
) -> Result<Option<MemFeeds>, Memory>
    ensures { IfOk result (λ found. IfSome found (λ feeds. AreFeedsOpen wiring.now
        (inputs_of feeds))) }
{
    let Some(count) = count_inputs(&wiring.links) else {
        return Ok(None);
    };
    feeds_from_one(alloc, count, input, failing, step)
}

/// Opens so many channels from 1 on.
fn open_channels<D: Drains>(drains: &mut D, count: u32) -> Result<(), Failed>
    requires closed { AreOpenTo 0 (D.channels drains.old).is_open }
    requires few { count ≤ 1025 }
    ensures { OnOk result (AreOpenTo count (D.channels drains.new).is_open) }
{
    for k in 0..count {
        drains.open(k + 1, "out")?;
    }
    Ok(())
}

/// So many channels from 1 on, which are open, or none if an opening fails.
fn channels_from_one(
    alloc: Global,
    count: u32,
    failing: &[u64],
    step: u32,
    room: u32,
) -> Result<Option<MemDrains>, Memory>
    requires few { count ≤ 1025 }
    ensures { IfOk result (λ found. IfSome found (λ drains. AreOpenTo count
        (channels_of drains).is_open)) }
{
    if step == 0 {
        return Ok(None);
    }
    let failing = Vec::from_slice(alloc, failing)?;
    let mut drains = MemDrains::new(alloc, failing, step, count + 1, room)?;
    let Ok(()) = open_channels(&mut drains, count) else {
        return Ok(None);
    };
    Ok(Some(drains))
}

/// The channels of a network, of which each holds at most `room` bytes, or none if it has more than 1,024 outputs or an
/// opening fails. A call moves at most `step` bytes, and `failing` lists the calls that are to fail; the first ones are
/// the openings, one for the trace and one for each output.
///
/// # Errors
///
/// `Memory` if memory runs out.
pub fn drains_of(
    alloc: Global,
    wiring: &Wiring,
    failing: &[u64],
    step: u32,
    room: u32,
) -> Result<Option<MemDrains>, Memory>
    ensures { IfOk result (λ found. IfSome found (λ drains. AreChannelsOpen wiring.now
        (channels_of drains))) }
{
    let outs = wiring.open_outs.len();
    if outs > MAX_PORTS as usize {
        return Ok(None);
    }
    channels_from_one(alloc, outs as u32 + 1, failing, step, room)
}
