//! Feeds in memory for a trace and for a network with few inputs.

ghost use Rattle.std.specs.Prelude.{IfOk, IfSome};
ghost use Rattle.rvc_io.specs.MemFeeds.{inputs_of};
ghost use Rattle.test_replay.specs.Open.{AreFirstOpen, AreOpenFor};

use kit_runs::count_inputs;
use net_model::Wiring;
use rvc_base::Memory;
use rvc_io::{Feeds, MemFeeds, names_are_distinct};
use std::alloc::Global;

/// The most links at inputs.
const MAX_INPUTS: u32 = 2;

/// Feed 0, which is open on a trace, and feeds 1 and 2, which are open on an input.
fn first_feeds(
    alloc: Global,
    trace: &[u8],
    input: &[u8],
    failing: &[u64],
) -> Result<Option<MemFeeds>, Memory>
    ensures { IfOk result (λ found. IfSome found (λ feeds. AreFirstOpen (inputs_of feeds))) }
{
    let mut files = Vec::new(alloc);
    files.push((
        String::from_str(alloc, "trace")?,
        Vec::from_slice(alloc, trace)?,
    ))?;
    files.push((
        String::from_str(alloc, "in")?,
        Vec::from_slice(alloc, input)?,
    ))?;
    if !names_are_distinct(&files) {
        return Ok(None);
    }
    let failing = Vec::from_slice(alloc, failing)?;
    let mut feeds = MemFeeds::new(alloc, files, failing, 65_536, 3)?;
    let Ok(()) = feeds.open(0, "trace") else {
        return Ok(None);
    };
    let Ok(()) = feeds.open(1, "in") else {
        return Ok(None);
    };
    let Ok(()) = feeds.open(2, "in") else {
        return Ok(None);
    };
    Ok(Some(feeds))
}

/// The feeds of a trace and of a network whose inputs have these bytes, or none if it has more than two input links or
/// an opening fails. `failing` lists the calls that are to fail; the first three are the openings.
///
/// # Errors
///
/// `Memory` if memory runs out.
pub fn replay_feeds(
    alloc: Global,
    wiring: &Wiring,
    trace: &[u8],
    input: &[u8],
    failing: &[u64],
) -> Result<Option<MemFeeds>, Memory>
    ensures { IfOk result (λ found. IfSome found (λ feeds. AreOpenFor wiring.now
        (inputs_of feeds))) }
{
    let Some(count) = count_inputs(&wiring.links) else {
        return Ok(None);
    };
    if count > MAX_INPUTS {
        return Ok(None);
    }
    first_feeds(alloc, trace, input, failing)
}
