//! The capacities of links that grew to the limit.

ghost use Rattle.std.specs.Prelude.{◌≡◌, ◌<◌, ◌≤◌, MatchBool, MatchResult};
ghost use Rattle.fnl_flatten.specs.Links.{max_capacity};
ghost use Rattle.cmd_run_network.specs.Growth.{GrowTooFar, IsGrownTooMuch, grown_capacities, grown_capacity};

use net_model::{End, Link};
use rvc_base::{Place, Refusal, Rule};

/// The most tokens of capacity in all.
const MAX_CAPACITY: u32 = 16_777_216;

/// The refusal of links that may grow to hold too much, at the command line.
const GROWN_TOO_MUCH: Refusal = Refusal {
    rule: Rule::GROWN_TOO_MUCH,
    place: Place { file: 0, offset: 0 },
};

/// Whether links that may grow so far at stalls hold too much then.
///
/// # Errors
///
/// Z12, at the command line, if any may grow (`grow` isn't 0) and the capacities, each inner link's raised to `grow`, add to
/// more than 16,777,216 tokens.
pub fn fits_grown(links: &[Link], grow: u32) -> Result<(), Refusal>
    ensures { MatchResult result (λ done. GrowTooFar links.now grow → ⊥)
        (λ r. IsGrownTooMuch r × GrowTooFar links.now grow) }
{
    if grow > 0 && passes_limit(links, grow) {
        return Err(GROWN_TOO_MUCH);
    }
    Ok(())
}

/// Whether the capacities of links that grew so far add to more than the limit.
fn passes_limit(links: &[Link], grow: u32) -> bool
    ensures { MatchBool result (max_capacity < grown_capacities grow links.now)
        (grown_capacities grow links.now ≤ max_capacity) }
{
    let mut left = MAX_CAPACITY;
    let mut rest = links;
    'links: while let Some((link, others)) = rest.split_first() {
        let held = grown_capacity(link, grow);
        if held > left {
            return true;
        }
        left -= held;
        rest = others;
    }
    false
}

/// How much a link can hold that grew so far.
fn grown_capacity(link: &Link, grow: u32) -> u32
    ensures { result ≡ grown_capacity grow link.now }
{
    match (link.from, link.to) {
        (End::Leaf { inst: _, port: _ }, End::Leaf { inst: _, port: _ }) => link.capacity.max(grow),
        _ => link.capacity,
    }
}
