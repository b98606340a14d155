//! The limits of all links together.

ghost use Rattle.std.specs.Prelude.{◌≡◌, ◌≤◌, length, MatchOption};
ghost use Rattle.net_model.specs.Limits.{max_links};
ghost use Rattle.fnl_flatten.specs.Flattened as flattened;
ghost use Rattle.fnl_flatten.specs.Flattened.{IsWithin, PassesLimit};
ghost use Rattle.fnl_flatten.specs.Links as spec;

use net_model::Link;
use rvc_base::{Place, Refusal, Rule};

/// The most links.
const MAX_LINKS: usize = 4096;

/// The most tokens of capacity in all.
const MAX_CAPACITY: u64 = 16_777_216;

/// The sum of the capacities.
fn capacities(links: &[Link]) -> u64
    requires { length links.now ≤ max_links }
    ensures { result ≡ spec.capacities links.now }
{
    let mut sum = 0u64;
    let mut rest = links;
    'links: while let Some((link, others)) = rest.split_first() {
        sum += u64::from(link.capacity);
        rest = others;
    }
    sum
}

/// A rule that is broken at the start of a file.
fn at_start(rule: Rule, file: u32) -> Refusal
    ensures { result ≡ flattened.at_start rule file }
{
    let place = Place { file, offset: 0 };
    Refusal { rule, place }
}

/// The limit that these links pass, if they do. The file is the top network's.
pub(crate) fn limit_passed(links: &[Link], file: u32) -> Option<Refusal>
    ensures { MatchOption result (IsWithin links.now) (PassesLimit links.now file) }
{
    if links.len() > MAX_LINKS {
        return Some(at_start(Rule::TOO_MANY_LINKS, file));
    }
    if capacities(links) > MAX_CAPACITY {
        return Some(at_start(Rule::TOO_MUCH_CAPACITY, file));
    }
    None
}
