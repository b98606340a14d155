//! Leaves split into parts, as links join them one by one.

ghost use Rattle.std.specs.Prelude.{◌≡◌, ◌*◌, ◌<◌, ◌≤◌, ◌≢◌, ◌↔◌, ℕ, false, List, [], ◌∷◌, ◌++◌, length, IsTrue, if◌then◌else◌, nat_eq};
ghost use Rattle.balanced_rates.specs.declared.link.RatedLink.{RatedLink};
ghost use Rattle.balanced_rates.specs.Balance.{IsAmong, total};
ghost use Rattle.balanced_rates.specs.Split.{at, growth, grown, IsSplit, After, MatchOutcome};

use crate::fraction::lowest_terms;
use crate::link::RatedLink;

/// What is known of links once one more was looked at.
#[derive(Clone, Copy)]
pub(crate) enum Outcome {
    /// The firings balance them, and are no more than a period may have.
    Balanced,
    /// No vector balances them.
    Contrary,
    /// The least vector that balances them has more firings than a period may have.
    Long,
}

/// By how much the firings of two parts grow if a link joins them.
#[derive(Clone, Copy)]
pub(crate) struct Growth {
    pub(crate) first: usize,
    pub(crate) second: usize,
    pub(crate) first_by: u64,
    pub(crate) second_by: u64,
}

/// Whether there are no more firings in all than a period may have.
fn is_within(firings: &[u32], longest: u32) -> bool
    ensures { IsTrue result ↔ (total (at firings.now) (length firings.now) ≤ longest) }
{
    let mut sum: u64 = 0;
    for k in 0..firings.len() {
        sum += u64::from(firings[k]);
        if sum > u64::from(longest) {
            return false;
        }
    }
    true
}

/// By how much the firings of a part grow.
fn growth_of(joined: Growth, part: usize) -> u64
    ensures { result ≡ growth joined.first joined.second joined.first_by joined.second_by part }
{
    if part == joined.first {
        joined.first_by
    } else if part == joined.second {
        joined.second_by
    } else {
        1
    }
}

/// Lets the firings of two parts grow, if there are no more in all then than a period may have.
fn grow(firings: &mut [u32], parts: &[usize], joined: Growth, longest: u32) -> bool
    requires { length parts.now ≡ length firings.old }
    ensures within { IsTrue result → total (at firings.new) (length firings.old) ≤ longest }
    ensures grown { IsTrue result → (k : ℕ) → k < length firings.old → at firings.new k
        ≡ grown joined.first joined.second joined.first_by joined.second_by (at parts.now)
        (at firings.old) k }
    ensures beyond { result ≡ false → longest < total
        (grown joined.first joined.second joined.first_by joined.second_by (at parts.now) (at firings.old))
        (length firings.old) }
{
    let mut sum: u128 = 0;
    for k in 0..firings.len() {
        let more = u128::from(firings[k]) * u128::from(growth_of(joined, parts[k]));
        sum += more;
        if sum > u128::from(longest) {
            return false;
        }
        firings[k] = more as u32;
    }
    true
}

/// Gives the leaves of the second part the number of the first.
fn unite(parts: &mut [usize], first: usize, second: usize)
    ensures { (k : ℕ) → k < length parts.old → at parts.new k
        ≡ (if nat_eq (at parts.old k) second then first else at parts.old k) }
{
    for k in 0..parts.len() {
        if parts[k] == second {
            parts[k] = first;
        }
    }
}

/// How many tokens a leaf gives or needs at this rate over all its firings.
fn tokens(rate: u32, firings: &[u32], leaf: u32) -> u64
    requires { leaf < length firings.now }
    ensures { result ≡ rate * at firings.now leaf }
{
    u64::from(rate) * u64::from(firings[leaf as usize])
}

/// Whether a link joins two parts.
fn joins(parts: &[usize], link: &RatedLink, given: u64, needed: u64) -> bool
    requires { IsAmong (length parts.now) link.now }
    ensures { IsTrue result ↔ ((0 < given) × (0 < needed)
        × (at parts.now link.now.writer ≢ at parts.now link.now.reader)) }
{
    given != 0 && needed != 0 && parts[link.writer as usize] != parts[link.reader as usize]
}

/// Looks at a link more that joins two parts.
fn join(
    firings: &mut [u32],
    parts: &mut [usize],
    link: &RatedLink,
    over: u64,
    under: u64,
    longest: u32,
) -> Outcome
    requires size { length parts.old ≡ length firings.old }
    requires among { IsAmong (length firings.old) link.now }
    requires over { over ≡ link.now.give * at firings.old link.now.writer }
    requires under { under ≡ link.now.need * at firings.old link.now.reader }
    requires gives { 0 < over }
    requires needs { 0 < under }
    requires apart { at parts.old link.now.writer ≢ at parts.old link.now.reader }
    ensures { (links : List RatedLink)
        → IsSplit (length firings.old) links (at parts.old) (at firings.old)
        → After (length firings.old) longest (links ++ link.now ∷ []) (at parts.new) (at firings.new)
        result }
{
    let first = parts[link.writer as usize];
    let second = parts[link.reader as usize];
    let ratio = lowest_terms(over, under);
    let joined = Growth {
        first,
        second,
        first_by: ratio.under,
        second_by: ratio.over,
    };
    if !grow(firings, parts, joined, longest) {
        return Outcome::Long;
    }
    unite(parts, first, second);
    Outcome::Balanced
}

/// Looks at a link more that joins no two parts.
fn compare(firings: &[u32], given: u64, needed: u64, longest: u32) -> Outcome
    ensures { MatchOutcome result given needed (total (at firings.now) (length firings.now)) longest }
{
    if given != needed {
        Outcome::Contrary
    } else if is_within(firings, longest) {
        Outcome::Balanced
    } else {
        Outcome::Long
    }
}

/// Looks at a link more.
pub(crate) fn look_at(
    firings: &mut [u32],
    parts: &mut [usize],
    link: &RatedLink,
    longest: u32,
) -> Outcome
    requires size { length parts.old ≡ length firings.old }
    requires among { IsAmong (length firings.old) link.now }
    ensures { (links : List RatedLink)
        → IsSplit (length firings.old) links (at parts.old) (at firings.old)
        → After (length firings.old) longest (links ++ link.now ∷ []) (at parts.new) (at firings.new)
        result }
{
    let given = tokens(link.give, firings, link.writer);
    let needed = tokens(link.need, firings, link.reader);
    if joins(parts, link, given, needed) {
        return join(firings, parts, link, given, needed, longest);
    }
    compare(firings, given, needed, longest)
}
