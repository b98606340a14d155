//! A cycle of declared pairs, in which a number is above itself.

ghost use Rattle.std.specs.Prelude.{◌≡◌, ◌≢◌, ◌<◌, ℕ, length, slice_index, Contains, IfOk, AllPairs, MatchOption, nat_lt, take, drop, ◌++◌};
ghost use Rattle.std.specs.List.{IsFirstBest};
ghost use Rattle.rvc_base.specs.Chain.{IsAbove};
ghost use Rattle.priority_order.specs.Closed.{IsInRange, IsClosed};
ghost use Rattle.priority_order.specs.Cycle.{IsRing, IsCycle};

use crate::table::place;
use std::alloc::{AllocError, Global};

/// A cycle of declared pairs, the least number first. `start` is above itself.
pub(crate) fn cycle_from(
    alloc: Global,
    pairs: &[(u16, u16)],
    table: &[bool],
    n: u16,
    start: u16,
) -> Result<Vec<u16>, AllocError>
    requires in_range { IsInRange pairs.now n }
    requires closed { IsClosed pairs.now n table.now }
    requires start_in_range { start < n }
    requires on_cycle { IsAbove pairs.now start start }
    ensures { IfOk result (λ actions. IsCycle pairs.now actions.items) }
{
    let mut ring = ring_from(alloc, pairs, table, n, start)?;
    turn_least_first(&mut ring);
    Ok(ring)
}

/// A ring of distinct numbers: walks along pairs that lead back until it comes to a number again.
fn ring_from(
    alloc: Global,
    pairs: &[(u16, u16)],
    table: &[bool],
    n: u16,
    start: u16,
) -> Result<Vec<u16>, AllocError>
    requires in_range { IsInRange pairs.now n }
    requires closed { IsClosed pairs.now n table.now }
    requires start_in_range { start < n }
    requires on_cycle { IsAbove pairs.now start start }
    ensures ring { IfOk result (λ ring. IsRing pairs.now ring.items) }
    ensures distinct { IfOk result (λ ring. AllPairs (λ a b. a ≢ b) ring.items) }
{
    let mut walk = Vec::new(alloc);
    let mut current = start;
    loop {
        match place_of(&walk, current) {
            Some(first) => return Vec::from_slice(alloc, &walk[first..]),
            None => {
                walk.push(current)?;
                current = next_on_cycle(pairs, table, n, current);
            }
        }
    }
}

/// Where a number stands in a list.
fn place_of(numbers: &[u16], number: u16) -> Option<usize>
    ensures { MatchOption result
        ((k : ℕ) → k < length numbers.now → slice_index numbers.now k ≢ number)
        (λ k. (k < length numbers.now) × (slice_index numbers.now k ≡ number)) }
{
    numbers.iter().position(|x| *x == number)
}

/// A number that `current` is paired with, and from which a chain leads back to it.
fn next_on_cycle(pairs: &[(u16, u16)], table: &[bool], n: u16, current: u16) -> u16
    requires in_range { IsInRange pairs.now n }
    requires closed { IsClosed pairs.now n table.now }
    requires current_in_range { current < n }
    requires on_cycle { IsAbove pairs.now current current }
    ensures paired { Contains pairs.now (current, result) }
    ensures in_range { result < n }
    ensures on_cycle { IsAbove pairs.now result result }
{
    for (above, below) in pairs {
        if *above == current && table[place(n, *below, current)] {
            return *below;
        }
    }
    unreachable!()
}

/// Turns a ring so that its least number stands first.
fn turn_least_first(ring: &mut [u16])
    requires { 0 < length ring.old }
    ensures turned { (k : ℕ) × IsFirstBest nat_lt ring.old (length ring.old) k
        × (ring.new ≡ drop k ring.old ++ take k ring.old) }
{
    let least = place_of_least(ring);
    ring.rotate_left(least);
}

/// Where the least number stands first.
fn place_of_least(numbers: &[u16]) -> usize
    requires { 0 < length numbers.now }
    ensures { IsFirstBest nat_lt numbers.now (length numbers.now) result }
{
    let mut least = 0;
    for i in 1..numbers.len() {
        if numbers[i] < numbers[least] {
            least = i;
        }
    }
    least
}
