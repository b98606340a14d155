//! The turns of a period, one after another.

ghost use Rattle.std.specs.Prelude.{◌≡◌, ◌≢◌, ◌<◌, ◌≤◌, ◌^◌, ℕ, [], All, IfOk, MatchOption, length, map, slice_index_or, vec_items};
ghost use Rattle.balanced_rates.specs.Balance.{IsAmong};
ghost use Rattle.balanced_rates.specs.Split.{at};
ghost use Rattle.period_order.specs.Board.{AreTouching, IsPlayed};
ghost use Rattle.period_order.specs.Turns.{MayFire};

use crate::turn::fire;
use balanced_rates::RatedLink;
use std::alloc::{AllocError, Global};

/// The least leaf that has turns left and lacks no tokens.
fn least_ready(left: &[u32], unmet: &[usize]) -> Option<usize>
    requires { length unmet.now ≡ length left.now }
    ensures { MatchOption result
        ((leaf : ℕ) → leaf < length left.now → 0 < at left.now leaf → at unmet.now leaf ≢ 0)
        (λ leaf. (leaf < length left.now) × (0 < at left.now leaf) × (at unmet.now leaf ≡ 0)
        × ((other : ℕ) → other < leaf → 0 < at left.now other → at unmet.now other ≢ 0)) }
{
    for leaf in 0..left.len() {
        if left[leaf] > 0 && unmet[leaf] == 0 {
            return Some(leaf);
        }
    }
    None
}

/// The least leaf that has turns left.
pub(crate) fn first_left(left: &[u32]) -> Option<usize>
    ensures { MatchOption result
        ((leaf : ℕ) → leaf < length left.now → at left.now leaf ≡ 0)
        (λ leaf. (leaf < length left.now) × (0 < at left.now leaf)
        × ((other : ℕ) → other < leaf → at left.now other ≡ 0)) }
{
    for leaf in 0..left.len() {
        if left[leaf] > 0 {
            return Some(leaf);
        }
    }
    None
}

/// The links of a leaf.
fn row_of(rows: &[Vec<usize>], leaf: usize) -> &[usize]
    requires { leaf < length rows.now }
    ensures { result.now ≡ slice_index_or (map vec_items rows.now) leaf [] }
{
    &rows[leaf]
}

/// Lets the least leaf that may fire take its turn until there is none.
pub(crate) fn play(
    alloc: Global,
    links: &[RatedLink],
    rows: &[Vec<usize>],
    left: &mut [u32],
    unmet: &mut [usize],
    tokens: &mut [u64],
    peaks: &mut [u64],
) -> Result<Vec<u32>, AllocError>
    requires leaves { length left.old ≤ 2 ^ 32 }
    requires small { (leaf : ℕ) → leaf < length left.old → at left.old leaf ≤ 4294967295 }
    requires among { All (IsAmong (length left.old)) links.now }
    requires sizes { (length unmet.old ≡ length left.old) × (length rows.now ≡ length left.old)
        × (length tokens.old ≡ length links.now) × (length peaks.old ≡ length links.now) }
    requires rows { AreTouching (length left.old) links.now (map vec_items rows.now) }
    requires played { IsPlayed (length left.old) links.now (at left.old) [] (at left.old) (at unmet.old)
        (at tokens.old) (at peaks.old) }
    ensures played { IfOk result (λ order. IsPlayed (length left.old) links.now (at left.old) order.items
        (at left.new) (at unmet.new) (at tokens.new) (at peaks.new)) }
    ensures ended { IfOk result (λ order. (leaf : ℕ)
        → ¬ MayFire (length left.old) links.now (at left.old) order.items leaf) }
{
    let mut order = Vec::new(alloc);
    while let Some(leaf) = least_ready(left, unmet) {
        order.push(leaf as u32)?;
        left[leaf] -= 1;
        fire(links, row_of(rows, leaf), leaf, unmet, tokens, peaks);
    }
    Ok(order)
}
