//! The period of leaves by their links.

ghost use Rattle.std.specs.Prelude.{◌≡◌, ◌<◌, ◌≤◌, ◌^◌, ℕ, All, IfOk, IfErr, length};
ghost use Rattle.balanced_rates.specs.Balance.{IsAmong};
ghost use Rattle.balanced_rates.specs.Split.{at};
ghost use Rattle.period_order.specs.Board.{link_at};
ghost use Rattle.period_order.specs.Fault.{IsCause};
ghost use Rattle.period_order.specs.Turns.{IsPeriod, IsLeastFirst, IsPeak};

use crate::board::{first_left, play};
use crate::setup::{rows_of, unmet_at_first};
use balanced_rates::RatedLink;
use std::alloc::{AllocError, Global};

/// The turns of one period, and how many tokens wait.
#[derive(Debug, Drop)]
pub struct Period {
    /// The leaves in the order of their turns.
    pub order: Vec<u32>,
    /// For each link the most tokens that lie on it.
    pub peaks: Vec<u64>,
}

/// Why there is no period.
#[derive(Debug, Drop)]
pub enum PeriodFault {
    /// No leaf may fire any more; this is the least that has turns left. No order of the turns is possible.
    Blocked { leaf: u32 },
    /// An allocation was refused.
    Memory,
}

impl From<AllocError> for PeriodFault {
    ghost use Rattle.std.specs.Prelude.{◌≡◌};
    ghost use Rattle.period_order.specs.declared.order.PeriodFault.TheVariants.{Memory};

    ghost from_gives = { λ _ fault. fault ≡ Memory };

    fn from(_refused: AllocError) -> PeriodFault {
        PeriodFault::Memory
    }
}

/// The order in which each leaf takes as many turns as `firings` says for it, at each turn the least leaf that has
/// turns left and finds its tokens. Nothing lies on the links at first, which lead from one of the leaves to one.
///
/// # Errors
///
/// `Blocked` if no order of these turns lets each leaf find its tokens, and only then. `Memory` if memory runs out.
pub fn find_period(
    alloc: Global,
    links: &[RatedLink],
    firings: &[u32],
) -> Result<Period, PeriodFault>
    requires leaves { length firings.now ≤ 2 ^ 32 }
    requires among { All (IsAmong (length firings.now)) links.now }
    ensures period { IfOk result (λ found. IsPeriod (length firings.now) links.now (at firings.now)
        found.order.items) }
    ensures least_first { IfOk result (λ found. IsLeastFirst (length firings.now) links.now (at firings.now)
        found.order.items) }
    ensures peaks_size { IfOk result (λ found. length found.peaks.items ≡ length links.now) }
    ensures peaks { IfOk result (λ found. (l : ℕ) → l < length links.now
        → IsPeak (link_at links.now l) found.order.items (at found.peaks.items l)) }
    ensures cause { IfErr result (IsCause (length firings.now) links.now (at firings.now)) }
{
    let leaves = firings.len();
    let rows = rows_of(alloc, leaves, links)?;
    let mut left = copy_of(alloc, firings)?;
    let mut unmet = unmet_at_first(alloc, leaves, links)?;
    let mut tokens = vec![in alloc; 0; links.len()]?;
    let mut peaks = vec![in alloc; 0; links.len()]?;
    let order = play(
        alloc,
        links,
        &rows,
        &mut left,
        &mut unmet,
        &mut tokens,
        &mut peaks,
    )?;
    match first_left(&left) {
        None => Ok(Period { order, peaks }),
        Some(leaf) => Err(PeriodFault::Blocked { leaf: leaf as u32 }),
    }
}

/// The same numbers.
fn copy_of(alloc: Global, numbers: &[u32]) -> Result<Vec<u32>, AllocError>
    ensures { IfOk result (λ copy. copy.items ≡ numbers.now) }
{
    let mut copy = Vec::new(alloc);
    for number in numbers {
        copy.push(*number)?;
    }
    Ok(copy)
}
