//! The repetition vector.

ghost use Rattle.std.specs.Prelude.{◌≡◌, ◌<◌, ◌↔◌, ℕ, [], All, length, IfOk, IfErr, IsTrue, MatchOption};
ghost use Rattle.balanced_rates.specs.Balance.{IsAmong, IsLeast, IsFirstFault, IsMultipleFrom, Balances};
ghost use Rattle.balanced_rates.specs.Fault.{IsCause};
ghost use Rattle.balanced_rates.specs.Split.{at, IsSplit};

use crate::link::RatedLink;
use crate::split::{Outcome, look_at};
use std::alloc::{AllocError, Global};

/// Why links have no repetition vector that a period may have.
#[derive(Debug, Drop)]
pub enum BalanceFault {
    /// No vector balances the links up to this one, which is the first such link; none before it is too long.
    Unbalanced { link: usize },
    /// The least vector that balances the links up to one of them has more firings than a period may have.
    TooLong,
    /// An allocation was refused.
    Memory,
}

impl From<AllocError> for BalanceFault {
    ghost use Rattle.std.specs.Prelude.{◌≡◌};
    ghost use Rattle.balanced_rates.specs.declared.vector.BalanceFault.TheVariants.{Memory};

    ghost from_gives = { λ _ fault. fault ≡ Memory };

    fn from(_refused: AllocError) -> BalanceFault {
        BalanceFault::Memory
    }
}

/// Whether the ends of each link are among the first `leaves` leaves.
pub fn are_among(links: &[RatedLink], leaves: usize) -> bool
    ensures { IsTrue result ↔ All (IsAmong leaves) links.now }
{
    for link in links {
        if link.writer as usize >= leaves || link.reader as usize >= leaves {
            return false;
        }
    }
    true
}

/// How often each of `leaves` leaves fires in one period: the least vector that balances each link. A period has
/// at most `longest` firings.
///
/// Each vector that balances the links is a multiple of it in all leaves that they join (`multiples`). Without
/// links each leaf fires once.
///
/// # Errors
///
/// The first link is sought up to which no vector balances all links, or the least that does has more than
/// `longest` firings. `Unbalanced` names it in the first case, `TooLong` comes in the second; if there is no such
/// link, neither comes (`faultless`). `Memory` if memory runs out.
pub fn repetition(
    alloc: Global,
    leaves: usize,
    links: &[RatedLink],
    longest: u32,
) -> Result<Vec<u32>, BalanceFault>
    requires { All (IsAmong leaves) links.now }
    ensures size { IfOk result (λ firings. length firings.items ≡ leaves) }
    ensures least { IfOk result (λ firings. IsLeast leaves links.now (at firings.items)) }
    ensures multiples { IfOk result (λ firings. (others : ℕ → ℕ) → Balances leaves links.now others
        → (leaf : ℕ) → leaf < leaves → IsMultipleFrom links.now (at firings.items) others leaf) }
    ensures faultless { IfOk result (λ _. (l : ℕ) → ¬ IsFirstFault leaves longest links.now l) }
    ensures cause { IfErr result (IsCause leaves longest links.now) }
{
    let mut firings = vec![in alloc; 1; leaves]?;
    let mut parts = numbers_below(alloc, leaves)?;
    match balance(&mut firings, &mut parts, links, longest) {
        None => Ok(firings),
        Some(fault) => Err(fault),
    }
}

/// Balances the links one by one.
fn balance(
    firings: &mut [u32],
    parts: &mut [usize],
    links: &[RatedLink],
    longest: u32,
) -> Option<BalanceFault>
    requires size { length parts.old ≡ length firings.old }
    requires among { All (IsAmong (length firings.old)) links.now }
    requires split { IsSplit (length firings.old) [] (at parts.old) (at firings.old) }
    ensures { MatchOption result
        (IsSplit (length firings.old) links.now (at parts.new) (at firings.new)
        × ((l : ℕ) → ¬ IsFirstFault (length firings.old) longest links.now l))
        (IsCause (length firings.old) longest links.now) }
{
    for l in 0..links.len() {
        match look_at(firings, parts, &links[l], longest) {
            Outcome::Balanced => {}
            Outcome::Contrary => return Some(BalanceFault::Unbalanced { link: l }),
            Outcome::Long => return Some(BalanceFault::TooLong),
        }
    }
    None
}

/// The numbers below `n`.
fn numbers_below(alloc: Global, n: usize) -> Result<Vec<usize>, AllocError>
    ensures size { IfOk result (λ numbers. length numbers.items ≡ n) }
    ensures each { IfOk result (λ numbers. (k : ℕ) → k < n → at numbers.items k ≡ k) }
{
    let mut numbers = vec![in alloc; 0; n]?;
    for k in 0..n {
        numbers[k] = k;
    }
    Ok(numbers)
}
