//! The line of an order.

ghost use Rattle.std.specs.Prelude.{◌≡◌, ◌<◌, ◌*◌, ℕ, ◌↔◌, length, slice_index_or, false, IfOk, IsTrue, MatchOption};
ghost use Rattle.rvc_base.specs.Line.{MayStand, IsNext, IsLine};
ghost use Rattle.priority_order.specs.Ranking.{Above, IsStrict};

use crate::table::place;
use std::alloc::{AllocError, Global};

/// The line of the numbers below `n`, of which the table says which is above which.
pub(crate) fn arrange(alloc: Global, table: &[bool], n: u16) -> Result<Vec<u16>, AllocError>
    requires { IsStrict n table.now }
    ensures { IfOk result (λ line. IsLine n (Above n table.now) line.items) }
{
    let mut stands = vec![in alloc; false; usize::from(n)]?;
    let mut line = Vec::new(alloc);
    while let Some(next) = least_next(table, n, &stands) {
        line.push(next)?;
        stands[usize::from(next)] = true;
    }
    Ok(line)
}

/// The least number that may stand next.
fn least_next(table: &[bool], n: u16, stands: &[bool]) -> Option<u16>
    requires size { length table.now ≡ n * n }
    requires numbers { length stands.now ≡ n }
    ensures { MatchOption result
        ((b : ℕ) → ¬ MayStand n (Above n table.now) (λ a. IsTrue (slice_index_or stands.now a false)) b)
        (IsNext n (Above n table.now) (λ a. IsTrue (slice_index_or stands.now a false))) }
{
    for number in 0..n {
        if may_stand(table, n, stands, number) {
            return Some(number);
        }
    }
    None
}

/// Whether a number may stand next: it doesn't stand yet, and all that are above it do.
fn may_stand(table: &[bool], n: u16, stands: &[bool], number: u16) -> bool
    requires size { length table.now ≡ n * n }
    requires numbers { length stands.now ≡ n }
    requires in_range { number < n }
    ensures { IsTrue result ↔ MayStand n (Above n table.now)
        (λ a. IsTrue (slice_index_or stands.now a false)) number }
{
    if stands[usize::from(number)] {
        return false;
    }
    for other in 0..n {
        if table[place(n, other, number)] && !stands[usize::from(other)] {
            return false;
        }
    }
    true
}
