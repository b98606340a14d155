//! The table of what is above what: a row for the number above, a column for the number below.

ghost use Rattle.std.specs.Prelude.{◌≡◌, ◌<◌, ◌+◌, ◌*◌, ◌⊎◌, ℕ, ◌↔◌, length, Contains, IfOk, IsTrue, MatchOption};
ghost use Rattle.priority_order.specs.Ranking.{cell};
ghost use Rattle.priority_order.specs.Closed.{IsInRange, IsClosed};

use std::alloc::{AllocError, Global};

/// The place of a row and a column in a table with so many columns.
pub(crate) fn place(columns: u16, row: u16, column: u16) -> usize
    ensures { result ≡ row * columns + column }
{
    usize::from(row) * usize::from(columns) + usize::from(column)
}

/// The table of the declared pairs alone.
fn declared(alloc: Global, pairs: &[(u16, u16)], n: u16) -> Result<Vec<bool>, AllocError>
    requires { IsInRange pairs.now n }
    ensures size { IfOk result (λ table. length table.items ≡ n * n) }
    ensures pairs { IfOk result (λ table. (a b : ℕ) → a < n → b < n
        → IsTrue (cell n table.items a b) ↔ Contains pairs.now (a, b)) }
{
    let mut table = vec![in alloc; false; usize::from(n) * usize::from(n)]?;
    for (above, below) in pairs {
        let at = place(n, *above, *below);
        table[at] = true;
    }
    Ok(table)
}

/// Puts above all that `through` is above whatever `row` stands for.
fn widen_row(table: &mut [bool], n: u16, row: u16, through: u16)
    requires size { length table.old ≡ n * n }
    requires row_in_range { row < n }
    requires through_in_range { through < n }
    ensures { (a b : ℕ) → a < n → b < n
        → IsTrue (cell n table.new a b)
        ↔ (IsTrue (cell n table.old a b) ⊎ ((a ≡ row) × IsTrue (cell n table.old through b))) }
{
    for column in 0..n {
        if table[place(n, through, column)] {
            let at = place(n, row, column);
            table[at] = true;
        }
    }
}

/// Adds the chains that pass `through`: what is above it is above all that it is above.
fn widen(table: &mut [bool], n: u16, through: u16)
    requires size { length table.old ≡ n * n }
    requires through_in_range { through < n }
    ensures { (a b : ℕ) → a < n → b < n
        → IsTrue (cell n table.new a b)
        ↔ (IsTrue (cell n table.old a b)
        ⊎ (IsTrue (cell n table.old a through) × IsTrue (cell n table.old through b))) }
{
    for row in 0..n {
        if table[place(n, row, through)] {
            widen_row(table, n, row, through);
        }
    }
}

/// The table that says exactly where a chain of declared pairs leads.
pub(crate) fn closed(alloc: Global, pairs: &[(u16, u16)], n: u16) -> Result<Vec<bool>, AllocError>
    requires { IsInRange pairs.now n }
    ensures { IfOk result (λ table. IsClosed pairs.now n table.items) }
{
    let mut table = declared(alloc, pairs, n)?;
    for through in 0..n {
        widen(&mut table, n, through);
    }
    Ok(table)
}

/// A number that is above itself.
pub(crate) fn above_itself(table: &[bool], n: u16) -> Option<u16>
    requires { length table.now ≡ n * n }
    ensures { MatchOption result
        ((a : ℕ) → a < n → ¬ IsTrue (cell n table.now a a))
        (λ a. (a < n) × IsTrue (cell n table.now a a)) }
{
    for number in 0..n {
        if table[place(n, number, number)] {
            return Some(number);
        }
    }
    None
}
