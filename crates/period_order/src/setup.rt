//! What is made before the first turn.

ghost use Rattle.std.specs.Prelude.{◌≡◌, ◌<◌, ℕ, All, IfOk, length, map, vec_items};
ghost use Rattle.balanced_rates.specs.Balance.{IsAmong};
ghost use Rattle.balanced_rates.specs.Split.{at};
ghost use Rattle.period_order.specs.Board.{lacks, lacking, IsTouching, AreTouching};

use balanced_rates::RatedLink;
use std::alloc::{AllocError, Global};

/// On how many links each leaf lacks tokens at first.
pub(crate) fn unmet_at_first(
    alloc: Global,
    leaves: usize,
    links: &[RatedLink],
) -> Result<Vec<usize>, AllocError>
    requires { All (IsAmong leaves) links.now }
    ensures size { IfOk result (λ unmet. length unmet.items ≡ leaves) }
    ensures each { IfOk result (λ unmet. (leaf : ℕ) → leaf < leaves
        → at unmet.items leaf ≡ lacking links.now (λ _. 0) leaf) }
{
    let mut unmet = vec![in alloc; 0; leaves]?;
    count_lacks(&mut unmet, links);
    Ok(unmet)
}

/// Counts for each leaf on how many links it lacks tokens while none has any.
fn count_lacks(unmet: &mut [usize], links: &[RatedLink])
    requires among { All (IsAmong (length unmet.old)) links.now }
    requires none { (leaf : ℕ) → leaf < length unmet.old → at unmet.old leaf ≡ 0 }
    ensures { (leaf : ℕ) → leaf < length unmet.old → at unmet.new leaf ≡ lacking links.now (λ _. 0) leaf }
{
    for l in 0..links.len() {
        let reader = links[l].reader as usize;
        let lack = lack_at_first(&links[l]);
        unmet[reader] += lack;
    }
}

/// 1 if the reader of a link lacks tokens while none lies on it, else 0.
fn lack_at_first(link: &RatedLink) -> usize
    ensures { result ≡ lacks link.now 0 link.now.reader }
{
    if link.need > 0 { 1 } else { 0 }
}

/// The links that begin or end at a leaf.
fn touching(alloc: Global, links: &[RatedLink], leaf: usize) -> Result<Vec<usize>, AllocError>
    ensures { IfOk result (λ row. IsTouching links.now leaf row.items) }
{
    let mut row = Vec::new(alloc);
    for l in 0..links.len() {
        if links[l].writer as usize == leaf || links[l].reader as usize == leaf {
            row.push(l)?;
        }
    }
    Ok(row)
}

/// The links that begin or end at each leaf.
pub(crate) fn rows_of(
    alloc: Global,
    leaves: usize,
    links: &[RatedLink],
) -> Result<Vec<Vec<usize>>, AllocError>
    ensures size { IfOk result (λ rows. length rows.items ≡ leaves) }
    ensures each { IfOk result (λ rows. AreTouching leaves links.now (map vec_items rows.items)) }
{
    let mut rows = Vec::new(alloc);
    for leaf in 0..leaves {
        let row = touching(alloc, links, leaf)?;
        rows.push(row)?;
    }
    Ok(rows)
}
