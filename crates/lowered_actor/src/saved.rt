//! What is asked of saved cells: that they are different ones, and that their types have sizes.

ghost use Rattle.std.specs.Prelude.{IsTrue, All};
ghost use Rattle.rvc_base.specs.Storing.{IsSize};
ghost use Rattle.lowered_actor.specs.Facts.{AreApart};

use crate::parts::StateCell;
use crate::straight::is_saved;
use rvc_base::{MAX_SIZE, Scalar};

/// Whether no two of these cells are one.
pub(crate) fn are_apart(saved: &[StateCell]) -> bool
    ensures { IsTrue result → AreApart saved.now }
{
    let mut left = saved;
    'cells: while let Some((one, others)) = left.split_first() {
        if is_saved(others, one.cell) {
            return false;
        }
        left = others;
    }
    true
}

/// Whether the type of each of these cells has a size.
pub(crate) fn have_sizes(saved: &[StateCell]) -> bool
    ensures { IsTrue result → All (λ one. IsSize one.kind) saved.now }
{
    for &one in saved {
        if !has_size(one.kind) {
            return false;
        }
    }
    true
}

/// Whether a type has a size: from 1 to [`MAX_SIZE`] bits if it is one of numbers.
fn has_size(t: Scalar) -> bool
    ensures { IsTrue result → IsSize t }
{
    match t {
        Scalar::Bool => true,
        Scalar::Int(size) => 1 <= size && size <= MAX_SIZE,
        Scalar::Uint(size) => 1 <= size && size <= MAX_SIZE,
    }
}
