//! Generators of comprehensions as they are written.

ghost use Rattle.std.specs.Prelude.{◌≡◌, map, option_map};
ghost use Rattle.std.specs.Prelude.{None, Some};
ghost use Rattle.cal_ast.specs.View.{gen_tree};
ghost use Rattle.expr_lower.specs.CounterView.{counter_view, gens_of};
ghost use Rattle.lower_base.specs.Generators.{counted_by, how_many, made_by, makes_none, ranged_by, spanned};

use crate::bounds::bound_of;
use crate::types::single_meant;
use cal_ast::Gen;
use rvc_base::{Num, Scalar};

/// The variable of a generator, its type, and the numbers that it is: all from the first to the last.
#[derive(Clone, Copy)]
pub(crate) struct Counter<'a> {
    pub name: &'a str,
    pub kind: Scalar,
    pub low: Num,
    pub high: Num,
}

/// The numbers from the first to the last of a generator, which may be none, if its type and its bounds are written
/// out.
fn ranged_by<'a>(g: &'a Gen) -> Option<Counter<'a>>
    ensures { option_map counter_view result ≡ ranged_by (gen_tree g.entry.now) }
{
    let kind = single_meant(&g.shape)?;
    let low = bound_of(&g.from)?;
    let high = bound_of(&g.to)?;
    Some(Counter {
        name: g.name.text.as_str(),
        kind,
        low,
        high,
    })
}

/// What a generator counts, if its type and its bounds are written out and there is one number at least.
pub(crate) fn counted_by<'a>(g: &'a Gen) -> Option<Counter<'a>>
    ensures { option_map counter_view result ≡ counted_by (gen_tree g.entry.now) }
{
    let x = ranged_by(g)?;
    if x.high < x.low {
        return None;
    }
    Some(x)
}

/// Whether a generator counts no number, and those in front of it are written out: then no element is made.
pub(crate) fn makes_none(gens: &[Gen]) -> bool
    ensures { result ≡ makes_none (gens_of gens.now) }
{
    let Some((first, rest)) = gens.split_first() else {
        return false;
    };
    match ranged_by(first) {
        Some(x) => x.high < x.low || makes_none(rest),
        None => false,
    }
}

/// How many elements generators make, if 32 bits hold that: none if one of them counts no number.
pub(crate) fn made_by(gens: &[Gen]) -> Option<u32>
    ensures { result ≡ made_by (gens_of gens.now) }
{
    if makes_none(gens) {
        return Some(0);
    }
    how_many(gens)
}

/// How many elements generators make, if 32 bits hold that and each of them counts.
pub(crate) fn how_many(gens: &[Gen]) -> Option<u32>
    ensures { result ≡ how_many (gens_of gens.now) }
{
    let Some((first, rest)) = gens.split_first() else {
        return Some(1);
    };
    let x = counted_by(first)?;
    let span = spanned(x.low, x.high)?;
    let inside = how_many(rest)?;
    span.checked_mul(inside)
}

/// How many numbers there are from one to another, if 32 bits hold that.
fn spanned(low: Num, high: Num) -> Option<u32>
    ensures { result ≡ spanned low high }
{
    if high < low {
        return Some(0);
    }
    let behind = high.checked_sub(low)?;
    let behind = u32::try_from(behind).ok()?;
    behind.checked_add(1)
}
