//! Fractions in lowest terms.

ghost use Rattle.std.specs.Prelude.{◌<◌};
ghost use Rattle.balanced_rates.specs.Fraction.{IsLowest};

/// A fraction of whole numbers.
#[derive(Clone, Copy)]
pub(crate) struct Fraction {
    pub(crate) over: u64,
    pub(crate) under: u64,
}

/// `over` to `under` in lowest terms, by Euclid's algorithm.
pub(crate) fn lowest_terms(over: u64, under: u64) -> Fraction
    requires over { 0 < over }
    requires under { 0 < under }
    ensures { IsLowest over under result.over result.under }
{
    let whole = over / under;
    let rest = over % under;
    if rest == 0 {
        return Fraction {
            over: whole,
            under: 1,
        };
    }
    let inner = lowest_terms(under, rest);
    Fraction {
        over: whole * inner.over + inner.under,
        under: inner.over,
    }
}
