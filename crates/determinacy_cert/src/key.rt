//! What a name of a guard stands for: the tokens of a pattern variable, or the name itself.

ghost use Rattle.std.specs.Prelude.{◌≡◌};
ghost use Rattle.std.specs.Str.{bytes_eq};
ghost use Rattle.determinacy_cert.specs.Viewing.{are_same_names, first_places, key_of};

use crate::found::{Named, named_in};
use cal_model::BoundPattern;

/// Whether both names stand for the same tokens, or for no tokens and are equal.
pub(crate) fn same_names(
    name: &str,
    patterns: &[BoundPattern],
    other: &str,
    others: &[BoundPattern],
) -> bool
    ensures { result ≡ are_same_names name.now patterns.now other.now others.now }
{
    let one = named_in(name, patterns);
    let two = named_in(other, others);
    match one {
        None => match two {
            None => name == other,
            Some(_) => false,
        },
        Some(one) => match two {
            None => false,
            Some(two) => same_tokens(one, two),
        },
    }
}

/// Whether both names stand for the same tokens of the same port.
fn same_tokens(one: Named<'_>, two: Named<'_>) -> bool
    ensures { result ≡ bytes_eq (key_of one.entry) (key_of two.entry) }
{
    if one.pattern.port != two.pattern.port {
        return false;
    }
    match one.pattern.repeat {
        None => match two.pattern.repeat {
            None => one.place == two.place,
            Some(_) => false,
        },
        Some(count) => match two.pattern.repeat {
            None => false,
            Some(other) => count == other && same_places(count, one, two),
        },
    }
}

/// Whether so many places are the same: the first ones, and the steps from each to the next.
fn same_places(count: u32, one: Named<'_>, two: Named<'_>) -> bool
    ensures { result ≡ bytes_eq (first_places count one.entry) (first_places count two.entry) }
{
    if count == 0 {
        return true;
    }
    if one.place != two.place {
        return false;
    }
    count == 1 || one.pattern.names.len() == two.pattern.names.len()
}
