//! Leaves that give the same values.

ghost use Rattle.std.specs.Prelude.{◌≡◌, map};
ghost use Rattle.fnl_tree.specs.View.{binding_of};
ghost use Rattle.check_leaves.specs.Equal.{give_same, gives_same};

use crate::values::is_equal;
use fnl_tree::LeafValue;

/// Whether both give one parameter an equal value.
fn gives_same(given: &LeafValue, other: &LeafValue) -> bool
    ensures { result ≡ gives_same (binding_of given.now) (binding_of other.now) }
{
    given.name == other.name && is_equal(&given.value, &other.value)
}

/// Whether both give the same parameters equal values, in one order. Where the values are given doesn't matter.
pub fn give_same(given: &[LeafValue], others: &[LeafValue]) -> bool
    ensures { result ≡ give_same (map binding_of given.now) (map binding_of others.now) }
{
    let mut rest = given;
    let mut left = others;
    'values: while let Some((first, more)) = rest.split_first() {
        let Some((that, many)) = left.split_first() else {
            return false;
        };
        if !gives_same(first, that) {
            return false;
        }
        rest = more;
        left = many;
    }
    left.is_empty()
}
