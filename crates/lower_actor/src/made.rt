//! Which functions, or which procedures, have routines.

ghost use Rattle.std.specs.Prelude.{◌≡◌, ◌<◌, IfOk, false, length, slice_set, true};
ghost use Rattle.lower_actor.specs.Calls.{AllMade, LacksOne, is_made, none_made};

use std::alloc::{AllocError, Global};

/// None of so many has one.
pub(crate) fn none_made(alloc: Global, count: usize) -> Result<Vec<bool>, AllocError>
    ensures { IfOk result (λ made. made.items ≡ none_made count) }
{
    vec![in alloc; false; count]
}

/// Whether the one of a number has one.
pub(crate) fn is_made(made: &[bool], k: usize) -> bool
    ensures { result ≡ is_made made.now k }
{
    match made.get(k) {
        Some(made) => *made,
        None => false,
    }
}

/// Whether all of these numbers have one.
pub(crate) fn all_made(made: &[bool], numbers: &[usize]) -> bool
    ensures yes { result ≡ true → AllMade made.now numbers.now }
    ensures no { result ≡ false → LacksOne made.now numbers.now }
{
    for place in 0..numbers.len() {
        if !is_made(made, numbers[place]) {
            return false;
        }
    }
    true
}

/// The one of a number has one now.
pub(crate) fn mark(made: &mut Vec<bool>, k: usize)
    requires { k < length made.old.items }
    ensures { made.new.items ≡ slice_set made.old.items k true }
{
    made[k] = true;
}
