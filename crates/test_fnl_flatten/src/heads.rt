//! Actors whose ports are told apart and within their limit.

ghost use Rattle.std.specs.Prelude.{◌≡◌};
ghost use Rattle.fnl_flatten.specs.View.{head_of, heads_of};
ghost use Rattle.test_fnl_flatten.specs.Tested.{are_heads_fine, is_head_fine};

use crate::nets::MAX_PORTS;
use crate::told::ports_told;
use fnl_flatten::Head;

/// Whether this holds of an actor.
fn is_head_fine(head: &Head) -> bool
    ensures { result ≡ is_head_fine (head_of head.now) }
{
    head.ins.len() <= MAX_PORTS
        && head.outs.len() <= MAX_PORTS
        && ports_told(&head.ins)
        && ports_told(&head.outs)
}

/// Whether it holds of each actor.
pub(crate) fn are_heads_fine(heads: &[Head]) -> bool
    ensures { result ≡ are_heads_fine (heads_of heads.now) }
{
    let mut rest = heads;
    'heads: while let Some((first, others)) = rest.split_first() {
        if !is_head_fine(first) {
            return false;
        }
        rest = others;
    }
    true
}
