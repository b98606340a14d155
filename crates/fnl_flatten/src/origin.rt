//! Where the chain of connections that leads to a joint begins.

ghost use Rattle.std.specs.Prelude.{◌≡◌, [], MatchOption};
ghost use Rattle.fnl_tree.specs.View.{tree_of};
ghost use Rattle.fnl_flatten.specs.Arrows.{entries_of};
ghost use Rattle.fnl_flatten.specs.Origins.{HasNoOrigin, IsOrigin};
ghost use Rattle.fnl_flatten.specs.Rules.{violations};
ghost use Rattle.fnl_flatten.specs.View.{heads_of};
ghost use Rattle.fnl_flatten.specs.Whole.{IsWhole};

use crate::head::Head;
use crate::joint::Joint;
use crate::link_ends::writing_end;
use crate::writers::{Writer, Writers};
use fnl_tree::Tree;

/// The writing end from which a chain of connections leads to a joint, and the largest size that one of them asks for.
pub(crate) fn origin(tree: &Tree, heads: &[Head], writers: &Writers, joint: Joint) -> Option<Writer>
    requires whole { IsWhole (tree_of tree.now) (heads_of heads.now) }
    requires fine { violations (tree_of tree.now) (heads_of heads.now) ≡ [] }
    requires entered { writers.now ≡ entries_of (tree_of tree.now) (heads_of heads.now) }
    ensures { MatchOption result (HasNoOrigin (tree_of tree.now) (heads_of heads.now) joint)
        (IsOrigin (tree_of tree.now) (heads_of heads.now) joint) }
{
    let mut current = joint;
    let mut size = 0u32;
    'walk: while let Some(writer) = writers.get(current) {
        size = writer.size.max(size);
        current = writer.joint;
        if writing_end(current).is_some() {
            return Some(Writer {
                joint: current,
                size,
            });
        }
    }
    None
}
