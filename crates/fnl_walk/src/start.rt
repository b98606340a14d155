//! The walk from the top.

ghost use Rattle.std.specs.Prelude.{◌≡◌, [], IfErr, IfOk, is_some, true};
ghost use Rattle.fnl_bind.specs.Answers.{IsBound, IsRefused};
ghost use Rattle.fnl_bind.specs.Library.{network_of};
ghost use Rattle.fnl_tree.specs.Sound.{IsSound};
ghost use Rattle.fnl_tree.specs.View.{tree_of};
ghost use Rattle.fnl_walk.specs.View.{walk_view};
ghost use Rattle.fnl_bind.specs.View.{networks};

use crate::open::{Standing, open_net};
use crate::step::step;
use crate::walk::Walk;
use fnl_bind::{NetSet, bound_trees_are_sound};
use fnl_tree::Tree;
use rvc_base::{Front, Place};
use std::alloc::Global;

/// The command line.
const WORDS: Place = Place { file: 0, offset: 0 };

/// A walk with nothing open.
fn nothing_open<'a>(alloc: Global) -> Walk<'a>
    ensures { walk_view result
        ≡ record { open_nets = []; above = []; grown = record { nets = []; leaves = [] } } }
{
    Walk {
        alloc,
        open_nets: Vec::new(alloc),
        above: Vec::new(alloc),
        nets: Vec::new(alloc),
        leaves: Vec::new(alloc),
    }
}

/// The tree that the networks of a set make from the one of a class down (ISO/IEC 23001-4, FNL): networks with their
/// values as they stand in each other, depth first, and the actors at its leaves with the values of their parameters.
/// An instance whose class isn't in the set is an actor. The tree is one that can be flattened (`sound`).
///
/// [`NetSet::has`] tests the condition.
///
/// # Errors
///
/// `Refused` with a rule that the networks break and its place (`refused`), which comes if they break any (`bound`): N3
/// if a network stands in itself, Z7 if there are more than 1,024 instances, S5 if a network's name isn't the last
/// component of its class, S1, N8 and Z3 if names or ports break a rule of scope, N2 if a parameter is given wrongly or
/// is missed, N9 if a size isn't allowed, and T1, T2, T3, T5, T6, T7, T8, T9 and Z4 as they say of types and values.
/// `Memory` if memory runs out.
pub fn bind(alloc: Global, nets: &NetSet, top: &str) -> Result<Tree, Front>
    requires { is_some (network_of top.now (networks nets.now)) ≡ true }
    ensures bound { IfOk result (IsBound (networks nets.now) top.now) }
    ensures sound { IfOk result (λ tree. IsSound (tree_of tree)) }
    ensures refused { IfErr result (IsRefused (networks nets.now) top.now) }
{
    bound_trees_are_sound();
    let Some(entry) = nets.get(top) else {
        unreachable!()
    };
    let mut walk = nothing_open(alloc);
    let at = Standing {
        source: entry,
        class: top,
        path: "",
        given: &[],
        owner: WORDS,
        levels: nets.len(),
    };
    open_net(&mut walk, at)?;
    'steps: while step(nets, &mut walk)? {}
    Ok(Tree {
        nets: walk.nets,
        leaves: walk.leaves,
    })
}
