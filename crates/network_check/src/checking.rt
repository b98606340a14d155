//! From files to the network that they mean, step by step.
//!
//! The class of a network is bound to a tree, whose leaves are checked; the class of an actor is the one leaf of a tree.
//! Then the actors of the tree are joined.

ghost use Rattle.std.specs.Prelude.{◌≡◌, ◌∷◌, [], IfErr, IfOk, None, is_some, map, true};
ghost use Rattle.fnl_bind.specs.Library.{network_of};
ghost use Rattle.fnl_tree.specs.View.{leaf_of, tree_of};
ghost use Rattle.fnl_files.specs.Views.{files_in};
ghost use Rattle.fnl_source.specs.Lone.{lone_leaf};
ghost use Rattle.fnl_source.specs.Source.{IsNamed};
ghost use Rattle.network_check.specs.Checked.{HasSource};
ghost use Rattle.network_check.specs.Steps.{AreReady, IsBare, IsPeopled, IsWhy};

use crate::checked::Checked;
use crate::joining::{join, one_actor};
use crate::lone::{lone_leaf, lone_tree};
use cal_imports::resolve;
use check_leaves::{LeafActors, actors_are_leaves_of_a_network, check_leaves};
use fnl_files::NetworkFiles;
use fnl_source::{answers_are_the_source_network, one_network};
use fnl_tree::{Leaf, Tree};
use fnl_walk::bind;
use rvc_base::{Front, Memory};
use std::alloc::Global;

/// The network that files mean from a class down.
///
/// # Errors
///
/// `Refused`: the files break a rule. `Memory`: an allocation was refused (`refused`).
pub fn check_files(alloc: Global, files: &NetworkFiles, class: &str) -> Result<Checked, Front>
    requires { AreReady (files_in files.now) class.now }
    ensures checked { IfOk result (HasSource (files_in files.now) class.now) }
    ensures refused { IfErr result (IsWhy (files_in files.now) class.now) }
{
    if files.networks.has(class) {
        check_net(alloc, files, class)
    } else {
        check_actor(alloc, files, class)
    }
}

/// The network that files mean from the class of a network down.
///
/// # Errors
///
/// As [`check_files`] says.
pub fn check_net(alloc: Global, files: &NetworkFiles, class: &str) -> Result<Checked, Front>
    requires ready { AreReady (files_in files.now) class.now }
    requires net { is_some (network_of class.now (files_in files.now).networks) ≡ true }
    ensures checked { IfOk result (HasSource (files_in files.now) class.now) }
    ensures refused { IfErr result (IsWhy (files_in files.now) class.now) }
{
    answers_are_the_source_network();
    match bind(alloc, &files.networks, class) {
        Ok(tree) => check_tree(alloc, files, class, &tree),
        Err(front) => Err(front),
    }
}

/// The network that files mean from a class down whose network was bound to a tree.
///
/// # Errors
///
/// As [`check_files`] says.
pub fn check_tree(
    alloc: Global,
    files: &NetworkFiles,
    class: &str,
    tree: &Tree,
) -> Result<Checked, Front>
    requires { IsBare (files_in files.now) class.now (tree_of tree.now) }
    ensures checked { IfOk result (HasSource (files_in files.now) class.now) }
    ensures refused { IfErr result (IsWhy (files_in files.now) class.now) }
{
    match check_leaves(alloc, &files.sources, &tree.leaves) {
        Ok(found) => join_tree(alloc, files, class, tree, found),
        Err(front) => Err(front),
    }
}

/// The network that files mean from the class of an actor down: this actor alone.
///
/// # Errors
///
/// As [`check_files`] says.
pub fn check_actor(alloc: Global, files: &NetworkFiles, class: &str) -> Result<Checked, Front>
    requires ready { AreReady (files_in files.now) class.now }
    requires no_net { network_of class.now (files_in files.now).networks ≡ None }
    ensures checked { IfOk result (HasSource (files_in files.now) class.now) }
    ensures refused { IfErr result (IsWhy (files_in files.now) class.now) }
{
    match resolve(&files.sources, class) {
        Ok(scope) => check_lone(alloc, files, class, scope.actor.name.text.as_str()),
        Err(front) => Err(front),
    }
}

/// The leaves of an actor of this name alone.
///
/// # Errors
///
/// `Memory` if memory runs out.
pub fn lone_leaves(alloc: Global, name: &str, class: &str) -> Result<Vec<Leaf>, Memory>
    ensures { IfOk result (λ leaves. map leaf_of leaves.items ≡ lone_leaf name.now class.now ∷ []) }
{
    let mut leaves = Vec::new(alloc);
    leaves.push(lone_leaf(alloc, name, class)?)?;
    Ok(leaves)
}

/// The network that files mean from the class of an actor down that has this name.
///
/// # Errors
///
/// As [`check_files`] says.
pub fn check_lone(
    alloc: Global,
    files: &NetworkFiles,
    class: &str,
    name: &str,
) -> Result<Checked, Front>
    requires ready { AreReady (files_in files.now) class.now }
    requires no_net { network_of class.now (files_in files.now).networks ≡ None }
    requires named { IsNamed (files_in files.now) class.now name.now }
    ensures checked { IfOk result (HasSource (files_in files.now) class.now) }
    ensures refused { IfErr result (IsWhy (files_in files.now) class.now) }
{
    answers_are_the_source_network();
    let Ok(leaves) = lone_leaves(alloc, name, class) else {
        return Err(Front::Memory);
    };
    let found = match check_leaves(alloc, &files.sources, &leaves) {
        Ok(found) => found,
        Err(front) => return Err(front),
    };
    let Ok(tree) = lone_tree(alloc, leaves, name, class, one_actor(&found)) else {
        return Err(Front::Memory);
    };
    join_tree(alloc, files, class, &tree, found)
}

/// The network that files mean from a class down, of which the tree and the actors are known.
///
/// # Errors
///
/// As [`check_files`] says; only links are still to be refused.
pub fn join_tree(
    alloc: Global,
    files: &NetworkFiles,
    class: &str,
    tree: &Tree,
    found: LeafActors,
) -> Result<Checked, Front>
    requires { IsPeopled (files_in files.now) class.now (tree_of tree.now) found }
    ensures checked { IfOk result (HasSource (files_in files.now) class.now) }
    ensures refused { IfErr result (IsWhy (files_in files.now) class.now) }
{
    one_network();
    actors_are_leaves_of_a_network();
    answers_are_the_source_network();
    join(alloc, tree, found)
}
