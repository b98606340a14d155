//! Laws of the tree that networks make. Each is a function that does nothing: its contract is what is proved.

ghost use Rattle.law_networks.specs.Leaves.{LeavesStandInChains, PathsDiffer};

/// Each actor of the tree that networks make stands at the end of a chain of instances. Its path is the row of their
/// ids, and each of its parameters has the value of the expression by which the last of them gives it, over what its
/// network declares; that network has the values that it is given in the same way, up to the top.
pub fn leaves_stand_in_chains()
    ensures { LeavesStandInChains }
{}

/// If the networks break no rule, no two actors have one path.
pub fn paths_differ()
    ensures { PathsDiffer }
{}
