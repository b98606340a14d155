//! Laws of bound networks, as a function that does nothing.

ghost use Rattle.fnl_bind.specs.Sound.{BoundAreSound, BoundStandOnce};

/// In the tree that networks make each network but the top is one part, and each actor is one part.
/// A network stands in one that comes before it. If the networks break no rule, the tree is one that can be flattened:
/// its names are told apart, its actors are numbered depth first, and it is within the limits.
pub fn bound_trees_are_sound()
    ensures once { BoundStandOnce }
    ensures sound { BoundAreSound }
{}
