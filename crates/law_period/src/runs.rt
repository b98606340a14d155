//! What holds of runs of static actors.
//!
//! Each law is the contract of a function that does nothing: it is proved with the crate, and can be cited.

ghost use Rattle.std.specs.Prelude.{ℕ};
ghost use Rattle.law_period.specs.Laws.{PeriodsAreRuns, StartsAtRest};

/// The states of the actors of a network, and for each leaf those of them in which it is static.
pub trait StaticStates {
    ghost State: { Type 0 };

    ghost kept: { ℕ → State → Type 0 };
}

/// From a state between periods, with as much input as a period takes, the turns of a period are a run: all arrives,
/// and then the leaves of the order fire in turn, each the action that selection gives, with all arriving behind each.
/// It ends between periods again, with the inner links empty, or an action traps on the way. No inner link ever holds
/// more tokens than its peak (`runs`). The start of a run over files is such a state (`start`).
pub fn periods_are_runs<N: StaticStates>()
    ensures start { StartsAtRest N.State N.kept }
    ensures runs { PeriodsAreRuns N.State N.kept }
{}
