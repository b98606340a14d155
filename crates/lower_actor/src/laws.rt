//! What holds of the code of actors. Each law is a function that does nothing: its contract is what is proved.

ghost use Rattle.lower_actor.specs.Fitting.{BodiesAreAdmitted, FiringsFit};

/// The code of a firing that [`lower_firing`](action_lower::lower_firing) appends fits where it stands: each
/// instruction has its operands, jumps inside it, and names cells, routines and types that there are. It leaves no
/// operand at its end.
pub fn firings_fit()
    ensures { FiringsFit }
{}

/// Code is admitted, and its types have sizes that are allowed, if it is a row of bodies whose instructions fit: those of
/// its routines, each of which calls only those before it, and then those of its entries, which end as guards or firings
/// do.
pub fn bodies_are_admitted()
    ensures { BodiesAreAdmitted }
{}
