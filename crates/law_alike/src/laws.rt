//! What holds of the traces of networks that are alike.
//!
//! The law is the contract of a function that does nothing: it is proved with the crate, and can be cited.

ghost use Rattle.law_alike.specs.Traces.{NoRunsAlike, TracesAlike};

use net_model::Likeness;

/// Networks that are alike have the same traces from states that are alike. A trace of the one leads there to states that
/// are alike (`traces`); of a text that is none, what is told over the one may be told over the other: the line that no run
/// has, and why (`no_runs`).
pub fn traces_are_alike<K: Likeness>()
    ensures traces { TracesAlike K.related K.allowed }
    ensures no_runs { NoRunsAlike K.related K.allowed }
{}
