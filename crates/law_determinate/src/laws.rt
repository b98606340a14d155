//! What holds of commands that run networks of certified actors.
//!
//! The law is the contract of a function that does nothing: it is proved with the crate, and can be cited.

ghost use Rattle.law_determinate.specs.QuietRuns.{RunsTellQuietRuns};

use determinacy_cert::{
    as_many_firings_are_all, certified_networks_are_determinate, no_failure_where_certified,
    no_quiet_run_besides_a_trap, quiet_runs_agree, runs_lead_towards_quiet,
};
use fnl_flatten::flat_networks_are_wired;
use net_model::{Meaning, lines_are_runs, taken_have_arrived};

/// The states of actors, as laws of networks speak of them.
struct ActorStates;

impl Meaning for ActorStates {
    ghost use Rattle.cal_model.specs.Selection.{State as ActorState};

    ghost State = { ActorState };
}

/// A command that ran a network to its end tells what every quiet run over the same inputs gives, if each actor is
/// certified, which its report shows.
///
/// Each output has in the quiet run what it has at the end of the command's run, or more behind that, and exactly that if
/// the command ended quiet. After a trap there is no quiet run. If some quiet run has so many firings, a budget of as many
/// is enough: a run that ends by its budget had less.
pub fn runs_tell_quiet_runs()
    ensures { RunsTellQuietRuns }
{
    flat_networks_are_wired::<ActorStates>();
    certified_networks_are_determinate();
    no_failure_where_certified();
    lines_are_runs::<ActorStates>();
    taken_have_arrived::<ActorStates>();
    runs_lead_towards_quiet::<ActorStates>();
    quiet_runs_agree::<ActorStates>();
    no_quiet_run_besides_a_trap::<ActorStates>();
    as_many_firings_are_all::<ActorStates>();
}
