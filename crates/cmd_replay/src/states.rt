//! The states of actors, as laws of networks speak of them.

use net_model::Meaning;

/// Stands for the states of the actors of a source network.
pub(crate) struct ActorStates;

impl Meaning for ActorStates {
    ghost use Rattle.cal_model.specs.Selection.{State as ActorState};

    ghost State = { ActorState };
}
