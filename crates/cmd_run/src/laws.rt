//! What holds of images, and of what runs leave.

ghost use Rattle.cmd_run.specs.Rounds.{RunsMakeFewRounds};
ghost use Rattle.cmd_run.specs.Steps.{BuiltAreSourceImages};

use law_rounds::rounds_are_few;
use net_cells::cells_run_as_sources;
use net_model::Meaning;

/// The states of actors, as laws of networks speak of them.
struct ActorStates;

impl Meaning for ActorStates {
    ghost use Rattle.cal_model.specs.Selection.{State as ActorState};

    ghost State = { ActorState };
}

/// An image that was built is one of a network of sound actors, so it can be run ([`run_image`](crate::run_image)).
pub fn built_images_can_be_run()
    ensures { BuiltAreSourceImages }
{
    cells_run_as_sources();
}

/// A command that ran a network to its end made at most two rounds for each firing, one for each growth of a link, and two
/// more.
pub fn runs_make_few_rounds()
    ensures { RunsMakeFewRounds }
{
    rounds_are_few::<ActorStates>();
}
