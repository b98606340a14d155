//! What holds of periods of networks of source actors.
//!
//! The law is the contract of a function that does nothing: it is proved with the crate, and can be cited.

ghost use Rattle.law_static.specs.Sources.{SourcePeriodsAreRuns, SourcesStartAtRest};

use cal_model::{actors_stay_in_their_states, sound_actors_are_lawful};
use static_rates::static_actors_keep_their_rates;

/// A period of a wired network of sound and static actors, by the rates of their actions, can be run from each state
/// between periods that has the input of one, whole or up to a trap (`runs`); and the start of a run over files is such
/// a state (`start`).
pub fn source_periods_are_runs()
    ensures start { SourcesStartAtRest }
    ensures runs { SourcePeriodsAreRuns }
{
    static_actors_keep_their_rates();
    actors_stay_in_their_states();
    sound_actors_are_lawful();
}
