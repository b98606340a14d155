//! What holds of runs of cells.
//!
//! Each law is the contract of a function that does nothing: it is proved with the crate, and can be cited.

ghost use Rattle.net_cells.specs.LinesAlike.{BegunAlike, CountedAlike, PacedBack};
ghost use Rattle.net_cells.specs.RunAlike.{RunsAlike};
ghost use Rattle.net_cells.specs.SourceRuns.{ActorNetworksAreLawful, AnswersAreActorNetworks, CellsBeginAlike, CellsCanRun, CellsRunAsSources, LoweredAreAlike, LoweredCanBeWired, LoweredLinesAlike, LoweredTextsAlike, SamePacedLines, SourcesAreActorNetworks};

use cal_model::{sound_actors_are_lawful, types_are_kept};
use fnl_bind::bound_trees_are_sound;
use fnl_source::{answers_are_the_source_network, one_network};
use net_model::Likeness;

/// Networks that are alike are run alike: what is begun or paced in the one is in the other, with the same tokens on the
/// links, the same numbers count it, and what a run leaves from its start to its end is the same.
pub fn networks_run_alike<K: Likeness>()
    ensures begun { BegunAlike K.related K.allowed }
    ensures paced_back { PacedBack K.related K.allowed }
    ensures counted { CountedAlike K.related K.allowed }
    ensures runs { RunsAlike K.related K.allowed }
{}

/// A run of the cells of lowered actors is a run of the network of the sources for which they stand.
///
/// What a compiler has in hand is the network of the actors at its leaves (`networks`), and so is the source network of a
/// class whose leaves these actors are (`sources`). It is wired, and its actors are lawful (`lawful`). Lowered actors that stand for them can be wired as they are (`wired`).
/// The two networks are alike (`alike`): the same lines are begun and paced from states that are alike, and the same
/// numbers count them (`lines`), and traces and outputs are the same, byte by byte (`texts`). The cells that
/// [`make_cells`] makes of them can be run (`can_run`), a run from them begins at a state alike to the start of the
/// sources (`begin`), exactly the lines that are paced there are paced here (`paced`), and what a run leaves is what a
/// run of the sources leaves from their start (`runs`).
///
/// [`make_cells`]: crate::make_cells
pub fn cells_run_as_sources()
    ensures networks { AnswersAreActorNetworks }
    ensures sources { SourcesAreActorNetworks }
    ensures lawful { ActorNetworksAreLawful }
    ensures wired { LoweredCanBeWired }
    ensures alike { LoweredAreAlike }
    ensures lines { LoweredLinesAlike }
    ensures texts { LoweredTextsAlike }
    ensures can_run { CellsCanRun }
    ensures begin { CellsBeginAlike }
    ensures paced { SamePacedLines }
    ensures runs { CellsRunAsSources }
{
    sound_actors_are_lawful();
    types_are_kept();
    bound_trees_are_sound();
    one_network();
    answers_are_the_source_network();
}
