//! The meaning of actors: values, types and kinds, an actor that was checked, and what it does.
//!
//! The definitions are in `specs/`.
#![tactic(auto)]

mod bound;
mod kind;
mod laws;
mod rates;
#[cfg(test)]
mod tests;
mod value;

pub use bound::{
    Bound, BoundAction, BoundFun, BoundLocal, BoundMove, BoundOutput, BoundPattern, BoundProc,
    BoundVar, Port,
};
pub use kind::{Kind, MAX_LIST_SCALARS, Shape, kind_of_type};
pub use laws::{
    actions_fire_or_trap, actors_stay_in_their_states, behaviour_is_the_firing_rule,
    constants_are_values, environments_are_kept, kinds_are_kept, loops_count_turns, loops_go_on,
    numbers_are_written_out, one_effect, one_line, ports_keep_tokens, procedures_are_performed,
    selection, sound_actors_are_lawful, sound_actors_have_priorities,
    stored_values_are_in_their_type, tags_stand_for_actions, types_are_kept,
};
pub use rates::{give, need};
pub use value::{Value, Values};
