//! Networks of actors: their states, events, runs and ends, port files and traces, as definitions.
//!
//! The definitions stand in `specs/`, for any number of leaves and links and any actor's behaviour.
//! The functions of `laws` carry what holds of all runs.
#![tactic(auto)]

mod firing;
mod laws;
mod likeness;
mod pacing;
mod wiring;

pub use firing::{BurstEnd, Firing, Look, Tried};
pub use laws::{
    Meaning, deliveries_commute, deliveries_keep_firings, firings_commute, lines_are_runs,
    lines_lead_to_one_state, quiet_is_waiting, sent_lists_only_grow, stable_actors_act_once,
    stalled_in_one_place, taken_have_arrived, traps_outlast,
};
pub use likeness::{Likeness, ends_are_alike, lines_play_alike};
pub use pacing::{
    paced_lines_are_one, paced_lines_keep_capacities, paced_lines_keep_the_budget, paced_lines_play,
};
pub use wiring::{Counts, End, Link, Port, Wiring};
