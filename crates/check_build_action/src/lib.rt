//! The actions of the actor that a source is.
//!
//! Each call gives the part of a [`Bound`](cal_model::Bound) that the definitions in `cal_check` say, over what the part
//! sees of its actor (ISO/IEC 23001-4, RVC-CAL: actions; CAL Language Report, input patterns, output expressions). What
//! stands in the part has its sizes and bounds written out. Patterns, the types of locals, and outputs are judged as
//! they are built; which rules an action breaks else, [`check_action`](check_action::check_action) says.
#![tactic(auto)]

mod acting;
mod inside;
mod output;

pub use acting::{action, actions};
pub use inside::tag_parts;
pub use output::outputs;
