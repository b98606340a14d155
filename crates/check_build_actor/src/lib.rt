//! The actor that a source is, of its parts.
//!
//! [`actor`] builds the actions of an actor and what orders them, and puts all parts together to a
//! [`Bound`](cal_model::Bound). What an actor is, and which rules it breaks, is defined in `cal_check` (ISO/IEC 23001-4,
//! RVC-CAL: actors; CAL Language Report, action schedules and priorities).
#![tactic(auto)]

mod move_list;
mod ordering;
mod others;
mod whole;

pub use move_list::moves;
pub use ordering::{ActorOrder, order};
pub use others::other_members;
pub use whole::{BareActor, actor};
