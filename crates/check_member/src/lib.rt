//! Checks of an actor's members that need no kinds: ports, tags, schedule and priorities.
//!
//! The checks of an actor's members that need no kind of an expression: the names and the number of its ports, which
//! port a pattern or an output means, tags, the schedule, priorities, and how many actions and states there are.
//!
//! Each call answers what its part of the actor is, or a rule that the part breaks, with its place. What the parts are,
//! and which rules they break, is defined in `cal_check`. The schedule and the priorities come out as the steps and the
//! pairs of which `schedule_fsm` and `priority_order` make their tables.
//!
//! The rules are those of the CAL Language Report (ports, action tags, action schedules, priorities) and of ISO/IEC
//! 23001-4 (RVC-CAL).
#![tactic(auto)]

mod asked;
mod fault;
mod header;
mod members;
mod name_index;
mod priorities;
mod repeats;
mod schedule;
mod tags;
mod targets;

pub use asked::{output_ports, pattern_ports};
pub use fault::MemberFault;
pub use header::{check_ports, port_of};
pub use members::{check_guards, check_initialize, count_actions, schedule_among};
pub use priorities::check_priorities;
pub use repeats::{check_rate, repeat_of};
pub use schedule::{Scheduled, check_schedule};
pub use tags::actions_meant;
