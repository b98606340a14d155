//! The rules that actions break: their patterns, guards, locals, statements and outputs.
//!
//! Patterns are judged first, since all else sees their variables: if one breaks a rule, nothing behind them is judged.
//! Guards see the variables of the patterns, and what is behind them the action's locals too.
//!
//! What each part is, and which rules it breaks, is defined in `cal_check` (ISO/IEC 23001-4, RVC-CAL: actions; CAL
//! Language Report, input patterns, guards, output expressions).
#![tactic(auto)]

mod action;
mod behind;
mod fault;
mod guards;
mod outputs;
mod pattern;
mod repeats;
mod tokens;

pub use action::{ActorParts, check_action, check_actions};
pub use behind::pattern_names;
pub use outputs::{check_outputs, output_repeat};
pub use pattern::{check_patterns, patterns};
