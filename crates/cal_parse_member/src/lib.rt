//! From tokens to the members of actors and units.
//!
//! Actions, schedules, priorities, functions, procedures and variables are read as the programs of `cal_grammar` read
//! them, of which each function is told by a clause: see `specs/Tells.antt` of `cal_parse_base`. `cal_parse_stmt` and `cal_parse_expr`
//! read what they are made of.
#![tactic(auto)]

mod actions;
pub mod members;
mod schedules;
