//! From tokens to the trees of expressions and types.
//!
//! The code does what the programs of `cal_grammar` do, and is told by a clause each: see `specs/Tells.antt` of
//! `cal_parse_base`, which takes what stands at the front. `expr` goes through expressions and types; `leaves`, `pairs`,
//! `forms` and `types` make them of tokens and of their parts.
#![tactic(auto)]

pub mod expr;
mod forms;
mod leaves;
mod pairs;
mod tall;
mod types;
