//! From tokens to the tree of a file.
//!
//! The code does what the programs of `cal_grammar` do, and is told by a clause each: see `specs/Tells.antt` of
//! `cal_parse_base`. `cal_parse_expr` reads expressions and types, `cal_parse_stmt` declarations and statements, `cal_parse_member` the
//! members of actors and units, and this crate whole files, and expressions and types that stand alone.
#![tactic(auto)]

mod alone;
mod files;
mod parse;

pub use alone::{parse_expr, parse_type};
pub use cal_grammar::one_tree;
pub use parse::{MAX_HEIGHT, parse_file};
