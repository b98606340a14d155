//! From tokens to names, lists, declarations and statements.
//!
//! The code does what the programs of `cal_grammar` do, and is told by a clause each: see `specs/Tells.antt` of
//! `cal_parse_base`. Each function takes what it reads from the front of the tokens, and reads nothing that is higher than
//! its room. `cal_parse_expr` reads the expressions and the types.
#![tactic(auto)]

pub mod decls;
pub mod lists;
pub mod names;
pub mod stmts;
