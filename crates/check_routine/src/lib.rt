//! Functions and procedures: their heads, and the rules that they break.
//!
//! A routine sees the names of its actor or unit, its formals, each of which sees those before it, and its locals. Its
//! head is judged before anything that calls it, and what is inside once all heads are known: nothing is said of what
//! is inside a routine whose head breaks a rule.
//!
//! What each part is, and which rules it breaks, is defined in `cal_check` (ISO/IEC 23001-4, RVC-CAL: functions and
//! procedures).
#![tactic(auto)]

mod formal;
mod function;
mod procedure;
mod single;
mod tables;

pub use formal::{FoundFormals, formals};
pub use function::{FunHead, check_function, head};
pub use procedure::check_procedure;
pub use single::single_type;
pub use tables::{check_formals, check_functions, check_heads, check_procedures};
