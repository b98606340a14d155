//! The values of an actor's variables and parameters, and the ports of its header.
//!
//! A start and a type see what is declared before them, with its values, and all functions. [`value_all`] goes through
//! declarations in the order of the text, and stops at the first that breaks a rule; [`Valued`] says what the variables
//! so far come to. What each part is, and which rules it breaks, is defined in `cal_check` (ISO/IEC 23001-4, RVC-CAL:
//! state variables, parameters and ports).
#![tactic(auto)]

mod declared;
mod early;
mod fault;
mod finding;
mod given;
mod header;
mod places;
mod starting;
mod valued;
mod variables;

pub use declared::{DeclaredVar, add_functions, add_parameters, add_variables};
pub use early::{early_kind, early_type};
pub use given::given_rightly;
pub use header::{Header, header_ports, port};
pub use starting::{Started, start};
pub use valued::{Told, Valued};
pub use variables::value_all;
