//! Values that parameters are given.
//!
//! [`GivenValues`] finds them by the names of parameters, and tests that each is given to a parameter that is declared
//! and that none of these is given two. [`given_stored`] is what a parameter has by one of them. Which values break
//! which rules is defined in `cal_check` (ISO/IEC 23001-4, RVC-CAL: parameters).
#![tactic(auto)]

mod kept;
mod refusal;
mod values;

pub use kept::given_stored;
pub use refusal::refused;
pub use values::GivenValues;
