//! Names that are known, with all functions that are seen over them.
//!
//! While values are sought, a start and a type see what is declared before them, with its values, and all functions. Once
//! all values are known, what is inside an actor sees of what changes only the kind. A function's types may have sizes
//! that are constant, and calls in them, so what a function is depends on the names and the other functions over which
//! it is judged. `cal_check` says which names those are (ISO/IEC 23001-4, RVC-CAL: state variables and functions).
#![tactic(auto)]

mod calls;
mod constants;
mod declared;
mod growing;
mod known;
mod needs;
mod order;
mod renewing;
mod said;
mod seen;

pub use calls::{alike_names_suffice, calls_alone_need_functions, calls_any, type_calls_any};
pub use declared::{DeclaredFun, names_differ};
pub use growing::GrowingNames;
pub use known::{KnownName, add_name, names_alone};
pub use seen::{names_at_rest, names_seen};
