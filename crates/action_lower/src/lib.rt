//! Actions as code: guards that answer, and firings that do what the source says.
//!
//! The guards of an action become code that answers as they do, and its locals, its body and its outputs code that does
//! what the firing does.
//!
//! A name that an action sees stands for a value in cells or tokens. The actor's variables stand in its state cells,
//! from cell 0 on, one after the other and scalar by scalar. A pattern variable stands in the tokens of its port: that
//! at its place among the names of the pattern and, if the pattern is repeated, each further one as many places behind
//! as there are names.
#![tactic(auto)]

mod firing;
mod first;
mod guards;
pub mod laws;
mod locals;
mod outputs;
mod seats;
mod shapes;
mod turns;

pub use firing::{Firing, lower_firing};
pub use first::first_cells;
pub use guards::{clear_at, lower_guards};
pub use locals::lower_locals;
pub use outputs::lower_outputs;
pub use seats::global_names;
