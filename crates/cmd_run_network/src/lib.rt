//! One run of a network, from port words to its end.
//!
//! [`run_network`] does what a job asks of cells that are joined as a flat network says. The port words are matched with
//! the network's ports, it is tested how far the links may grow, and all memory is taken. Then a feed is opened for each
//! link from an input that has a file, and a channel for the trace and for each output that has one. What stands in a trace
//! before its first event is written, and the rounds go to an end.
//!
//! What a run leaves is said of whole channels: the trace's has the text of paced lines, and each output's the bytes of
//! what was sent to it, for every network of these cells and over all bytes of its inputs' files.
#![tactic(auto)]

mod growth;
mod head;
mod laws;
mod numbers;
mod opening;
mod outcome;
mod preparing;
mod running;
mod states;
mod wiring;

pub use growth::fits_grown;
pub use laws::any_ports_may_be_open;
pub use outcome::{JobFault, Outcome};
pub use running::run_network;
pub use wiring::wiring_of;
