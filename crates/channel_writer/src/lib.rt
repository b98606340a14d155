//! Bytes that go to a channel in large pieces.
#![tactic(auto)]

mod whole;
mod writer;

pub use whole::put_all;
pub use writer::{ChannelWriter, PIECE_BYTES};
