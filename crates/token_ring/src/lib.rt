//! Queues of tokens: what a link keeps between a firing that sends and a firing that takes.
//!
//! A [`Ring`] has memory for its capacity from the start, and no call but `new` takes any. Guards look
//! at its tokens through a [`Peek`], which borrows the ring's two parts and copies nothing.
#![tactic(auto)]

mod peek;
mod ring;

pub use peek::Peek;
pub use ring::Ring;
