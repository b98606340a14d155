//! Port files: the tokens of a feed's bytes, and the bytes of a token.
//!
//! A token takes 1, 2, 4 or 8 bytes, the least that hold its size, the lowest byte first; a number below
//! 0 is in two's complement.
#![tactic(auto)]

mod coding;
mod feed;
mod piece;

pub use coding::encode;
pub use feed::{Next, TokenFeed};
pub use piece::PIECE_BYTES;
