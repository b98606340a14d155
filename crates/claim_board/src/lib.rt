//! A board on which pieces of work lie, and from which several workers draw them at run time.
//!
//! A [`Board`] is opened with its pieces and one [`Pass`] for each worker. A worker draws a piece, works it and
//! gives it back, until it is answered that none is left. No call waits for another thread, and none but `open`
//! takes memory. After the workers, `close` gives the pieces in their places.
#![tactic(auto)]

mod board;
mod deal;
mod layout;
mod pass;
mod piece;
mod rule;
mod slot;
mod view;

pub use board::{Board, NoBoard};
pub use pass::Pass;
pub use piece::Piece;
