//! What the holder of a pass knows of the board.

use std::collections::LinkedList;
use std::snapshot::Snapshot;

/// What a pass knows. No value of it is made.
pub struct View<P> {
    /// How many passes it stands for: 0 if it was joined to another one.
    pub passes: u32,
    /// The pieces as they were put on the board, by place.
    pub put: LinkedList<P>,
    /// The numbers that it drew.
    pub drawn: LinkedList<u64>,
    /// Those of them whose pieces it brought home.
    pub home: LinkedList<u64>,
}

/// What is fixed when the board is opened.
#[derive(Drop)]
pub struct Opening<P> {
    pub put: Snapshot<Vec<P>>,
    pub passes: u32,
}
