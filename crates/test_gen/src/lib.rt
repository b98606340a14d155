//! Rows of the generator: its network as it is read, its actors, and the first bytes of its feed.
//!
//! The expected answers come from the definition of the generator, and those of feeds from another program's arithmetic.
#![tactic(auto)]

#[cfg(test)]
mod rows;
