//! From a top to its image: the network that its files mean, with the code of each of its actors.
//!
//! [`build`] has `network_check` read and check the files of a top. It lowers each distinct actor, and tells whether it is
//! certified.
//!
//! `specs/` says what an image is (`Built`). What was checked, what refuses a top, and why nothing is given are words of
//! `network_check`.
#![tactic(auto)]

mod building;
mod compiling;
mod image;
mod network;

pub use image::Image;
pub use network::build;
