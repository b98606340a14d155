//! The network of the generator, as files, and the bytes of its feed.
//!
//! The network is a row of instances that each pass on one byte for one byte. [`generated_library`] holds its files and
//! [`generated_feeds`] its input, so whatever runs a network from a library over feeds runs it too. No call to them fails.
#![tactic(auto)]

mod feed;
mod feeds;
mod files;
mod library;
mod network;
mod put;

pub use feed::{FEED_BYTES, feed_bytes};
pub use feeds::{GeneratedFeeds, generated_feeds};
pub use files::{TOP_NAME, network_files};
pub use library::{GeneratedLibrary, generated_library};
pub use network::network_text;
