//! The words that name files of a network's ports, and the feeds and channels that are opened for them.
//!
//! A port word is `PORT=FILE`. [`match_words`] tells whether each names a port of its own; [`named_ports`] says which
//! ports have a file. [`open_feeds`] opens a feed for each link from an input that has a file, in the order of the links,
//! and [`open_channels`] the channel of the trace and then one for each output that has a file, in the order of the ports.
//! [`open_replay_feeds`] opens the feed of a trace that is to be replayed before those of the links.
#![tactic(auto)]

mod channels;
mod feeds;
mod matching;
mod naming;

pub use channels::{TRACE_CHANNEL, open_channels};
pub use feeds::{FIRST_INPUT_FEED, open_feeds, open_replay_feeds};
pub use matching::match_words;
pub use naming::{file_of, named_ports};
