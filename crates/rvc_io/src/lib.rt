//! The outside, as `rvc` sees it: files to read, feeds of bytes, channels that take bytes, and a gate.
//!
//! Each trait says what its calls do by what its values *tell* of their content, and by counts of
//! faults that never fall. The objects in memory tell all. Each trait also says what was done through it so far, which
//! objects that tell nothing have too ([`Past`]).
#![tactic(auto)]

mod calls;
mod drains;
mod feeds;
mod files;
mod gate;
mod library;
mod mem_drains;
mod mem_feeds;
mod mem_library;
mod past;

pub use drains::Drains;
pub use feeds::Feeds;
pub use files::names_are_distinct;
pub use gate::{Gate, OpenGate};
pub use library::{Library, MAX_FILE_BYTES, ReadAnswer};
pub use mem_drains::MemDrains;
pub use mem_feeds::MemFeeds;
pub use mem_library::MemLibrary;
pub use past::{Act, Past};

/// A read or a write that failed.
#[derive(Clone, Copy, Debug, PartialEq, Eq)]
pub struct Failed;
