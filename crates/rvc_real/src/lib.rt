//! The outside as it is: files of the system, and standard output.
//!
//! The bodies are the trusted edge: no clause says which bytes the system gives or keeps. So these objects tell nothing of
//! what files hold that are to be read. What was done through them is noted: which names were opened, which bytes came, and
//! which were taken. Their counts, and what is open, are proved.
#![tactic(auto)]

mod file_drains;
mod file_feeds;
mod folder_library;
mod open_files;
mod seen_files;
mod standard_streams;

pub use file_drains::FileDrains;
pub use file_feeds::FileFeeds;
pub use folder_library::FolderLibrary;
pub use seen_files::SeenFiles;
pub use standard_streams::hold_standard_streams;
