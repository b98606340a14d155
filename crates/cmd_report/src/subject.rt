//! What a report speaks of.

use net_model::{Link, Port};
use rvc_words::PortWord;

/// What a report speaks of, as far as the command came: what isn't known yet is empty, and 0 instances.
#[derive(Clone, Copy)]
pub struct Subject<'a> {
    /// The names of the files that were read: file k stands at place k - 1.
    pub files: &'a [String],
    /// The file of the trace. If it is read, it is feed 0.
    pub trace: &'a str,
    /// The port words, which give the ports of the network their files.
    pub words: &'a [PortWord],
    /// How many instances the network has.
    pub instances: u64,
    /// Its links and its own ports.
    pub links: &'a [Link],
    pub ins: &'a [Port],
    pub outs: &'a [Port],
}
