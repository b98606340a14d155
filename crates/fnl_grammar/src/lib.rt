//! The grammar of network files by productions, and the laws that files are read by it.
//!
//! `specs/Markup.antt` says which bytes spell which tags, `specs/Productions.antt` which tags spell which network, both one
//! case a production, and `specs/Rows.antt` how a row of operands and operators is grouped. They say nothing of how a file
//! is read; the laws say that both agree.
#![tactic(auto)]

mod laws;

pub use laws::{
    files_are_read_as_they_are_spelled, markup_is_read_as_it_is_spelled,
    networks_are_read_as_they_are_spelled, no_spelled_file_begins_so, no_spelled_markup_begins_so,
    no_spelled_network_begins_so,
};
