//! The source network: what a library's files mean from a top class down, before anything is compiled.
//!
//! `specs/Source.antt` says which network that is. Its actors are those of `cal_check` over the values that the networks
//! give them, its leaves those that `fnl_bind` makes, and its links those of `fnl_flatten`. [`one_network`] says that
//! there is at most one, and [`answers_are_the_source_network`] that binding and flattening lead to it. It stands below the
//! calls that build and run networks, so that all of them speak of it.
//!
//! `specs/Files.antt` says which files a top needs by what a library tells of their bytes, and `specs/Library.antt` which
//! network they mean; [`one_library_network`] says that there is at most one, and [`actor_files_are_loaded`] that the
//! files of an actor alone are those that `cal_files` loads.
#![tactic(auto)]

mod laws;

pub use laws::{
    actor_files_are_loaded, answers_are_the_source_network, one_library_network, one_network,
};
