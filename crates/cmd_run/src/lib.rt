//! The verb `run`: the network of a library is run as the words ask.
//!
//! [`run_job`] goes from the files of a top to the bytes on each channel. It compiles the network (`rvc_engine`), makes its
//! cells (`net_cells`), runs them (`cmd_run_network`) and puts the report (`cmd_report`). [`run_image`] is what it does with
//! a network that was compiled. What they promise is said of the source network alone: `cmd_network` says which network
//! a command is about, and `specs/Ends.antt` to what it comes and what it leaves, with a case for each status.
//! `proofs/Sourced.antt` carries what cells leave over to their sources.
#![tactic(auto)]

mod image;
mod laws;
mod reporting;
mod running;
mod status;

pub use image::run_image;
pub use laws::{built_images_can_be_run, runs_make_few_rounds};
pub use running::run_job;
