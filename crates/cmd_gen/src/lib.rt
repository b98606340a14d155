//! The verb `gen`: a network that is generated is run over an input that is generated.
//!
//! [`gen_job`] makes the files and the input of the network (`cmd_gen_network`), in memory, and does with them what `run`
//! does with files of a library and feeds (`run_job`). The port words may name outputs alone.
//!
//! `specs/Jobs.antt` says which job is run, and `specs/Ends.antt` to what a command comes: what it says of a run is what `run`
//! says of the command over the generated files and input. [`jobs_to_generate_have_numbers`] says that the tops of such jobs
//! are numbers.
#![tactic(auto)]

mod built;
mod laws;
mod making;
mod running;

pub use laws::jobs_to_generate_have_numbers;
pub use running::gen_job;
