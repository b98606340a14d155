//! The words of the command line: `rvc VERB TOP [PORT=FILE ..]` and its options, in any order.
#![tactic(auto)]

mod command;
mod fault;
mod forms;
mod job;
mod names;
mod numbers;
mod parts;
mod reader;

pub use fault::{UsageCause, WordFault};
pub use job::{
    DEFAULT_BUDGET, DEFAULT_BURST, DEFAULT_WORKERS, Job, MAX_BURST, MAX_GENERATED, MAX_GROW,
    MAX_WORKERS, PortWord, Verb,
};
pub use reader::read_words;
pub use rvc_base::RoundKind;
