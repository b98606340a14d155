//! Bursts of cells that workers claim from a board, each as it comes free.
#![tactic(auto)]

mod bursting;
mod crew;
mod joining;
mod source;
mod task;
mod working;

pub use bursting::burst_tasks;
pub use crew::Crew;
pub use task::BurstTask;
pub use working::work_all;
