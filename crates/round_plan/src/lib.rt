//! The plan of a round: which instances are picked, and how often each of them may fire.
#![tactic(auto)]

mod all;
mod policy;
mod seed;
mod shares;
mod turn;

pub use all::AllPolicy;
pub use policy::Policy;
pub use seed::SeedPolicy;
pub use shares::split_budget;
pub use turn::TurnPolicy;
