//! A period of a network of the static actors of sources is a run.
//!
//! What `law_period` shows of any actors that are static in their states holds of those that `static_rates` finds static
//! by their sources: a network of them can run its periods one after another ([`source_periods_are_runs`]).
#![tactic(auto)]

mod laws;

pub use laws::source_periods_are_runs;
