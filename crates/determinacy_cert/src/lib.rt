//! Determinacy: in a network of stable actors every order of arrival leads to the same results.
//!
//! Kahn's networks compute the same streams however they are scheduled (Kahn 1974). An actor that looks at which tokens
//! have arrived can break that; a *stable* one can't: what it does it does with more tokens too. The laws here say what
//! follows of networks of stable actors, over all runs, deliveries and capacities, and that actors which the
//! certification rule admits are stable.
#![tactic(auto)]

mod certifier;
mod comparison;
mod fault;
mod form;
mod found;
mod guards;
mod interval;
mod key;
mod laws;
mod pairing;
mod range;
mod table;

pub use certifier::certify;
pub use fault::{CertFault, Reason};
pub use laws::{
    as_many_firings_are_all, certified_actors_are_stable, certified_networks_are_determinate,
    no_failure_where_certified, no_quiet_run_besides_a_trap, quiet_runs_agree,
    runs_lead_towards_quiet,
};
