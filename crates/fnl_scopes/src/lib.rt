//! Rules that a network breaks whatever its values are: names, ports, networks inside themselves.
//!
//! A name that isn't that of its class, names that stand twice or aren't declared, too many ports, and networks inside
//! themselves.
//!
//! [`check_scopes`] tests one network where it stands; `scope_broken` of `fnl_bind` says which rules it breaks.
#![tactic(auto)]

mod circles;
mod fault;
mod frames;
mod known;
mod name_set;
mod named;
mod once;
mod parts;
mod ports;
mod scopes;

pub use crate::fault::ScopeFault;
pub use scopes::check_scopes;
