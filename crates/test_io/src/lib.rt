//! Rows of the outside: files, feeds, drains and tokens, in memory and of the system.
//!
//! Files, feeds and drains in memory, the tokens of port files, and files of the system.
//!
//! Tests that stand beside a crate make it be proved twice, so those of `rvc_io`, `port_files` and `rvc_real` are here.
#![tactic(auto)]

#[cfg(test)]
mod adapters;
#[cfg(test)]
mod memory;
#[cfg(test)]
mod naming;
#[cfg(test)]
mod tokens;
