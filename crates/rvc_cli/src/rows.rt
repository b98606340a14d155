//! Rows of commands with their answers: the top call over objects in memory, by each verb.
//!
//! A program over the top call is as dear with ten rows as with a hundred, so the rows of all verbs stand here, beside the
//! program, over the call that it makes.

mod commands;
mod decoder;
mod faults;
mod replays;
mod rules;
mod running;
mod runs;
mod sources;
mod table;
mod workers;
