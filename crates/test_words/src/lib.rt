//! Rows of words with the job that they ask for, and of reports.
//!
//! Rows of lines of words with the job that they ask for, and of reports with what is put of commands that ended so.
//!
//! Tests that stand beside a crate make it be proved twice, so those of `rvc_words` and `cmd_report` are here.
#![tactic(auto)]

#[cfg(test)]
mod rows;
#[cfg(test)]
mod samples;
#[cfg(test)]
mod words;
