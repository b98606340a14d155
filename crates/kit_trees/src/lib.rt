//! What is read of a source, told as text: trees, canonical texts, broken rules.
//!
//! Texts of sources as what is read of them, again as text: trees, canonical texts, and the rules that they break.
//!
//! In the text of a tree each part stands with its offset: that of `1 - 2 - x` is `(- (- 1@0 2@4)@0 x@8)@0`. Lists are
//! in brackets, and `-` is for what isn't there.
//!
//! The tests are those of `test_text`, `test_text`, `test_text`, `test_const`, `test_fnl_read` and `test_certify`. Each
//! drop of a type is proved in each crate that owns one, so what owns trees is here, and rows own texts and expressions
//! alone.
#![tactic(auto)]

mod actions;
mod alone;
mod canonical;
mod constants;
mod expressions;
mod files;
mod framed;
mod members;
mod reading;
mod statements;
mod whole;
mod writer;

pub use alone::{Alone, told_alone};
pub use canonical::{canon, without_offsets};
pub use constants::{BEFORE, expression};
pub use framed::{Frame, Framed, told_in};
pub use whole::{Asked, expr_text, is_copied, told};
