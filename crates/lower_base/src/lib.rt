//! What code for expressions is made of, with literals and names, and what it does.
//!
//! What code for expressions and functions is made of, and what it does: what evaluating an expression or calling a
//! function does.
//!
//! Code is appended to a [`Draft`]. Names stand for cells or tokens that hold their values, number by number. Of
//! expressions without parts code is made here; the crate `expr_lower` makes that of all others and of functions, and
//! `lower_stmt` that of statements, over what is public here.
#![tactic(auto)]

mod callees;
mod draft;
mod exprs;
mod fault;
pub mod laws;
mod names;
mod operators;
mod parts;
mod scope;
mod sizes;
mod sorts;

pub use callees::{Callee, Formal, function_for, put_call, put_formals};
pub use draft::{Draft, next_place, put, put_all, put_const, take_cell};
pub use exprs::{close, link, number, truth, variable, whole_offset};
pub use fault::LowerFault;
pub use names::{
    ItemList, Named, OneCell, OneSeat, Seat, list_called, list_named, one_named, shape_called,
    single,
};
pub use operators::{binary_instr, item_instr, negative, prefix_instr};
pub use parts::{Part, Rows, deep_item_named, part_named, rows_named, scalars, whole_called};
pub use scope::{Frame, Scope};
pub use sizes::type_size;
pub use sorts::Sort;
