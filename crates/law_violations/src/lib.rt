//! What an empty list of violations means: what must be constant has a value.
//!
//! `cal_check` lists the rules that an actor breaks. Here it is shown of that list, in the language's own words, what it
//! means if it is empty: each variable has a type and a value, and the start that it has gives one
//! ([`variables_have_values`]); each size and each bound in what has a kind or is a type gives a number
//! ([`sizes_and_bounds_give_numbers`]). So nothing that must be constant reaches a variable without a value, traps, or
//! clashes. And if an expression has no kind since something isn't constant or traps, a size or a bound in it at the
//! place that is named is at fault ([`what_is_not_constant_is_there`]).
#![tactic(auto)]

mod laws;

pub use laws::{
    sizes_and_bounds_give_numbers, variables_have_values, what_is_not_constant_is_there,
};
