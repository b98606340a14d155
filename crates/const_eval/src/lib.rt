//! Constant expressions: their values and their kinds, over constants and functions.
//!
//! The names and values are those of `const_env`; `const_expr` goes through the expressions.
#![tactic(auto)]

mod constant;
mod ending;

pub use const_env::kinds::{item_kind, one_kind};
pub use const_env::{
    Env, EvalError, Inside, KindFault, Meant, Names, Variable, Variables, is_counted,
};
pub use const_expr::{arguments_fit, constant_number, counts, kind, type_judged};
pub use constant::{ConstFault, eval_const, kind_const};
pub use ending::eval_to_end;
