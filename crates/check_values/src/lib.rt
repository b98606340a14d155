//! Values as variables hold them, and where an expression that must be constant isn't.
//!
//! A value is stored in a type or is of a kind. Sizes of types and bounds of generators must be constant, and stand inside
//! other expressions: of all that must be constant and use a name that isn't known yet, the innermost is named. Each call
//! is a plain program of its definition in `cal_model` or `cal_check`.
#![tactic(auto)]

mod copied;
mod fitting;
mod place;
mod storing;
mod uses;
mod zeros;

pub use copied::copy;
pub use fitting::{has_kind, is_like_value};
pub use place::{constant_place, constant_place_in_type};
pub use storing::stored;
pub use zeros::zero_of;
