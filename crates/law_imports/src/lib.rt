//! What is wrong where imports or calls are refused: an import without a file, or a circle.
//!
//! `cal_imports` says by a walk which imports and calls are refused. Here it is shown of that walk what a refusal means:
//! an import that is told to be missing names a class without a file ([`missing_imports_are_missing`]), imports that are
//! told to lead in a circle do ([`circles_of_imports_are_circles`]), and so do calls
//! ([`circles_of_calls_are_circles`]); the place that is told stands on it.
#![tactic(auto)]

mod laws;

pub use laws::{
    circles_of_calls_are_circles, circles_of_imports_are_circles, missing_imports_are_missing,
};
