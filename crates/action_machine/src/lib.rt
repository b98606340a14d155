//! The machine that runs admitted code.
#![tactic(auto)]

mod bits;
mod carrying;
mod indexed;
mod kept;
mod loads;
mod making;
mod offset;
mod operators;
mod ranges;
mod reads;
mod registers;
mod run;
mod stack;
mod step;
mod stepping;
mod truth;

pub use code_ir::Outcome;
pub use kept::Cells;
pub use making::cells;
pub use run::Run;
