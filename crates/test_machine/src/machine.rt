//! Programs of each instruction, and what its meaning makes of them.

mod admitting;
mod arithmetic;
mod cells;
mod comparing;
mod flow;
mod ranges;
mod storing;
mod tokens;
