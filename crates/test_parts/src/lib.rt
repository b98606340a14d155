//! Rows of orders, automata, queues, plans of rounds, boards, the test of code, and periods.
//!
//! Rows of the parts that runs are made of: orders, automata, queues of tokens, plans of rounds, boards, the test
//! of code, repetition vectors and periods, over the public calls of `priority_order`, `schedule_fsm`, `token_ring`,
//! `round_plan`, `claim_board`, `code_ir`, `balanced_rates` and `period_order`.
//!
//! Tests that stand beside a crate make it be proved twice.
#![tactic(auto)]

#[cfg(test)]
mod automata;
#[cfg(test)]
mod balances;
#[cfg(test)]
mod boards;
#[cfg(test)]
mod codes;
#[cfg(test)]
mod orders;
#[cfg(test)]
mod periods;
#[cfg(test)]
mod rings;
#[cfg(test)]
mod rounds;
