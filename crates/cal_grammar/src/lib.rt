//! The grammar: which tokens spell which tree, and its rules as programs that look one token ahead.
//!
//! `specs/Spells.antt` is the grammar. `specs/Rules.antt` writes its rules as programs, and `specs/Program.antt` says what
//! any such program does. `specs/Reading.antt` says what a refusal promises. `proofs/` shows that the rules read exactly
//! what is spelled; the parser does what they do. What holds of every such program is shown for any grammar: it is sound if
//! each rule is, it ends if its calls need less, and what it does depends on the tokens that it took and on one more.
#![tactic(auto)]

mod laws;

pub use laws::one_tree;
