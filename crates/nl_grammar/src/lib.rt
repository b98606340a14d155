//! The grammar of networks as text: which tokens spell which network, and its laws.
//!
//! `specs/Spells.antt` is the grammar, one case a production; the parts that the language has are spelled as it spells
//! them. `specs/Laws.antt` says what the text of a network is, and what is promised of one that is refused.
//! `specs/Rules.antt` writes the rules of the reader as programs that look one token ahead, which call those of the
//! language. `proofs/` shows that they read exactly what is spelled; the reader (`nl_text`) does what they do.
#![tactic(auto)]

mod laws;

pub use laws::{no_network_breaks_a_rule, one_network};
