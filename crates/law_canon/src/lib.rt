//! What holds of the canonical text of a tree.
//!
//! Canonical text (`canon` of [`cal_print`]) is defined on trees alone. Here it is shown, over the lexis and the grammar,
//! that it is a text of its tree: the text of tokens that a text can have is read as these tokens, and the grammar spells
//! the same tree by them again, ignoring offsets. So trees of texts have the same canonical text exactly if they are equal,
//! ignoring offsets.
#![tactic(auto)]

mod laws;

pub use laws::{canonical_text_is_read_back, offsets_do_not_show, one_canonical_text};
