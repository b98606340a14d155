//! The lexis: from the bytes of a text to its tokens.
#![tactic(auto)]

mod bytes;
mod net;
mod number;
mod piece;
mod symbols;
mod text;
mod token;
mod word;
mod words;

pub use net::{
    lex_net, no_brace_in_a_list, no_fault_in_a_list_of_a_network, one_first_fault_of_a_network,
    one_list_of_a_network, same_tokens_in_a_network,
};
pub use text::{lex, no_fault_in_a_list, one_first_fault, one_list};
pub use token::{Token, TokenKind};
pub use word::Word;
pub use words::{MAX_NAME, is_name};
