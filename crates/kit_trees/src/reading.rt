//! Files from text.

use cal_ast::File;
use cal_lexer::lex;
use cal_parser::parse_file;
use rvc_base::Front;
use std::alloc::{AllocError, Global};

/// The file that a text spells.
pub(crate) fn parsed(alloc: Global, text: &[u8]) -> Result<File, Front> {
    if text.len() >= 1 << 32 {
        return Err(Front::Memory);
    }
    let tokens = lex(alloc, 7, text)?;
    parse_file(alloc, 7, &tokens, text.len() as u32)
}

/// Why a text isn't read: the rule that it breaks, and the place.
pub(crate) fn fault(alloc: Global, why: Front) -> Result<String, AllocError> {
    match why {
        Front::Refused(refusal) => {
            let rule = refusal.rule;
            let at = refusal.place.offset;
            format!(in alloc; "{rule} at {at}")
        }
        Front::Memory => String::from_str(alloc, "out of memory"),
    }
}
