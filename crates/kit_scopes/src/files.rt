//! Files from text and back to it.

use cal_ast::{Body, File, Ident, Member, UnitFile};
use cal_lexer::lex;
use cal_parser::parse_file;
use cal_print::print_file;
use rvc_base::{Front, Memory};
use std::alloc::Global;

/// The file that a text spells.
pub(crate) fn file_of(alloc: Global, text: &[u8]) -> Result<File, Front> {
    if text.len() >= 1 << 32 {
        return Err(Front::Memory);
    }
    let tokens = lex(alloc, 1, text)?;
    parse_file(alloc, 1, &tokens, text.len() as u32)
}

/// A file with this body alone.
pub(crate) fn file_with(alloc: Global, body: Body) -> File {
    File {
        package: None,
        imports: Vec::new(alloc),
        body,
        at: 0,
    }
}

/// A unit with one member.
pub(crate) fn unit_with(alloc: Global, member: Member) -> Result<UnitFile, Memory> {
    let mut members = Vec::new(alloc);
    members.push(member)?;
    Ok(UnitFile {
        name: Ident {
            text: String::from_str(alloc, "U")?,
            at: 0,
        },
        members,
        at: 0,
    })
}

/// The text of a file, in one line.
pub(crate) fn printed(alloc: Global, file: &File) -> Result<String, Memory> {
    let bytes = print_file(alloc, file)?;
    let mut text = String::new(alloc);
    for byte in bytes {
        let c = if byte == b'\n' { ' ' } else { byte as char };
        text.push(c)?;
    }
    Ok(text)
}
