//! The tree that a file's text spells.

ghost use Rattle.std.specs.Prelude.{◌≤◌, IfErr, IfOk, length};
ghost use Rattle.cal_ast.specs.View.{file_tree};
ghost use Rattle.cal_lexer.specs.Lexeme.{plain_tokens};
ghost use Rattle.cal_lexer.specs.Lexes.{lexes};
ghost use Rattle.cal_files.specs.FileText.{IsFile, IsRightly};

use cal_ast::File;
use cal_lexer::{Token, lex};
use cal_parser::parse_file;
use rvc_base::Front;
use rvc_io::MAX_FILE_BYTES;
use std::alloc::Global;

/// The file that the tokens of a text spell.
fn file_in(alloc: Global, number: u32, text: &[u8], tokens: &[Token]) -> Result<File, Front>
    requires short { length text.now ≤ MAX_FILE_BYTES }
    requires lexed { lexes text.now (plain_tokens tokens.now) }
    ensures spelled { IfOk result (λ file. IsFile text.now (file_tree file)) }
    ensures refused { IfErr result (IsRightly number text.now) }
{
    parse_file(alloc, number, tokens, text.len() as u32)
}

/// The file that the text of the file of a number spells.
///
/// # Errors
///
/// `Refused`: the rule of the lexis, or else of the grammar, that the text breaks (`refused`). `Memory`: an allocation was
/// refused.
pub fn tree_of(alloc: Global, number: u32, text: &[u8]) -> Result<File, Front>
    requires { length text.now ≤ MAX_FILE_BYTES }
    ensures spelled { IfOk result (λ file. IsFile text.now (file_tree file)) }
    ensures refused { IfErr result (IsRightly number text.now) }
{
    match lex(alloc, number, text) {
        Ok(tokens) => file_in(alloc, number, text, tokens.as_slice()),
        Err(front) => Err(front),
    }
}
