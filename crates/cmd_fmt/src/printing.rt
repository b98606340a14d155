//! The canonical text of a file.

ghost use Rattle.std.specs.Prelude.{◌≡◌, ◌≤◌, ℕ, [], IfOk, IfErr, IsOk, OnOk, length, map};
ghost use Rattle.std.specs.Result.{IsErrOf};
ghost use Rattle.rvc_io.specs.Told.{Told};
ghost use Rattle.rvc_io.specs.Count.{HasRisen};
ghost use Rattle.rvc_base.specs.declared.refusal.Refusal.{Refusal as Denial};
ghost use Rattle.cal_ast.specs.Tree.{Tree};
ghost use Rattle.cal_ast.specs.View.{file_tree};
ghost use Rattle.cal_lexer.specs.Lexeme.{plain_tokens};
ghost use Rattle.cal_lexer.specs.Lexes.{lexes};
ghost use Rattle.cal_print.specs.Canon.{canon};
ghost use Rattle.rvc_words.specs.Words.{port_text};
ghost use Rattle.cal_files.specs.FileText.{IsFile, IsRightly, IsText};
ghost use Rattle.cmd_ports.specs.Matching.{IsWrongWord};
ghost use Rattle.cmd_fmt.specs.Formatting.{HasFile, IsCanonical, IsPreparing, IsTextFault, IsUnprinted};
ghost use Rattle.cmd_report.specs.declared.status.ReadAt.{ReadAt as Where};

use crate::reading::{SOURCE_FILE, read_top};
use cal_ast::File;
use cal_lexer::{Token, lex};
use cal_parser::parse_file;
use cal_print::print_file;
use cmd_report::Status;
use rvc_base::{Front, Memory, Place, Refusal, Rule};
use rvc_io::{Library, MAX_FILE_BYTES};
use rvc_words::PortWord;
use std::alloc::Global;

/// The file that a text spells.
fn file_of(alloc: Global, text: &[u8]) -> Result<File, Front>
    requires { length text.now ≤ MAX_FILE_BYTES }
    ensures spelled { IfOk result (λ file. IsFile text.now (file_tree file)) }
    ensures refused { IfErr result (IsRightly SOURCE_FILE text.now) }
    ensures read { (tree : Tree) → IsFile text.now tree
        → IfErr result (λ front. front ≡ Front.Memory) }
{
    match lex(alloc, SOURCE_FILE, text) {
        Ok(tokens) => file_in(alloc, text, tokens.as_slice()),
        Err(front) => Err(front),
    }
}

/// The file that the tokens of a text spell.
fn file_in(alloc: Global, text: &[u8], tokens: &[Token]) -> Result<File, Front>
    requires short { length text.now ≤ MAX_FILE_BYTES }
    requires lexed { lexes text.now (plain_tokens tokens.now) }
    ensures spelled { IfOk result (λ file. IsFile text.now (file_tree file)) }
    ensures refused { IfErr result (IsRightly SOURCE_FILE text.now) }
    ensures read { (tree : Tree) → IsFile text.now tree
        → IfErr result (λ front. front ≡ Front.Memory) }
{
    parse_file(alloc, SOURCE_FILE, tokens, text.len() as u32)
}

/// An error refuses the first port word, since no port is opened.
fn check_no_words(words: &[PortWord]) -> Result<(), Refusal>
    ensures none { OnOk result (map port_text words.now ≡ []) }
    ensures wrong { IfErr result (IsWrongWord [] (map port_text words.now)) }
    ensures free { map port_text words.now ≡ [] → IsOk result }
{
    if words.is_empty() {
        return Ok(());
    }
    Err(Refusal {
        rule: Rule::UNKNOWN_PORT,
        place: Place { file: 0, offset: 0 },
    })
}

/// The canonical text of a file, if no words name ports.
fn print_alone(alloc: Global, file: &File, ports: &[PortWord]) -> Result<Vec<u8>, Status>
    ensures printed { IfOk result (λ printed. printed.items ≡ canon (file_tree file.now)) }
    ensures no_ports { OnOk result (map port_text ports.now ≡ []) }
    ensures refused { (refusal : Denial) → IsErrOf result (Status.Refused refusal)
        → IsWrongWord [] (map port_text ports.now) refusal }
    ensures only { IfErr result IsTextFault }
    ensures complete { map port_text ports.now ≡ []
        → IfErr result (λ status. status ≡ Status.OutOfMemory) }
{
    if let Err(refusal) = check_no_words(ports) {
        return Err(Status::Refused(refusal));
    }
    match print_file(alloc, file) {
        Ok(printed) => Ok(printed),
        Err(Memory) => Err(Status::OutOfMemory),
    }
}

/// The canonical text of the file that a text spells.
fn canonical_of(alloc: Global, text: &[u8], ports: &[PortWord]) -> Result<Vec<u8>, Status>
    requires { length text.now ≤ MAX_FILE_BYTES }
    ensures printed { (source : Told) → IsText source text.now
        → IfOk result (λ printed. IsCanonical source (map port_text ports.now) printed.items) }
    ensures refused { (source : Told) (misses_old misses_new : ℕ) (refusal : Denial)
        → IsText source text.now → IsErrOf result (Status.Refused refusal)
        → IsUnprinted (map port_text ports.now) source misses_old misses_new refusal }
    ensures only { IfErr result IsTextFault }
    ensures complete { (tree : Tree) → IsFile text.now tree → map port_text ports.now ≡ []
        → IfErr result (λ status. status ≡ Status.OutOfMemory) }
{
    match file_of(alloc, text) {
        Ok(file) => print_alone(alloc, &file, ports),
        Err(Front::Refused(refusal)) => Err(Status::Refused(refusal)),
        Err(Front::Memory) => Err(Status::OutOfMemory),
    }
}

/// The canonical text of the file of this name.
pub(crate) fn canonical_text<L: Library>(
    alloc: Global,
    top: &str,
    ports: &[PortWord],
    library: &mut L,
) -> Result<Vec<u8>, Status>
    ensures printed { IfOk result (λ printed. IsCanonical (L.file library.old top.now)
        (map port_text ports.now) printed.items) }
    ensures refused { (refusal : Denial) → IsErrOf result (Status.Refused refusal)
        → IsUnprinted (map port_text ports.now) (L.file library.old top.now) (L.misses library.old)
        (L.misses library.new) refusal }
    ensures fault { (place : Where) → IsErrOf result (Status.ReadFault place)
        → HasRisen (L.faults library.old) (L.faults library.new) }
    ensures only { IfErr result IsPreparing }
    ensures complete { (tree : Tree)
        → HasFile (L.file library.old top.now) (map port_text ports.now) tree
        → (HasRisen (L.faults library.old) (L.faults library.new) → ⊥)
        → IfErr result (λ status. status ≡ Status.OutOfMemory) }
{
    match read_top(alloc, top, library) {
        Ok(text) => canonical_of(alloc, text.as_slice(), ports),
        Err(status) => Err(status),
    }
}
