//! Files: the package, the imports, and an actor or a unit.

ghost use Rattle.std.specs.Prelude.{◌≡◌, IfOk, map, option_map};
ghost use Rattle.cal_ast.specs.Tree.{listed};
ghost use Rattle.cal_ast.specs.View.{actor_tree, file_body_tree, file_tree, ident_tree, import_tree, optional, tag_tree, unit_tree};
ghost use Rattle.cal_print.specs.Canon.{canon};
ghost use Rattle.cal_print.specs.Tokens.{words, dotted, last_name, packaged};
ghost use Rattle.cal_print.specs.Writes.{Writes};

use crate::member::print_members;
use crate::name::{print_ident, print_tag};
use crate::part::print_joined;
use crate::writer::Writer;
use cal_ast::{Actor, Body, File, Ident, Import, Tag, UnitFile};
use cal_lexer::Word;
use rvc_base::Memory;
use std::alloc::Global;

/// The canonical text of a file, as bytes of ASCII.
///
/// Its tokens are those of the tree in order (the CAL Language Report, the grammar), with no comment and no blank but
/// these: LF behind each `;` and each `end`, and one space behind every other token. Each end is written `end`, an
/// `elsif` as an `if` in its `else` with an `end` of its own, and `or`, `and` and `/` in place of their second
/// spellings. Numbers are decimal. A pair of parentheses stands where the tree holds one, round each operand of an
/// operation that is itself an operation or an `if`, and round such a base of an index.
///
/// # Errors
///
/// `Memory` if memory runs out.
///
/// # Examples
///
/// ```
/// let alloc = rt.alloc();
/// let text = b"unit U : int X = (1+0xA) div 2; endunit";
/// let tokens = lex(alloc, 1, text)?;
/// let file = parse_file(alloc, 1, &tokens, text.len() as u32)?;
/// let printed = print_file(alloc, &file)?;
/// let canonical = b"unit U : int X = ( 1 + 10 ) / 2 ;\nend\n";
/// assert!(rt; printed.as_slice() == canonical.as_slice());
/// ```
pub fn print_file(alloc: Global, file: &File) -> Result<Vec<u8>, Memory>
    ensures { IfOk result (λ text. text.items ≡ canon (file_tree file.now)) }
{
    let mut out = Writer::new(alloc);
    print_whole(file, &mut out);
    out.into_bytes()
}

/// Prints a file.
fn print_whole(file: &File, out: &mut Writer)
    ensures { Writes out.old (words (file_tree file.now)) out.new }
{
    print_package(&file.package, out);
    print_imports(&file.imports, out);
    print_body(&file.body, out);
}

/// Prints `package tag ;`, or nothing if the file has no package.
fn print_package(named: &Option<Tag>, out: &mut Writer)
    ensures { Writes out.old (packaged (optional (option_map tag_tree named.now))) out.new }
{
    if let Some(tag) = named {
        out.put(Word::Package);
        print_tag(tag, out);
        out.put(Word::Semicolon);
    }
}

/// Prints imports one behind the other.
fn print_imports(imports: &[Import], out: &mut Writer)
    ensures { Writes out.old (words (listed (map import_tree imports.now))) out.new }
{
    for import in imports {
        print_import(import, out);
    }
}

/// Prints an import.
fn print_import(import: &Import, out: &mut Writer)
    ensures { Writes out.old (words (import_tree import.now)) out.new }
{
    out.put(Word::Import);
    print_path(&import.path, out);
    print_last(&import.last, out);
    out.put(Word::Semicolon);
}

/// Prints names, each with a dot behind it.
fn print_path(path: &[Ident], out: &mut Writer)
    ensures { Writes out.old (dotted (listed (map ident_tree path.now))) out.new }
{
    for name in path {
        print_ident(name, out);
        out.put(Word::Dot);
    }
}

/// Prints the last name of an import, or `*`.
fn print_last(last: &Option<Ident>, out: &mut Writer)
    ensures { Writes out.old (last_name (optional (option_map ident_tree last.now))) out.new }
{
    match last {
        Some(name) => print_ident(name, out),
        None => out.put(Word::Star),
    }
}

/// Prints an actor or a unit.
fn print_body(body: &Body, out: &mut Writer)
    ensures { Writes out.old (words (file_body_tree body.now)) out.new }
{
    match body {
        Body::Actor(a) => print_actor(a, out),
        Body::Unit(u) => print_unit(u, out),
    }
}

/// Prints an actor.
fn print_actor(actor: &Actor, out: &mut Writer)
    ensures { Writes out.old (words (actor_tree actor.now)) out.new }
{
    out.put(Word::Actor);
    print_ident(&actor.name, out);
    out.put(Word::LeftParen);
    print_joined(&actor.params, Word::Comma, out);
    out.put(Word::RightParen);
    print_joined(&actor.ins, Word::Comma, out);
    out.put(Word::LongDoubleArrow);
    print_joined(&actor.outs, Word::Comma, out);
    out.put(Word::Colon);
    print_members(&actor.members, out);
    out.put(Word::End);
}

/// Prints a unit.
fn print_unit(unit: &UnitFile, out: &mut Writer)
    ensures { Writes out.old (words (unit_tree unit.now)) out.new }
{
    out.put(Word::Unit);
    print_ident(&unit.name, out);
    out.put(Word::Colon);
    print_members(&unit.members, out);
    out.put(Word::End);
}
