//! Files: their package, their imports, and the actor or unit that they declare.

ghost use Rattle.std.specs.Prelude.{◌≡◌, map};
ghost use Rattle.cal_grammar.specs.Program.{ahead};
ghost use Rattle.cal_ast.specs.Tree.{listed};
ghost use Rattle.cal_ast.specs.View.{actor_tree, file_body_tree, file_tree, import_tree, unit_tree};
ghost use Rattle.cal_grammar.specs.Operators.{first_place};
ghost use Rattle.cal_lexer.specs.Lexeme.{plain_tokens};
ghost use Rattle.cal_parser.specs.ImportPath.{body_part, path_tree};
ghost use Rattle.cal_grammar.specs.Rules.{at_end, part, whole as a_whole_file};
ghost use Rattle.cal_grammar.specs.Spells.{a_file, a_path, a_unit, an_actor, an_import, some_imports};
ghost use Rattle.cal_parse_base.specs.Tells.{Tells};

use cal_ast::{Actor, Body, File, Ident, Import, UnitFile};
use cal_lexer::{Token, Word};
use cal_parse_base::cursor::{expect, finish, is_word, name, take_word};
use cal_parse_base::fault::Fault;
use cal_parse_member::members::{UnitMemberPart, members};
use cal_parse_stmt::decls::{params, ports};
use cal_parse_stmt::lists::{Read, repeated};
use cal_parse_stmt::names::tag;
use std::alloc::Global;

/// What follows the first name of an import.
#[derive(Drop)]
pub struct Path {
    names: Vec<Ident>,
    /// Absent for `*`.
    last: Option<Ident>,
}

/// What follows the first name of an import: names, or at last `*`, with a dot before each.
fn read_path(alloc: Global, tokens: &mut &[Token], room: u32) -> Result<Path, Fault>
    ensures { Tells path_tree room (part a_path) result tokens.old.now tokens.new.now }
{
    let mut names = Vec::new(alloc);
    'path: loop {
        expect(tokens, Word::Dot)?;
        if is_word(tokens, Word::Star) {
            take_word(tokens, Word::Star);
            return Ok(Path { names, last: None });
        }
        let next = name(alloc, tokens)?;
        if !is_word(tokens, Word::Dot) {
            return Ok(Path {
                names,
                last: Some(next),
            });
        }
        names.push(next)?;
    }
}

/// An import.
#[tactic(auto, using(cal_grammar::proofs::Reading::read_is))]
fn import(alloc: Global, tokens: &mut &[Token], room: u32) -> Result<Import, Fault>
    ensures { Tells import_tree room (part an_import) result tokens.old.now tokens.new.now }
{
    let at = expect(tokens, Word::Import)?;
    let first = name(alloc, tokens)?;
    let found = read_path(alloc, tokens, room)?;
    expect(tokens, Word::Semicolon)?;
    let mut path = found.names;
    path.insert(0, first)?;
    Ok(Import {
        path,
        last: found.last,
        at,
    })
}

/// An import, as a part of a list.
struct ImportPart;

impl Read for ImportPart {
    ghost use Rattle.cal_ast.specs.View.{import_tree};
    ghost use Rattle.cal_grammar.specs.Spells.{an_import};

    type Value = Import;

    ghost part = { an_import };

    ghost tree = { import_tree };

    fn read(alloc: Global, tokens: &mut &[Token], room: u32) -> Result<Import, Fault> {
        import(alloc, tokens, room)
    }

    fn starts(tokens: &[Token]) -> bool {
        is_word(tokens, Word::Import)
    }
}

/// An actor.
#[tactic(auto, using(cal_grammar::proofs::Reading::read_is))]
fn actor(alloc: Global, tokens: &mut &[Token], room: u32) -> Result<Actor, Fault>
    ensures { Tells actor_tree room (part an_actor) result tokens.old.now tokens.new.now }
{
    let at = expect(tokens, Word::Actor)?;
    let name = name(alloc, tokens)?;
    expect(tokens, Word::LeftParen)?;
    let params = params(alloc, tokens, room)?;
    expect(tokens, Word::RightParen)?;
    let ins = ports(alloc, tokens, room)?;
    expect(tokens, Word::LongDoubleArrow)?;
    let outs = ports(alloc, tokens, room)?;
    expect(tokens, Word::Colon)?;
    let members = members(alloc, tokens, room)?;
    if !finish(tokens, Word::Actor) {
        return Err(Fault::Refused);
    }
    Ok(Actor {
        name,
        params,
        ins,
        outs,
        members,
        at,
    })
}

/// A unit.
#[tactic(auto, using(cal_grammar::proofs::Reading::read_is))]
fn unit(alloc: Global, tokens: &mut &[Token], room: u32) -> Result<UnitFile, Fault>
    ensures { Tells unit_tree room (part a_unit) result tokens.old.now tokens.new.now }
{
    let at = expect(tokens, Word::Unit)?;
    let name = name(alloc, tokens)?;
    expect(tokens, Word::Colon)?;
    let members = repeated::<UnitMemberPart>(alloc, tokens, room)?;
    if !finish(tokens, Word::Unit) {
        return Err(Fault::Refused);
    }
    Ok(UnitFile { name, members, at })
}

/// The actor or the unit of a file.
fn body(alloc: Global, tokens: &mut &[Token], room: u32) -> Result<Body, Fault>
    ensures { Tells file_body_tree room
        (part (body_part tokens.old.now)) result tokens.old.now tokens.new.now }
{
    if is_word(tokens, Word::Actor) {
        Ok(Body::Actor(actor(alloc, tokens, room)?))
    } else {
        Ok(Body::Unit(unit(alloc, tokens, room)?))
    }
}

/// The offset of the first import, or of the body if there is none.
fn first_offset(imports: &[Import], body: &Body) -> u32
    ensures { result ≡ first_place (listed (map import_tree imports.now))
        (file_body_tree body.now) }
{
    match imports.first() {
        Some(import) => import.at,
        None => match body {
            Body::Actor(actor) => actor.at,
            Body::Unit(unit) => unit.at,
        },
    }
}

/// The imports of a file, and its body.
#[tactic(auto, using(cal_grammar::proofs::Reading::read_is))]
fn imports_and_body(alloc: Global, tokens: &mut &[Token], room: u32) -> Result<File, Fault>
    ensures { Tells file_tree room (part some_imports) result tokens.old.now tokens.new.now }
{
    let imports = repeated::<ImportPart>(alloc, tokens, room)?;
    let body = body(alloc, tokens, room)?;
    let at = first_offset(&imports, &body);
    Ok(File {
        package: None,
        imports,
        body,
        at,
    })
}

/// A file.
#[tactic(auto, using(cal_grammar::proofs::Reading::read_is))]
fn file(alloc: Global, tokens: &mut &[Token], room: u32) -> Result<File, Fault>
    ensures { Tells file_tree room (part a_file) result tokens.old.now tokens.new.now }
{
    if !is_word(tokens, Word::Package) {
        return imports_and_body(alloc, tokens, room);
    }
    let at = take_word(tokens, Word::Package);
    let package = tag(alloc, tokens)?;
    expect(tokens, Word::Semicolon)?;
    let found = imports_and_body(alloc, tokens, room)?;
    Ok(File {
        package: Some(package),
        imports: found.imports,
        body: found.body,
        at,
    })
}

/// Whether no token is left.
pub(crate) fn is_at_end(tokens: &[Token]) -> bool
    ensures { result ≡ at_end (ahead (plain_tokens tokens.now)) }
{
    match tokens.first() {
        None => true,
        Some(_) => false,
    }
}

/// A file, and nothing behind it.
#[tactic(auto, using(cal_grammar::proofs::Reading::read_is))]
pub fn whole(alloc: Global, tokens: &mut &[Token], room: u32) -> Result<File, Fault>
    ensures { Tells file_tree room a_whole_file result tokens.old.now tokens.new.now }
{
    let found = file(alloc, tokens, room)?;
    if is_at_end(tokens) {
        Ok(found)
    } else {
        Err(Fault::Refused)
    }
}
