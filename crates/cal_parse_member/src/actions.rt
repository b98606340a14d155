//! Actions: what they take, what they send, their guards, variables and statements.

ghost use Rattle.std.specs.Prelude.{◌≡◌};
ghost use Rattle.cal_ast.specs.View.{action_tree, body_tree, expr_tree, optional_expr, output_tree, pattern_tree};
ghost use Rattle.cal_parse_member.specs.Bodies.{TellsOpening, TellsStart, TellsStep, after_arrow, after_opening};
ghost use Rattle.cal_grammar.specs.Rules.{in_body, out_body, part};
ghost use Rattle.cal_grammar.specs.Spells.{a_body, an_action, an_in, an_out, some_guards, some_repeat};
ghost use Rattle.cal_parse_base.specs.Tells.{Tells, each};

use cal_ast::{Action, Expr, Ident, Output, Pattern, Stmt};
use cal_lexer::{Token, Word};
use cal_parse_base::cursor::{expect, finish, is_name, is_word, name, take_word};
use cal_parse_base::fault::Fault;
use cal_parse_expr::expr::{expr, exprs};
use cal_parse_stmt::decls::some_vars;
use cal_parse_stmt::lists::{Read, any};
use cal_parse_stmt::names::{Separator, names};
use cal_parse_stmt::stmts::stmts;
use std::alloc::Global;

/// The guards of an action.
#[tactic(auto, using(cal_grammar::proofs::Reading::read_is))]
fn guards(alloc: Global, tokens: &mut &[Token], room: u32) -> Result<Vec<Expr>, Fault>
    ensures { Tells (each expr_tree) room (part some_guards) result tokens.old.now tokens.new.now }
{
    if !is_word(tokens, Word::Guard) {
        return Ok(Vec::new(alloc));
    }
    take_word(tokens, Word::Guard);
    exprs(alloc, tokens, room)
}

/// How many tokens each name or value of a port stands for, if `repeat` says so.
#[tactic(auto, using(cal_grammar::proofs::Reading::read_is))]
fn repeat(alloc: Global, tokens: &mut &[Token], room: u32) -> Result<Option<Expr>, Fault>
    ensures { Tells optional_expr room (part some_repeat) result tokens.old.now tokens.new.now }
{
    if !is_word(tokens, Word::Repeat) {
        return Ok(None);
    }
    take_word(tokens, Word::Repeat);
    Ok(Some(expr(alloc, tokens, room)?))
}

/// The statements of an action, behind its `do`.
#[tactic(auto, using(cal_grammar::proofs::Reading::read_is))]
fn action_body(alloc: Global, tokens: &mut &[Token], room: u32) -> Result<Option<Vec<Stmt>>, Fault>
    ensures { Tells body_tree room (part a_body) result tokens.old.now tokens.new.now }
{
    if !is_word(tokens, Word::Do) {
        return Ok(None);
    }
    take_word(tokens, Word::Do);
    Ok(Some(stmts(alloc, tokens, room)?))
}

/// A pattern or an output up to its `[`.
#[derive(Drop)]
pub struct Opening {
    /// The port that it names.
    port: Option<Ident>,
    /// The offset of its first byte.
    at: u32,
}

/// A pattern or an output up to its `[`.
fn read_opening(alloc: Global, tokens: &mut &[Token]) -> Result<Opening, Fault>
    ensures { TellsOpening result tokens.old.now tokens.new.now }
{
    if is_word(tokens, Word::LeftBracket) {
        let at = take_word(tokens, Word::LeftBracket);
        return Ok(Opening { port: None, at });
    }
    let port = name(alloc, tokens)?;
    expect(tokens, Word::Colon)?;
    expect(tokens, Word::LeftBracket)?;
    let at = port.at;
    Ok(Opening {
        port: Some(port),
        at,
    })
}

/// A pattern from its `[` on.
#[tactic(auto, using(cal_grammar::proofs::Reading::read_is))]
fn pattern_from(
    alloc: Global,
    tokens: &mut &[Token],
    room: u32,
    from: Opening,
) -> Result<Pattern, Fault>
    ensures { TellsStep pattern_tree room
        (after_opening in_body from) result tokens.old.now tokens.new.now }
{
    let names = names(alloc, tokens, Separator::Comma)?;
    expect(tokens, Word::RightBracket)?;
    let repeat = repeat(alloc, tokens, room)?;
    Ok(Pattern {
        port: from.port,
        names,
        repeat,
        at: from.at,
    })
}

/// What an action takes from one port.
fn pattern(alloc: Global, tokens: &mut &[Token], room: u32) -> Result<Pattern, Fault>
    ensures { Tells pattern_tree room (part an_in) result tokens.old.now tokens.new.now }
{
    let from = read_opening(alloc, tokens)?;
    pattern_from(alloc, tokens, room, from)
}

/// What an action takes from one port, as a part of a list.
struct PatternPart;

impl Read for PatternPart {
    ghost use Rattle.cal_ast.specs.View.{pattern_tree};
    ghost use Rattle.cal_grammar.specs.Spells.{an_in};

    type Value = Pattern;

    ghost part = { an_in };

    ghost tree = { pattern_tree };

    fn read(alloc: Global, tokens: &mut &[Token], room: u32) -> Result<Pattern, Fault> {
        pattern(alloc, tokens, room)
    }

    fn starts(tokens: &[Token]) -> bool {
        is_name(tokens) || is_word(tokens, Word::LeftBracket)
    }
}

/// An output from its `[` on.
#[tactic(auto, using(cal_grammar::proofs::Reading::read_is))]
fn output_from(
    alloc: Global,
    tokens: &mut &[Token],
    room: u32,
    to: Opening,
) -> Result<Output, Fault>
    ensures { TellsStep output_tree room
        (after_opening out_body to) result tokens.old.now tokens.new.now }
{
    let values = exprs(alloc, tokens, room)?;
    expect(tokens, Word::RightBracket)?;
    let repeat = repeat(alloc, tokens, room)?;
    Ok(Output {
        port: to.port,
        values,
        repeat,
        at: to.at,
    })
}

/// What an action sends to one port.
fn output(alloc: Global, tokens: &mut &[Token], room: u32) -> Result<Output, Fault>
    ensures { Tells output_tree room (part an_out) result tokens.old.now tokens.new.now }
{
    let to = read_opening(alloc, tokens)?;
    output_from(alloc, tokens, room, to)
}

/// What an action sends to one port, as a part of a list.
struct OutputPart;

impl Read for OutputPart {
    ghost use Rattle.cal_ast.specs.View.{output_tree};
    ghost use Rattle.cal_grammar.specs.Spells.{an_out};

    type Value = Output;

    ghost part = { an_out };

    ghost tree = { output_tree };

    fn read(alloc: Global, tokens: &mut &[Token], room: u32) -> Result<Output, Fault> {
        output(alloc, tokens, room)
    }

    fn starts(tokens: &[Token]) -> bool {
        is_name(tokens) || is_word(tokens, Word::LeftBracket)
    }
}

/// An action, or an `initialize`, up to its `==>`.
#[derive(Drop)]
pub struct Start {
    /// Whether it is an `initialize`.
    initialize: bool,
    patterns: Vec<Pattern>,
    /// The offset of its first byte.
    at: u32,
}

/// An action, or an `initialize`, up to its `==>`.
#[tactic(auto, using(cal_grammar::proofs::Reading::read_is))]
fn read_start(alloc: Global, tokens: &mut &[Token], room: u32) -> Result<Start, Fault>
    ensures { TellsStart room result tokens.old.now tokens.new.now }
{
    if is_word(tokens, Word::Action) {
        let at = take_word(tokens, Word::Action);
        let patterns = any::<PatternPart>(alloc, tokens, room)?;
        expect(tokens, Word::LongDoubleArrow)?;
        return Ok(Start {
            initialize: false,
            patterns,
            at,
        });
    }
    let at = expect(tokens, Word::Initialize)?;
    expect(tokens, Word::LongDoubleArrow)?;
    Ok(Start {
        initialize: true,
        patterns: Vec::new(alloc),
        at,
    })
}

impl Start {
    ghost use Rattle.std.specs.Prelude.{◌≡◌};
    ghost use Rattle.cal_parse_member.specs.Bodies.{opener};
    ghost use Rattle.cal_lexer.specs.Words.{lexeme_of};

    /// The word that it begins with.
    fn opener(&self) -> Word
        ensures { lexeme_of result ≡ opener self.now.initialize }
    {
        if self.initialize {
            Word::Initialize
        } else {
            Word::Action
        }
    }
}

/// An action from its `==>` on.
#[tactic(auto, using(cal_grammar::proofs::Reading::read_is))]
fn after_start(
    alloc: Global,
    tokens: &mut &[Token],
    room: u32,
    start: Start,
) -> Result<Action, Fault>
    ensures { TellsStep action_tree room (after_arrow start) result tokens.old.now tokens.new.now }
{
    let outputs = any::<OutputPart>(alloc, tokens, room)?;
    let guards = guards(alloc, tokens, room)?;
    let vars = some_vars(alloc, tokens, room)?;
    let body = action_body(alloc, tokens, room)?;
    if !finish(tokens, start.opener()) {
        return Err(Fault::Refused);
    }
    Ok(Action {
        tag: None,
        initialize: start.initialize,
        patterns: start.patterns,
        outputs,
        guards,
        vars,
        body,
        at: start.at,
    })
}

/// An action or an `initialize` without its tag.
pub fn action(alloc: Global, tokens: &mut &[Token], room: u32) -> Result<Action, Fault>
    ensures { Tells action_tree room (part an_action) result tokens.old.now tokens.new.now }
{
    let start = read_start(alloc, tokens, room)?;
    after_start(alloc, tokens, room, start)
}
