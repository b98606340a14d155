//! Statements.

ghost use Rattle.std.specs.Prelude.{◌≡◌, ◌≤◌};
ghost use Rattle.cal_ast.specs.View.{body_tree, expr_tree, ident_tree, stmt_tree, var_tree};
ghost use Rattle.cal_lexer.specs.Lexeme.{Lexeme, placed};
ghost use Rattle.cal_parse_base.specs.Cursor.{stands};
ghost use Rattle.cal_parse_stmt.specs.Pieces as pieces;
ghost use Rattle.cal_parse_stmt.specs.Pieces.{Does, DoesIf, Leads, LeadsRange};
ghost use Rattle.cal_grammar.specs.Rules.{block_body, foreach_body, named, named_stmt_body, part, starts_stmt, while_body};
ghost use Rattle.cal_grammar.specs.Spells as spells;
ghost use Rattle.cal_grammar.specs.Spells.{a_place, a_stmt, repeated};
ghost use Rattle.cal_parse_base.specs.Tells.{Tells, each};
ghost use Rattle.cal_lexer.specs.Words.{lexeme_of};

use crate::decls::VarPart;
use crate::lists::separated;
use crate::names::Separator;
use cal_ast::{Expr, Ident, Stmt, StmtForm, TypeExpr, VarDecl};
use cal_lexer::{Token, Word};
use cal_parse_base::cursor::{expect, finish, is_name, is_word, name, take_word};
use cal_parse_base::fault::Fault;
use cal_parse_expr::expr::{args, expr, type_expr};
use std::alloc::Global;

/// What a `foreach` runs over: `shape name in from .. to`.
#[derive(Drop)]
struct Bounds {
    shape: TypeExpr,
    name: Ident,
    from: Expr,
    to: Expr,
}

/// Whether a statement begins at the front.
fn is_stmt(tokens: &[Token]) -> bool
    ensures { result ≡ stands starts_stmt tokens.now }
{
    is_name(tokens)
        || is_word(tokens, Word::If)
        || is_word(tokens, Word::While)
        || is_word(tokens, Word::Foreach)
        || is_word(tokens, Word::Begin)
}

/// Any number of statements, each of a height of at most `room`.
///
/// # Errors
///
/// [`Fault::Refused`] or [`Fault::TooHigh`], and `tokens` then begin with what can't follow or is too high;
/// [`Fault::Memory`] if memory runs out.
#[cycle(stmt)]
pub fn stmts(alloc: Global, tokens: &mut &[Token], room: u32) -> Result<Vec<Stmt>, Fault>
    ensures { Tells (each stmt_tree) room
        (part (repeated a_stmt)) result tokens.old.now tokens.new.now }
{
    let mut found = Vec::new(alloc);
    'all: while is_stmt(tokens) {
        if room == 0 {
            return Err(Fault::TooHigh);
        }
        let next = stmt(alloc, tokens, room)?;
        found.push(next)?;
    }
    Ok(found)
}

/// A statement, if there is room for one.
#[cycle(stmt)]
fn stmt(alloc: Global, tokens: &mut &[Token], room: u32) -> Result<Stmt, Fault>
    requires { 1 ≤ room }
    ensures { Tells stmt_tree room (part a_stmt) result tokens.old.now tokens.new.now }
{
    if is_name(tokens) {
        return named_stmt(alloc, tokens, room);
    }
    if is_word(tokens, Word::If) {
        let at = take_word(tokens, Word::If);
        return if_rest(alloc, tokens, room, at);
    }
    if is_word(tokens, Word::While) {
        let at = take_word(tokens, Word::While);
        return while_rest(alloc, tokens, room, at);
    }
    if is_word(tokens, Word::Foreach) {
        let at = take_word(tokens, Word::Foreach);
        return foreach_rest(alloc, tokens, room, at);
    }
    if is_word(tokens, Word::Begin) {
        let at = take_word(tokens, Word::Begin);
        return block_rest(alloc, tokens, room, at);
    }
    Err(Fault::Refused)
}

/// An `if` behind its first word.
#[cycle(stmt)]
fn if_rest(alloc: Global, tokens: &mut &[Token], room: u32, at: u32) -> Result<Stmt, Fault>
    requires { 1 ≤ room }
    ensures { DoesIf room at result tokens.old.now tokens.new.now }
{
    let test = expr_before(alloc, tokens, room, Word::Then)?;
    let yes = stmts(alloc, tokens, room - 1)?;
    let no = otherwise(alloc, tokens, room - 1)?;
    Ok(Stmt {
        form: StmtForm::If { test, yes, no },
        at,
    })
}

/// What is done if the test of an `if` fails, up to the end of the `if`.
#[cycle(stmt)]
fn otherwise(alloc: Global, tokens: &mut &[Token], room: u32) -> Result<Option<Vec<Stmt>>, Fault>
    ensures { Tells body_tree room (part spells.otherwise) result tokens.old.now tokens.new.now }
{
    if finish(tokens, Word::If) {
        return Ok(None);
    }
    if is_word(tokens, Word::Else) {
        take_word(tokens, Word::Else);
        return else_rest(alloc, tokens, room);
    }
    if !is_word(tokens, Word::Elsif) {
        return Err(Fault::Refused);
    }
    if room == 0 {
        return Err(Fault::TooHigh);
    }
    let at = take_word(tokens, Word::Elsif);
    let test = if_rest(alloc, tokens, room, at)?;
    let mut no = Vec::new(alloc);
    no.push(test)?;
    Ok(Some(no))
}

/// What stands behind `else`, up to the end of the `if`.
#[cycle(stmt)]
fn else_rest(alloc: Global, tokens: &mut &[Token], room: u32) -> Result<Option<Vec<Stmt>>, Fault>
    ensures { Does body_tree room pieces.else_rest result tokens.old.now tokens.new.now }
{
    let no = stmts(alloc, tokens, room)?;
    if !finish(tokens, Word::If) {
        return Err(Fault::Refused);
    }
    Ok(Some(no))
}

/// A `while` behind its first word.
#[cycle(stmt)]
fn while_rest(alloc: Global, tokens: &mut &[Token], room: u32, at: u32) -> Result<Stmt, Fault>
    requires { 1 ≤ room }
    ensures { Does stmt_tree room (while_body (placed Lexeme.While at)) result tokens.old.now
        tokens.new.now }
{
    let test = expr_before(alloc, tokens, room, Word::Do)?;
    let body = body_before(alloc, tokens, room, Word::While)?;
    Ok(Stmt {
        form: StmtForm::While { test, body },
        at,
    })
}

/// A `foreach` behind its first word.
#[cycle(stmt)]
fn foreach_rest(alloc: Global, tokens: &mut &[Token], room: u32, at: u32) -> Result<Stmt, Fault>
    requires { 1 ≤ room }
    ensures { Does stmt_tree room (foreach_body (placed Lexeme.Foreach at)) result tokens.old.now
        tokens.new.now }
{
    let over = range(alloc, tokens, room)?;
    let body = body_before(alloc, tokens, room, Word::Foreach)?;
    Ok(Stmt {
        form: StmtForm::Foreach {
            shape: over.shape,
            name: over.name,
            from: over.from,
            to: over.to,
            body,
        },
        at,
    })
}

/// A block behind its first word.
#[cycle(stmt)]
fn block_rest(alloc: Global, tokens: &mut &[Token], room: u32, at: u32) -> Result<Stmt, Fault>
    requires { 1 ≤ room }
    ensures { Does stmt_tree room (block_body (placed Lexeme.Begin at)) result tokens.old.now
        tokens.new.now }
{
    let vars = block_vars(alloc, tokens, room)?;
    let body = body_before(alloc, tokens, room, Word::Begin)?;
    Ok(Stmt {
        form: StmtForm::Block { vars, body },
        at,
    })
}

/// The statements inside of another one, and the end of what begins with this word.
#[cycle(stmt)]
fn body_before(
    alloc: Global,
    tokens: &mut &[Token],
    room: u32,
    opener: Word,
) -> Result<Vec<Stmt>, Fault>
    requires { 1 ≤ room }
    ensures { Leads (each stmt_tree) room
        (pieces.body_then (lexeme_of opener)) result tokens.old.now tokens.new.now }
{
    let found = stmts(alloc, tokens, room - 1)?;
    if !finish(tokens, opener) {
        return Err(Fault::Refused);
    }
    Ok(found)
}

/// An expression inside a statement, and the word behind it.
fn expr_before(alloc: Global, tokens: &mut &[Token], room: u32, word: Word) -> Result<Expr, Fault>
    requires { 1 ≤ room }
    ensures { Leads expr_tree room
        (pieces.expr_then (lexeme_of word)) result tokens.old.now tokens.new.now }
{
    let found = expr(alloc, tokens, room - 1)?;
    if !is_word(tokens, word) {
        return Err(Fault::Refused);
    }
    take_word(tokens, word);
    Ok(found)
}

/// What a `foreach` runs over, and the `do` behind it.
fn range(alloc: Global, tokens: &mut &[Token], room: u32) -> Result<Bounds, Fault>
    requires { 1 ≤ room }
    ensures { LeadsRange room result tokens.old.now tokens.new.now }
{
    let shape = type_expr(alloc, tokens, room - 1)?;
    let name = name(alloc, tokens)?;
    expect(tokens, Word::In)?;
    let from = expr_before(alloc, tokens, room, Word::DotDot)?;
    let to = expr_before(alloc, tokens, room, Word::Do)?;
    Ok(Bounds {
        shape,
        name,
        from,
        to,
    })
}

/// The variables of a block with the `do` behind them, or none.
fn block_vars(alloc: Global, tokens: &mut &[Token], room: u32) -> Result<Vec<VarDecl>, Fault>
    requires { 1 ≤ room }
    ensures { Leads (each var_tree) room pieces.vars_then result tokens.old.now tokens.new.now }
{
    if !is_word(tokens, Word::Var) {
        return Ok(Vec::new(alloc));
    }
    take_word(tokens, Word::Var);
    let vars = separated::<VarPart>(alloc, tokens, room - 1, Separator::Comma)?;
    expect(tokens, Word::Do)?;
    Ok(vars)
}

/// A statement that begins with a name: a call or an assignment.
fn named_stmt(alloc: Global, tokens: &mut &[Token], room: u32) -> Result<Stmt, Fault>
    requires { 1 ≤ room }
    ensures { Does stmt_tree room (named named_stmt_body) result tokens.old.now tokens.new.now }
{
    let name = name(alloc, tokens)?;
    if is_word(tokens, Word::LeftParen) {
        take_word(tokens, Word::LeftParen);
        return call_rest(alloc, tokens, room, name);
    }
    assign_rest(alloc, tokens, room, name)
}

/// A call behind its name and a parenthesis.
fn call_rest(alloc: Global, tokens: &mut &[Token], room: u32, name: Ident) -> Result<Stmt, Fault>
    requires { 1 ≤ room }
    ensures { Does stmt_tree room (pieces.call_rest (ident_tree name) name.at) result tokens.old.now
        tokens.new.now }
{
    let given = args(alloc, tokens, room - 1)?;
    expect(tokens, Word::RightParen)?;
    expect(tokens, Word::Semicolon)?;
    let at = name.at;
    Ok(Stmt {
        form: StmtForm::Call { name, args: given },
        at,
    })
}

/// An assignment behind its name.
fn assign_rest(alloc: Global, tokens: &mut &[Token], room: u32, name: Ident) -> Result<Stmt, Fault>
    requires { 1 ≤ room }
    ensures { Does stmt_tree room (pieces.assign_rest (ident_tree name) name.at) result
        tokens.old.now tokens.new.now }
{
    let found = places(alloc, tokens, room - 1)?;
    expect(tokens, Word::Assign)?;
    let value = expr_before(alloc, tokens, room, Word::Semicolon)?;
    let at = name.at;
    Ok(Stmt {
        form: StmtForm::Assign {
            name,
            places: found,
            value,
        },
        at,
    })
}

/// The indices behind the name of what is assigned.
fn places(alloc: Global, tokens: &mut &[Token], room: u32) -> Result<Vec<Expr>, Fault>
    ensures { Tells (each expr_tree) room
        (part (repeated a_place)) result tokens.old.now tokens.new.now }
{
    let mut found = Vec::new(alloc);
    'places: while is_word(tokens, Word::LeftBracket) {
        let next = place(alloc, tokens, room)?;
        found.push(next)?;
    }
    Ok(found)
}

/// An index: an expression in brackets.
fn place(alloc: Global, tokens: &mut &[Token], room: u32) -> Result<Expr, Fault>
    ensures { Tells expr_tree room (part a_place) result tokens.old.now tokens.new.now }
{
    expect(tokens, Word::LeftBracket)?;
    let found = expr(alloc, tokens, room)?;
    expect(tokens, Word::RightBracket)?;
    Ok(found)
}
