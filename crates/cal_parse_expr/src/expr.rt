//! Expressions, generators, and types with their arguments.
//!
//! Each recursion passes through a room that is less by one. A run of opening parentheses is taken at
//! once, so any number of pairs is read without recursion.

ghost use Rattle.std.specs.Prelude.{◌≡◌, ◌≤◌, IfOk, false, string_bytes, true};
ghost use Rattle.cal_ast.specs.View.{expr_tree, type_tree};
ghost use Rattle.cal_lexer.specs.Lexeme.{If, LeftBracket, LeftParen, plain_tokens};
ghost use Rattle.cal_grammar.specs.Program.{check, take};
ghost use Rattle.cal_parse_base.specs.Cursor.{stands};
ghost use Rattle.cal_grammar.specs.Rules.{if_body, list_body, name_body, part, places, type_tail};
ghost use Rattle.cal_grammar.specs.Spells.{a_gen, a_primary, a_type, a_type_arg, an_expr, any, comma, level, separated};
ghost use Rattle.cal_parse_base.specs.Pairs.{tall_tree};
ghost use Rattle.cal_parse_expr.specs.Steps.{Answers, Does, Reads, climbs, each_expr, each_gen, each_type_arg, tall_gen, tall_type, tall_type_arg};
ghost use Rattle.cal_parse_base.specs.Tells.{Tells, boxed, each};
ghost use Rattle.cal_grammar.specs.Token.{names, same_word};

use crate::forms::{
    before_exprs, called, comprehension, conditional, indexed, listing, no_exprs, operation,
    prefixed, with_expr,
};
use crate::leaves::{number, truth, variable};
use crate::pairs::close_pair;
use crate::tall::{
    MeasuredExprs, MeasuredGen, MeasuredGens, MeasuredType, MeasuredTypeArg, MeasuredTypeArgs,
};
use crate::types::{
    bare_type, closed_type, generated, no_gens, no_type_args, shape_arg, value_arg, with_gen,
    with_type_arg,
};
use cal_ast::{Expr, Ident, TypeExpr};
use cal_lexer::{Token, Word};
use cal_parse_base::cursor::{expect, is_name, is_number, is_word, name, take_word};
use cal_parse_base::fault::Fault;
use cal_parse_base::leading::{leading_name, leading_word, starts_expr};
use cal_parse_base::operators::{LOOSEST, is_operator, is_prefix, take_operator, take_prefix};
use cal_parse_base::pairs::take_opens;
use cal_parse_base::tall::MeasuredExpr;
use std::alloc::Global;

/// An expression.
pub fn expr(alloc: Global, tokens: &mut &[Token], room: u32) -> Result<Expr, Fault>
    ensures { Tells expr_tree room (part an_expr) result tokens.old.now tokens.new.now }
{
    let found = boxed_expr(alloc, tokens, room)?;
    Ok(Box::into_inner(found))
}

/// An expression, on the heap.
pub fn boxed_expr(alloc: Global, tokens: &mut &[Token], room: u32) -> Result<Box<Expr>, Fault>
    ensures { Tells (boxed expr_tree) room (part an_expr) result tokens.old.now tokens.new.now }
{
    let found = level_expr(alloc, tokens, room, LOOSEST)?;
    Ok(found.expr)
}

/// One expression or more, with commas between them.
pub fn exprs(alloc: Global, tokens: &mut &[Token], room: u32) -> Result<Vec<Expr>, Fault>
    ensures { Tells (each expr_tree) room
        (part (separated comma an_expr)) result tokens.old.now tokens.new.now }
{
    let found = tall_exprs(alloc, tokens, room)?;
    Ok(found.exprs)
}

/// Any number of expressions, with commas between them.
pub fn args(alloc: Global, tokens: &mut &[Token], room: u32) -> Result<Vec<Expr>, Fault>
    ensures { Tells (each expr_tree) room
        (part (any comma an_expr)) result tokens.old.now tokens.new.now }
{
    let found = tall_args(alloc, tokens, room)?;
    Ok(found.exprs)
}

/// A type.
pub fn type_expr(alloc: Global, tokens: &mut &[Token], room: u32) -> Result<TypeExpr, Fault>
    ensures { Tells type_tree room (part a_type) result tokens.old.now tokens.new.now }
{
    let found = tall_type(alloc, tokens, room)?;
    Ok(found.shape)
}

/// A type whose name is taken.
pub fn type_after(
    alloc: Global,
    tokens: &mut &[Token],
    room: u32,
    name: Ident,
) -> Result<TypeExpr, Fault>
    ensures { Tells type_tree room
        (type_tail (string_bytes name.text) name.at) result tokens.old.now tokens.new.now }
{
    if !is_word(tokens, Word::LeftParen) {
        let found = bare_type(alloc, name);
        return Ok(found.shape);
    }
    take_word(tokens, Word::LeftParen);
    let args = type_args(alloc, tokens, room.saturating_sub(1))?;
    let found = closed_type(tokens, room, name, args)?;
    Ok(found.shape)
}

/// Binary operations of this level and of tighter ones; 0 for an operand with its prefixes.
#[cycle(reading)]
fn level_expr(
    alloc: Global,
    tokens: &mut &[Token],
    room: u32,
    top: u8,
) -> Result<MeasuredExpr, Fault>
    ensures told { Reads tall_tree room (part (level top)) result tokens.old.now tokens.new.now }
    ensures low { IfOk result (λ x. x.high ≤ room) }
{
    let mut opens = take_opens(alloc, tokens)?;
    let mut found = operand(alloc, tokens, room)?;
    'pairs: while let Some(at) = opens.pop() {
        let inner = operations(alloc, tokens, room, LOOSEST, found)?;
        let pair = close_pair(alloc, tokens, room, at, inner)?;
        let next = indexes(alloc, tokens, room, pair)?;
        found = next;
    }
    operations(alloc, tokens, room, top, found)
}

/// What stands behind a left side: the binary operations of this level and of tighter ones.
#[cycle(reading)]
fn operations(
    alloc: Global,
    tokens: &mut &[Token],
    room: u32,
    top: u8,
    first: MeasuredExpr,
) -> Result<MeasuredExpr, Fault>
    requires { first.high ≤ room }
    ensures told { Answers tall_tree
        (climbs room 0 top (tall_tree first) (plain_tokens tokens.old.now)) result tokens.new.now }
    ensures low { IfOk result (λ x. x.high ≤ room) }
{
    let mut left = first;
    let mut n = 0;
    'levels: while n < top {
        if !is_operator(tokens, n) {
            n += 1;
            continue;
        }
        let op = take_operator(tokens, room, n, left.high)?;
        let right = level_expr(alloc, tokens, room - 1, n)?;
        let next = operation(alloc, room, op, left, right)?;
        left = next;
    }
    Ok(left)
}

/// What stands behind an operand: its indexes.
#[cycle(reading)]
fn indexes(
    alloc: Global,
    tokens: &mut &[Token],
    room: u32,
    first: MeasuredExpr,
) -> Result<MeasuredExpr, Fault>
    requires { first.high ≤ room }
    ensures told { Reads tall_tree room
        (places (tall_tree first)) result tokens.old.now tokens.new.now }
    ensures low { IfOk result (λ x. x.high ≤ room) }
{
    let mut base = first;
    'places: while is_word(tokens, Word::LeftBracket) {
        if base.high >= room {
            return Err(Fault::TooHigh);
        }
        take_word(tokens, Word::LeftBracket);
        let place = level_expr(alloc, tokens, room - 1, LOOSEST)?;
        let next = indexed(alloc, tokens, room, base, place)?;
        base = next;
    }
    Ok(base)
}

/// An operand with its prefixes and indexes, which begins with no parenthesis.
#[cycle(reading)]
fn operand(alloc: Global, tokens: &mut &[Token], room: u32) -> Result<MeasuredExpr, Fault>
    requires { stands (same_word LeftParen) tokens.old.now ≡ false }
    ensures told { Reads tall_tree room (part (level 0)) result tokens.old.now tokens.new.now }
    ensures low { IfOk result (λ x. x.high ≤ room) }
{
    if is_prefix(tokens) {
        let operator = take_prefix(tokens, room)?;
        let of = level_expr(alloc, tokens, room - 1, 0)?;
        let found = prefixed(alloc, room, operator, of)?;
        return Ok(found);
    }
    let first = primary(alloc, tokens, room)?;
    indexes(alloc, tokens, room, first)
}

/// An operand without prefixes and indexes, which begins with no parenthesis.
#[cycle(reading)]
fn primary(alloc: Global, tokens: &mut &[Token], room: u32) -> Result<MeasuredExpr, Fault>
    requires { stands (same_word LeftParen) tokens.old.now ≡ false }
    ensures told { Reads tall_tree room (part a_primary) result tokens.old.now tokens.new.now }
    ensures low { IfOk result (λ x. x.high ≤ room) }
{
    if is_number(tokens) {
        return number(alloc, tokens, room);
    }
    if is_name(tokens) {
        return named(alloc, tokens, room);
    }
    if is_word(tokens, Word::True) {
        return truth(alloc, tokens, room, true);
    }
    if is_word(tokens, Word::False) {
        return truth(alloc, tokens, room, false);
    }
    if is_word(tokens, Word::If) {
        return choice(alloc, tokens, room);
    }
    if is_word(tokens, Word::LeftBracket) {
        return bracketed(alloc, tokens, room);
    }
    Err(Fault::Refused)
}

/// A variable or a call.
#[cycle(reading)]
fn named(alloc: Global, tokens: &mut &[Token], room: u32) -> Result<MeasuredExpr, Fault>
    requires { stands names tokens.old.now ≡ true }
    ensures told { Does tall_tree room
        (check 1 (take name_body)) result tokens.old.now tokens.new.now }
    ensures low { IfOk result (λ x. x.high ≤ room) }
{
    let name = leading_name(alloc, tokens, room)?;
    if !is_word(tokens, Word::LeftParen) {
        let found = variable(alloc, name)?;
        return Ok(found);
    }
    take_word(tokens, Word::LeftParen);
    let args = tall_args(alloc, tokens, room - 1)?;
    called(alloc, tokens, room, name, args)
}

/// An `if`.
#[cycle(reading)]
fn choice(alloc: Global, tokens: &mut &[Token], room: u32) -> Result<MeasuredExpr, Fault>
    requires { stands (same_word If) tokens.old.now ≡ true }
    ensures told { Does tall_tree room
        (check 1 (take if_body)) result tokens.old.now tokens.new.now }
    ensures low { IfOk result (λ x. x.high ≤ room) }
{
    let at = leading_word(tokens, room, Word::If)?;
    let test = level_expr(alloc, tokens, room - 1, LOOSEST)?;
    expect(tokens, Word::Then)?;
    let yes = level_expr(alloc, tokens, room - 1, LOOSEST)?;
    expect(tokens, Word::Else)?;
    let no = level_expr(alloc, tokens, room - 1, LOOSEST)?;
    conditional(alloc, tokens, room, at, test, yes, no)
}

/// A list or a comprehension.
#[cycle(reading)]
fn bracketed(alloc: Global, tokens: &mut &[Token], room: u32) -> Result<MeasuredExpr, Fault>
    requires { stands (same_word LeftBracket) tokens.old.now ≡ true }
    ensures told { Does tall_tree room
        (check 1 (take list_body)) result tokens.old.now tokens.new.now }
    ensures low { IfOk result (λ x. x.high ≤ room) }
{
    let at = leading_word(tokens, room, Word::LeftBracket)?;
    let first = level_expr(alloc, tokens, room - 1, LOOSEST)?;
    if is_word(tokens, Word::Colon) {
        take_word(tokens, Word::Colon);
        let gens = tall_gens(alloc, tokens, room - 1)?;
        return comprehension(alloc, tokens, room, at, first, gens);
    }
    if !is_word(tokens, Word::Comma) {
        let alone = with_expr(no_exprs(alloc), first)?;
        return listing(alloc, tokens, room, at, alone);
    }
    take_word(tokens, Word::Comma);
    let others = tall_exprs(alloc, tokens, room - 1)?;
    let items = before_exprs(first, others)?;
    listing(alloc, tokens, room, at, items)
}

/// Any number of expressions, with commas between them.
#[cycle(reading)]
fn tall_args(alloc: Global, tokens: &mut &[Token], room: u32) -> Result<MeasuredExprs, Fault>
    ensures told { Reads each_expr room
        (part (any comma an_expr)) result tokens.old.now tokens.new.now }
    ensures low { IfOk result (λ xs. xs.high ≤ room) }
{
    if !starts_expr(tokens) {
        return Ok(no_exprs(alloc));
    }
    tall_exprs(alloc, tokens, room)
}

/// One expression or more, with commas between them.
#[cycle(reading)]
fn tall_exprs(alloc: Global, tokens: &mut &[Token], room: u32) -> Result<MeasuredExprs, Fault>
    ensures told { Reads each_expr room
        (part (separated comma an_expr)) result tokens.old.now tokens.new.now }
    ensures low { IfOk result (λ xs. xs.high ≤ room) }
{
    let mut found = no_exprs(alloc);
    'exprs: loop {
        let next = level_expr(alloc, tokens, room, LOOSEST)?;
        let more = with_expr(found, next)?;
        found = more;
        if !is_word(tokens, Word::Comma) {
            return Ok(found);
        }
        take_word(tokens, Word::Comma);
    }
}

/// One generator or more, with commas between them.
#[cycle(reading)]
fn tall_gens(alloc: Global, tokens: &mut &[Token], room: u32) -> Result<MeasuredGens, Fault>
    ensures told { Reads each_gen room
        (part (separated comma a_gen)) result tokens.old.now tokens.new.now }
    ensures low { IfOk result (λ xs. xs.high ≤ room) }
{
    let mut found = no_gens(alloc);
    'gens: loop {
        let next = generator(alloc, tokens, room)?;
        let more = with_gen(found, next)?;
        found = more;
        if !is_word(tokens, Word::Comma) {
            return Ok(found);
        }
        take_word(tokens, Word::Comma);
    }
}

/// A generator.
#[cycle(reading)]
fn generator(alloc: Global, tokens: &mut &[Token], room: u32) -> Result<MeasuredGen, Fault>
    ensures told { Reads tall_gen room (part a_gen) result tokens.old.now tokens.new.now }
    ensures low { IfOk result (λ x. x.high ≤ room) }
{
    let at = expect(tokens, Word::For)?;
    let shape = tall_type(alloc, tokens, room)?;
    let name = name(alloc, tokens)?;
    expect(tokens, Word::In)?;
    let from = level_expr(alloc, tokens, room, LOOSEST)?;
    expect(tokens, Word::DotDot)?;
    let to = level_expr(alloc, tokens, room, LOOSEST)?;
    let found = generated(alloc, at, shape, name, from, to)?;
    Ok(found)
}

/// A type.
#[cycle(reading)]
fn tall_type(alloc: Global, tokens: &mut &[Token], room: u32) -> Result<MeasuredType, Fault>
    ensures told { Reads tall_type room (part a_type) result tokens.old.now tokens.new.now }
    ensures low { IfOk result (λ x. x.high ≤ room) }
{
    if !is_name(tokens) {
        return Err(Fault::Refused);
    }
    let name = leading_name(alloc, tokens, room)?;
    if !is_word(tokens, Word::LeftParen) {
        return Ok(bare_type(alloc, name));
    }
    take_word(tokens, Word::LeftParen);
    let args = type_args(alloc, tokens, room - 1)?;
    closed_type(tokens, room, name, args)
}

/// One argument of a type or more, with commas between them.
#[cycle(reading)]
fn type_args(alloc: Global, tokens: &mut &[Token], room: u32) -> Result<MeasuredTypeArgs, Fault>
    ensures told { Reads each_type_arg room
        (part (separated comma a_type_arg)) result tokens.old.now tokens.new.now }
    ensures low { IfOk result (λ xs. xs.high ≤ room) }
{
    let mut found = no_type_args(alloc);
    'items: loop {
        let next = type_arg(alloc, tokens, room)?;
        let more = with_type_arg(found, next)?;
        found = more;
        if !is_word(tokens, Word::Comma) {
            return Ok(found);
        }
        take_word(tokens, Word::Comma);
    }
}

/// An argument of a type.
#[cycle(reading)]
fn type_arg(alloc: Global, tokens: &mut &[Token], room: u32) -> Result<MeasuredTypeArg, Fault>
    ensures told { Reads tall_type_arg room (part a_type_arg) result tokens.old.now tokens.new.now }
    ensures low { IfOk result (λ x. x.high ≤ room) }
{
    let name = name(alloc, tokens)?;
    if is_word(tokens, Word::Colon) {
        take_word(tokens, Word::Colon);
        let shape = tall_type(alloc, tokens, room)?;
        let found = shape_arg(alloc, name, shape)?;
        return Ok(found);
    }
    expect(tokens, Word::Equal)?;
    let value = level_expr(alloc, tokens, room, LOOSEST)?;
    let found = value_arg(alloc, name, value)?;
    Ok(found)
}
