//! Members of actors and units.

ghost use Rattle.std.specs.Prelude.{◌≡◌, true};
ghost use Rattle.cal_ast.specs.View.{action_tree, function_tree, ident_tree, member_tree, procedure_tree, var_tree};
ghost use Rattle.cal_parse_member.specs.Bodies.{TellsStep, after_label, after_type};
ghost use Rattle.cal_parse_base.specs.Cursor.{stands};
ghost use Rattle.cal_grammar.specs.Rules.{named, named_member_body, part, starts_member as starts_a_member};
ghost use Rattle.cal_grammar.specs.Spells.{a_function, a_member, a_name, a_procedure, a_unit_member, dot, members as members_of, rest};
ghost use Rattle.cal_parse_base.specs.Tells.{Tells, each};

use crate::actions::action;
use crate::schedules::{priority, schedule};
use cal_ast::{Action, Function, Ident, Member, Procedure, Tag, VarDecl};
use cal_lexer::{Token, TokenKind, Word};
use cal_parse_base::cursor::{expect, finish, is_name, is_word, name, take_word};
use cal_parse_base::fault::Fault;
use cal_parse_expr::expr::{expr, type_after, type_expr};
use cal_parse_stmt::decls::{ports, some_vars, var, var_after};
use cal_parse_stmt::lists::Read;
use cal_parse_stmt::names::{Separator, names};
use cal_parse_stmt::stmts::stmts;
use std::alloc::Global;

/// A function.
#[tactic(auto, using(cal_grammar::proofs::Reading::read_is))]
fn function(alloc: Global, tokens: &mut &[Token], room: u32) -> Result<Function, Fault>
    ensures { Tells function_tree room (part a_function) result tokens.old.now tokens.new.now }
{
    let at = expect(tokens, Word::Function)?;
    let name = name(alloc, tokens)?;
    expect(tokens, Word::LeftParen)?;
    let formals = ports(alloc, tokens, room)?;
    expect(tokens, Word::RightParen)?;
    expect(tokens, Word::LongArrow)?;
    let shape = type_expr(alloc, tokens, room)?;
    let vars = some_vars(alloc, tokens, room)?;
    expect(tokens, Word::Colon)?;
    let body = expr(alloc, tokens, room)?;
    if !finish(tokens, Word::Function) {
        return Err(Fault::Refused);
    }
    Ok(Function {
        name,
        formals,
        result: shape,
        vars,
        body,
        at,
    })
}

/// A procedure.
#[tactic(auto, using(cal_grammar::proofs::Reading::read_is))]
fn procedure(alloc: Global, tokens: &mut &[Token], room: u32) -> Result<Procedure, Fault>
    ensures { Tells procedure_tree room (part a_procedure) result tokens.old.now tokens.new.now }
{
    let at = expect(tokens, Word::Procedure)?;
    let name = name(alloc, tokens)?;
    expect(tokens, Word::LeftParen)?;
    let formals = ports(alloc, tokens, room)?;
    expect(tokens, Word::RightParen)?;
    let vars = some_vars(alloc, tokens, room)?;
    expect(tokens, Word::Begin)?;
    let body = stmts(alloc, tokens, room)?;
    if !finish(tokens, Word::Procedure) {
        return Err(Fault::Refused);
    }
    Ok(Procedure {
        name,
        formals,
        vars,
        body,
        at,
    })
}

/// What follows the first name of a tag.
#[tactic(auto, using(cal_grammar::proofs::Reading::read_is))]
fn more_names(alloc: Global, tokens: &mut &[Token], room: u32) -> Result<Vec<Ident>, Fault>
    ensures { Tells (each ident_tree) room
        (part (rest dot a_name)) result tokens.old.now tokens.new.now }
{
    if !is_word(tokens, Word::Dot) {
        return Ok(Vec::new(alloc));
    }
    take_word(tokens, Word::Dot);
    names(alloc, tokens, Separator::Dot)
}

/// An action behind the first name of its tag.
#[tactic(auto, using(cal_grammar::proofs::Reading::read_is))]
fn labelled_action(
    alloc: Global,
    tokens: &mut &[Token],
    room: u32,
    first: Ident,
) -> Result<Action, Fault>
    ensures { TellsStep action_tree room (after_label first) result tokens.old.now tokens.new.now }
{
    let mut parts = more_names(alloc, tokens, room)?;
    expect(tokens, Word::Colon)?;
    let found = action(alloc, tokens, room)?;
    let at = first.at;
    parts.insert(0, first)?;
    Ok(Action {
        tag: Some(Tag { parts, at }),
        initialize: found.initialize,
        patterns: found.patterns,
        outputs: found.outputs,
        guards: found.guards,
        vars: found.vars,
        body: found.body,
        at,
    })
}

/// A variable behind the name of its type.
#[tactic(auto, using(cal_grammar::proofs::Reading::read_is))]
fn variable(alloc: Global, tokens: &mut &[Token], room: u32, first: Ident) -> Result<VarDecl, Fault>
    ensures { TellsStep var_tree room (after_type first) result tokens.old.now tokens.new.now }
{
    let shape = type_after(alloc, tokens, room, first)?;
    let found = var_after(alloc, tokens, room, shape)?;
    expect(tokens, Word::Semicolon)?;
    Ok(found)
}

/// A member that begins with a name: a variable, or an action under a tag.
#[tactic(auto, using(cal_grammar::proofs::Reading::read_is))]
fn named_member(alloc: Global, tokens: &mut &[Token], room: u32) -> Result<Member, Fault>
    ensures { TellsStep member_tree room
        (named named_member_body) result tokens.old.now tokens.new.now }
{
    let first = name(alloc, tokens)?;
    if is_word(tokens, Word::Dot) || is_word(tokens, Word::Colon) {
        return Ok(Member::Action(labelled_action(alloc, tokens, room, first)?));
    }
    if is_word(tokens, Word::LeftParen) || is_name(tokens) {
        if room < 1 {
            return Err(Fault::TooHigh);
        }
        return Ok(Member::Var(variable(alloc, tokens, room, first)?));
    }
    Err(Fault::Refused)
}

/// Whether a member of an actor begins here, its schedule apart.
fn starts_member(tokens: &[Token]) -> bool
    ensures { result ≡ stands starts_a_member tokens.now }
{
    match tokens.first() {
        None => false,
        Some(token) => match &token.kind {
            TokenKind::Name(_) => true,
            TokenKind::Function => true,
            TokenKind::Procedure => true,
            TokenKind::Action => true,
            TokenKind::Initialize => true,
            TokenKind::Priority => true,
            _ => false,
        },
    }
}

/// A member of an actor, but for its schedule.
#[tactic(auto, using(cal_grammar::proofs::Reading::read_is))]
fn member(alloc: Global, tokens: &mut &[Token], room: u32) -> Result<Member, Fault>
    ensures { Tells member_tree room (part a_member) result tokens.old.now tokens.new.now }
{
    if is_name(tokens) {
        named_member(alloc, tokens, room)
    } else if is_word(tokens, Word::Function) {
        Ok(Member::Function(function(alloc, tokens, room)?))
    } else if is_word(tokens, Word::Procedure) {
        Ok(Member::Procedure(procedure(alloc, tokens, room)?))
    } else if is_word(tokens, Word::Action) || is_word(tokens, Word::Initialize) {
        Ok(Member::Action(action(alloc, tokens, room)?))
    } else {
        Ok(Member::Priority(priority(alloc, tokens, room)?))
    }
}

/// The members of an actor, among which one schedule may stand, each of a height of at most `room`.
///
/// # Errors
///
/// [`Fault::Refused`] or [`Fault::TooHigh`], and `tokens` then begin with what can't follow or is too high;
/// [`Fault::Memory`] if memory runs out.
pub fn members(alloc: Global, tokens: &mut &[Token], room: u32) -> Result<Vec<Member>, Fault>
    ensures { Tells (each member_tree) room
        (part (members_of true)) result tokens.old.now tokens.new.now }
{
    let mut found = Vec::new(alloc);
    let mut may_schedule = true;
    'members: loop {
        if starts_member(tokens) {
            let next = member(alloc, tokens, room)?;
            found.push(next)?;
            continue;
        }
        if !may_schedule {
            return Ok(found);
        }
        if !is_word(tokens, Word::Schedule) {
            return Ok(found);
        }
        let last = schedule(alloc, tokens, room)?;
        found.push(Member::Schedule(last))?;
        may_schedule = false;
    }
}

/// A member of a unit: a variable or a function.
#[tactic(auto, using(cal_grammar::proofs::Reading::read_is))]
fn unit_member(alloc: Global, tokens: &mut &[Token], room: u32) -> Result<Member, Fault>
    ensures { Tells member_tree room (part a_unit_member) result tokens.old.now tokens.new.now }
{
    if is_word(tokens, Word::Function) {
        return Ok(Member::Function(function(alloc, tokens, room)?));
    }
    let found = var(alloc, tokens, room)?;
    expect(tokens, Word::Semicolon)?;
    Ok(Member::Var(found))
}

/// A member of a unit, as a part of a list.
pub struct UnitMemberPart;

impl Read for UnitMemberPart {
    ghost use Rattle.cal_ast.specs.View.{member_tree};
    ghost use Rattle.cal_grammar.specs.Spells.{a_unit_member};

    type Value = Member;

    ghost part = { a_unit_member };

    ghost tree = { member_tree };

    fn read(alloc: Global, tokens: &mut &[Token], room: u32) -> Result<Member, Fault> {
        unit_member(alloc, tokens, room)
    }

    fn starts(tokens: &[Token]) -> bool {
        is_name(tokens) || is_word(tokens, Word::Function)
    }
}
