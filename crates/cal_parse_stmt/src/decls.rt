//! What is declared: variables, parameters and ports.

ghost use Rattle.std.specs.Prelude.{◌≡◌};
ghost use Rattle.cal_ast.specs.Places.{begins};
ghost use Rattle.cal_ast.specs.Tree as tree;
ghost use Rattle.cal_ast.specs.Tree.{present};
ghost use Rattle.cal_ast.specs.View.{ident_tree, param_tree, port_tree, type_tree, var_tree};
ghost use Rattle.cal_parse_stmt.specs.Pieces.{Does, value_then};
ghost use Rattle.cal_grammar.specs.Rules.{part, var_tail};
ghost use Rattle.cal_grammar.specs.Spells.{a_param, a_port, a_var, any, comma, some_vars as some_vars_part};
ghost use Rattle.cal_parse_base.specs.Tells.{Tells, each};

use crate::lists::{Read, any, separated};
use crate::names::Separator;
use cal_ast::{Ident, Param, PortDecl, TypeExpr, VarDecl};
use cal_lexer::{Token, Word};
use cal_parse_base::cursor::{is_name, is_word, name, take_word};
use cal_parse_base::fault::Fault;
use cal_parse_expr::expr::{expr, type_expr};
use std::alloc::Global;

/// A variable of a height of at most `room`.
///
/// # Errors
///
/// [`Fault::Refused`] or [`Fault::TooHigh`], and `tokens` then begin with what can't follow or is too high;
/// [`Fault::Memory`] if memory runs out.
pub fn var(alloc: Global, tokens: &mut &[Token], room: u32) -> Result<VarDecl, Fault>
    ensures { Tells var_tree room (part a_var) result tokens.old.now tokens.new.now }
{
    let shape = type_expr(alloc, tokens, room)?;
    var_after(alloc, tokens, room, shape)
}

/// A variable of a height of at most `room` behind its type, which is read before.
///
/// # Errors
///
/// [`Fault::Refused`] or [`Fault::TooHigh`], and `tokens` then begin with what can't follow or is too high;
/// [`Fault::Memory`] if memory runs out.
pub fn var_after(
    alloc: Global,
    tokens: &mut &[Token],
    room: u32,
    shape: TypeExpr,
) -> Result<VarDecl, Fault>
    ensures { Tells var_tree room (var_tail (type_tree shape)) result tokens.old.now
        tokens.new.now }
{
    let name = name(alloc, tokens)?;
    if is_word(tokens, Word::Assign) {
        take_word(tokens, Word::Assign);
        return var_with_start(alloc, tokens, room, shape, name, true);
    }
    if is_word(tokens, Word::Equal) {
        take_word(tokens, Word::Equal);
        return var_with_start(alloc, tokens, room, shape, name, false);
    }
    let at = place_of(&shape);
    Ok(VarDecl {
        shape,
        name,
        start: None,
        changes: true,
        at,
    })
}

/// The first value of a variable, which makes it whole.
fn var_with_start(
    alloc: Global,
    tokens: &mut &[Token],
    room: u32,
    shape: TypeExpr,
    name: Ident,
    changes: bool,
) -> Result<VarDecl, Fault>
    ensures { Does var_tree room (value_then
        (λ x. tree.var (type_tree shape) (ident_tree name) (present x) changes
        (begins (type_tree shape)))) result tokens.old.now tokens.new.now }
{
    let start = expr(alloc, tokens, room)?;
    let at = place_of(&shape);
    Ok(VarDecl {
        shape,
        name,
        start: Some(start),
        changes,
        at,
    })
}

/// The offset of a type.
fn place_of(shape: &TypeExpr) -> u32
    ensures { result ≡ begins (type_tree shape.now) }
{
    shape.at
}

/// A variable, as a part of a list.
pub(crate) struct VarPart;

impl Read for VarPart {
    ghost use Rattle.cal_ast.specs.View.{var_tree};
    ghost use Rattle.cal_grammar.specs.Spells.{a_var};

    type Value = VarDecl;

    ghost part = { a_var };

    ghost tree = { var_tree };

    fn read(alloc: Global, tokens: &mut &[Token], room: u32) -> Result<VarDecl, Fault> {
        var(alloc, tokens, room)
    }

    fn starts(tokens: &[Token]) -> bool {
        is_name(tokens)
    }
}

/// The variables behind `var`, or none if that word doesn't come.
///
/// # Errors
///
/// [`Fault::Refused`] or [`Fault::TooHigh`], and `tokens` then begin with what can't follow or is too high;
/// [`Fault::Memory`] if memory runs out.
pub fn some_vars(alloc: Global, tokens: &mut &[Token], room: u32) -> Result<Vec<VarDecl>, Fault>
    ensures { Tells (each var_tree) room
        (part some_vars_part) result tokens.old.now tokens.new.now }
{
    if !is_word(tokens, Word::Var) {
        return Ok(Vec::new(alloc));
    }
    take_word(tokens, Word::Var);
    separated::<VarPart>(alloc, tokens, room, Separator::Comma)
}

/// A parameter of an actor.
fn param(alloc: Global, tokens: &mut &[Token], room: u32) -> Result<Param, Fault>
    ensures { Tells param_tree room (part a_param) result tokens.old.now tokens.new.now }
{
    let shape = type_expr(alloc, tokens, room)?;
    let at = place_of(&shape);
    let name = name(alloc, tokens)?;
    if !is_word(tokens, Word::Equal) {
        return Ok(Param {
            shape,
            name,
            start: None,
            at,
        });
    }
    take_word(tokens, Word::Equal);
    let start = expr(alloc, tokens, room)?;
    Ok(Param {
        shape,
        name,
        start: Some(start),
        at,
    })
}

/// A parameter, as a part of a list.
struct ParamPart;

impl Read for ParamPart {
    ghost use Rattle.cal_ast.specs.View.{param_tree};
    ghost use Rattle.cal_grammar.specs.Spells.{a_param};

    type Value = Param;

    ghost part = { a_param };

    ghost tree = { param_tree };

    fn read(alloc: Global, tokens: &mut &[Token], room: u32) -> Result<Param, Fault> {
        param(alloc, tokens, room)
    }

    fn starts(tokens: &[Token]) -> bool {
        is_name(tokens)
    }
}

/// Any number of parameters, with commas between them.
///
/// # Errors
///
/// [`Fault::Refused`] or [`Fault::TooHigh`], and `tokens` then begin with what can't follow or is too high;
/// [`Fault::Memory`] if memory runs out.
pub fn params(alloc: Global, tokens: &mut &[Token], room: u32) -> Result<Vec<Param>, Fault>
    ensures { Tells (each param_tree) room
        (part (any comma a_param)) result tokens.old.now tokens.new.now }
{
    any::<ParamPart>(alloc, tokens, room)
}

/// A port of an actor, or a formal parameter.
fn port(alloc: Global, tokens: &mut &[Token], room: u32) -> Result<PortDecl, Fault>
    ensures { Tells port_tree room (part a_port) result tokens.old.now tokens.new.now }
{
    let shape = type_expr(alloc, tokens, room)?;
    let at = place_of(&shape);
    let name = name(alloc, tokens)?;
    Ok(PortDecl { shape, name, at })
}

/// A port or a formal parameter, as a part of a list.
struct PortPart;

impl Read for PortPart {
    ghost use Rattle.cal_ast.specs.View.{port_tree};
    ghost use Rattle.cal_grammar.specs.Spells.{a_port};

    type Value = PortDecl;

    ghost part = { a_port };

    ghost tree = { port_tree };

    fn read(alloc: Global, tokens: &mut &[Token], room: u32) -> Result<PortDecl, Fault> {
        port(alloc, tokens, room)
    }

    fn starts(tokens: &[Token]) -> bool {
        is_name(tokens)
    }
}

/// Any number of ports or formal parameters, with commas between them.
///
/// # Errors
///
/// [`Fault::Refused`] or [`Fault::TooHigh`], and `tokens` then begin with what can't follow or is too high;
/// [`Fault::Memory`] if memory runs out.
pub fn ports(alloc: Global, tokens: &mut &[Token], room: u32) -> Result<Vec<PortDecl>, Fault>
    ensures { Tells (each port_tree) room
        (part (any comma a_port)) result tokens.old.now tokens.new.now }
{
    any::<PortPart>(alloc, tokens, room)
}
