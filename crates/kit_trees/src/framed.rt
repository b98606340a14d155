//! Expressions and types within an actor, each read up to a height.

use crate::reading::fault;
use crate::writer::text_of;
use cal_ast::{Body, Expr, ExprForm, File, Member, Stmt, StmtForm, TypeArg, TypeExpr};
use cal_lexer::{Token, lex};
use cal_parser::{MAX_HEIGHT, parse_file};
use rvc_base::{Front, Memory};
use std::alloc::Global;

/// What a text in a frame is read as.
#[derive(Clone, Copy)]
pub enum Framed {
    Expr,
    Type,
    /// How many expressions with commas between them.
    Exprs,
    /// The same between parentheses, where there may be none.
    Args,
}

/// What stands before and behind a text, and in between, as often as it takes to leave the text so much room.
#[derive(Clone, Copy)]
pub struct Frame {
    pub before: &'static [u8],
    pub opens: &'static [u8],
    pub closes: &'static [u8],
    pub behind: &'static [u8],
}

/// Adds a text so many times.
fn add_times(text: &mut Vec<u8>, part: &[u8], times: u32) -> Result<(), Memory> {
    for _ in 0..times {
        text.extend_from_slice(part)?;
    }
    Ok(())
}

/// The text of so many parts of a frame, up to where a text begins in it.
fn before(alloc: Global, frame: &Frame, depth: u32) -> Result<Vec<u8>, Memory> {
    let mut out = Vec::new(alloc);
    out.extend_from_slice(frame.before)?;
    add_times(&mut out, frame.opens, depth)?;
    Ok(out)
}

/// A text, and what stands behind it in so many parts of a frame.
fn rest(alloc: Global, frame: &Frame, text: &[u8], depth: u32) -> Result<Vec<u8>, Memory> {
    let mut out = Vec::new(alloc);
    out.extend_from_slice(text)?;
    add_times(&mut out, frame.closes, depth)?;
    out.extend_from_slice(frame.behind)?;
    Ok(out)
}

/// The tokens of a text.
fn tokens_of(alloc: Global, text: &[u8]) -> Result<Vec<Token>, Front> {
    if text.len() >= 1 << 32 {
        return Err(Front::Memory);
    }
    lex(alloc, 1, text)
}

/// The tokens of two texts. Places are counted from where the second begins.
fn tokens_of_both(alloc: Global, before: &[u8], rest: &[u8]) -> Result<Vec<Token>, Front> {
    let mut tokens = tokens_of(alloc, before)?;
    for token in tokens_of(alloc, rest)? {
        if tokens.push(token).is_err() {
            return Err(Front::Memory);
        }
    }
    Ok(tokens)
}

/// The file that two texts spell. Places are counted from where the second begins.
fn parsed(alloc: Global, before: &[u8], rest: &[u8]) -> Result<File, Front> {
    if rest.len() >= 1 << 32 {
        return Err(Front::Memory);
    }
    let tokens = tokens_of_both(alloc, before, rest)?;
    parse_file(alloc, 1, &tokens, rest.len() as u32)
}

/// The first member of an actor.
fn first_member(file: &File) -> Option<&Member> {
    match &file.body {
        Body::Actor(actor) => actor.members.first(),
        Body::Unit(_) => None,
    }
}

/// What is asked of a member, as text.
fn shown(alloc: Global, asked: Framed, member: &Member, depth: u32) -> Result<String, Memory> {
    match asked {
        Framed::Expr => match start(member) {
            Some(outer) => shown_expr(alloc, outer, depth),
            None => another(alloc),
        },
        Framed::Type => match shape(member) {
            Some(outer) => shown_type(alloc, outer, depth),
            None => another(alloc),
        },
        Framed::Exprs => shown_count(alloc, guards(member)),
        Framed::Args => shown_count(alloc, arguments(member)),
    }
}

/// What is answered of a file without what is asked of it, which no row expects.
fn another(alloc: Global) -> Result<String, Memory> {
    Ok(String::from_str(alloc, "another file")?)
}

fn shown_expr(alloc: Global, outer: &Expr, depth: u32) -> Result<String, Memory> {
    match in_lists(outer, depth) {
        Some(found) => text_of(alloc, found),
        None => another(alloc),
    }
}

fn shown_type(alloc: Global, outer: &TypeExpr, depth: u32) -> Result<String, Memory> {
    match in_types(outer, depth) {
        Some(found) => text_of(alloc, found),
        None => another(alloc),
    }
}

fn shown_count(alloc: Global, count: Option<usize>) -> Result<String, Memory> {
    match count {
        Some(found) => Ok(format!(in alloc; "{found}")?),
        None => another(alloc),
    }
}

/// The start of a variable.
fn start(member: &Member) -> Option<&Expr> {
    match member {
        Member::Var(var) => var.start.as_ref(),
        _ => None,
    }
}

/// The type of a variable.
fn shape(member: &Member) -> Option<&TypeExpr> {
    match member {
        Member::Var(var) => Some(&var.shape),
        _ => None,
    }
}

/// How many guards an action has.
fn guards(member: &Member) -> Option<usize> {
    match member {
        Member::Action(action) => Some(action.guards.len()),
        _ => None,
    }
}

/// How many arguments the call has with which a procedure begins.
fn arguments(member: &Member) -> Option<usize> {
    match member {
        Member::Procedure(procedure) => match procedure.body.first() {
            Some(stmt) => given(stmt),
            None => None,
        },
        _ => None,
    }
}

/// How many arguments a call has.
fn given(stmt: &Stmt) -> Option<usize> {
    match &stmt.form {
        StmtForm::Call { name: _, args } => Some(args.len()),
        _ => None,
    }
}

/// The expression that stands in so many lists.
fn in_lists(outer: &Expr, depth: u32) -> Option<&Expr> {
    let mut found = outer;
    for _ in 0..depth {
        match &found.form {
            ExprForm::List(items) => match items.first() {
                Some(item) => found = item,
                None => return None,
            },
            _ => return None,
        }
    }
    Some(found)
}

/// The type that stands in so many types.
fn in_types(outer: &TypeExpr, depth: u32) -> Option<&TypeExpr> {
    let mut found = outer;
    for _ in 0..depth {
        match found.args.first() {
            Some(TypeArg::Shape { name: _, shape }) => found = shape,
            _ => return None,
        }
    }
    Some(found)
}

/// What is asked of the first member of a file, if it has one.
fn member_shown(alloc: Global, asked: Framed, file: &File, depth: u32) -> Result<String, Memory> {
    match first_member(file) {
        Some(member) => shown(alloc, asked, member, depth),
        None => another(alloc),
    }
}

/// What is read of a text in a frame, which may be so high, or the rule that it breaks and the place.
///
/// # Errors
///
/// `Memory` if memory runs out.
pub fn told_in(
    alloc: Global,
    asked: Framed,
    frame: &Frame,
    text: &[u8],
    room: u32,
) -> Result<String, Memory> {
    let depth = MAX_HEIGHT.saturating_sub(room);
    let before = before(alloc, frame, depth)?;
    let rest = rest(alloc, frame, text, depth)?;
    match parsed(alloc, &before, &rest) {
        Ok(file) => member_shown(alloc, asked, &file, depth),
        Err(why) => Ok(fault(alloc, why)?),
    }
}
