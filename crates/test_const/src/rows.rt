//! One way from the text of an expression to its answer as text.

use crate::names::add_words;
use crate::table::answered;
use cal_ast::Expr;
use cal_model::{Kind, Value, Values};
use const_eval::{ConstFault, Env, KindFault, eval_const, kind_const};
use kit_trees::{BEFORE, expression};
use std::alloc::{AllocError, Global};
use std::process::Abort;

/// What is asked of an expression.
#[derive(Clone, Copy)]
pub(crate) enum Asked {
    Value,
    Kind,
}

/// A value as text; lists inside lists as `..`.
fn shown(alloc: Global, value: &Value) -> Result<String, AllocError> {
    match value {
        Value::List(values) => list_shown(alloc, values),
        other => single_shown(alloc, other),
    }
}

fn single_shown(alloc: Global, value: &Value) -> Result<String, AllocError> {
    match value {
        Value::Num(number) => format!(in alloc; "{number}"),
        Value::Bool(truth) => format!(in alloc; "{truth}"),
        Value::List(_) => String::from_str(alloc, ".."),
    }
}

fn list_shown(alloc: Global, values: &Values) -> Result<String, AllocError> {
    let mut text = String::from_str(alloc, "[")?;
    for item in &values.items {
        if text.len() > 1 {
            text.push_str(", ")?;
        }
        let item = single_shown(alloc, item)?;
        text.push_str(item.as_str())?;
    }
    text.push_str("]")?;
    Ok(text)
}

/// The value of an expression, or why it has none.
fn value_shown(alloc: Global, env: &Env, e: &Expr) -> Result<String, AllocError> {
    match eval_const(alloc, env, e) {
        Ok(value) => shown(alloc, &value),
        Err(ConstFault::Trap(trap)) => format!(in alloc; "{trap:?}"),
        Err(ConstFault::NotConstant) => String::from_str(alloc, "NotConstant"),
        Err(ConstFault::Memory) => String::from_str(alloc, "Memory"),
    }
}

/// The kind of an expression, or the rule that it breaks with its place in the text of the row.
fn kind_shown(alloc: Global, env: &Env, e: &Expr) -> Result<String, AllocError> {
    match kind_const(alloc, env, e) {
        Ok(kind) => kind_text(alloc, &kind),
        Err(KindFault::Broken { rule, at }) => {
            let place = at.saturating_sub(BEFORE.len() as u32);
            format!(in alloc; "{rule} at {place}")
        }
        Err(KindFault::Memory) => String::from_str(alloc, "Memory"),
    }
}

fn kind_text(alloc: Global, kind: &Kind) -> Result<String, AllocError> {
    format!(in alloc; "{kind:?}")
}

/// The expression that a text spells.
pub(crate) fn spelled(rt: &impl Abort, alloc: Global, text: &str) -> Expr {
    let found = expression(alloc, text).expect(rt, "memory");
    found.expect(rt, "an expression")
}

/// The answer for an expression.
fn answer(alloc: Global, env: &Env, asked: Asked, e: &Expr) -> Result<String, AllocError> {
    match asked {
        Asked::Value => value_shown(alloc, env, e),
        Asked::Kind => kind_shown(alloc, env, e),
    }
}

/// Stops unless an expression has its answer.
fn hold_row(rt: &impl Abort, alloc: Global, env: &Env, asked: Asked, row: &str) {
    let (text, want) = answered(row);
    let e = spelled(rt, alloc, text);
    let found = answer(alloc, env, asked, &e).expect(rt, "an answer");
    let holds = found.as_str() == want;
    assert!(rt; holds, "{text} gives {found}");
}

/// Stops at the first expression of a table whose answer over an environment is another.
fn hold_over(rt: &impl Abort, alloc: Global, env: &Env, asked: Asked, table: &str) {
    for row in table.split("\n# ") {
        if !row.is_empty() {
            hold_row(rt, alloc, env, asked, row);
        }
    }
}

/// The same over an environment to which the names are added that these words stand for.
fn hold_with(
    rt: &impl Abort,
    alloc: Global,
    env: &mut Env,
    words: &str,
    asked: Asked,
    table: &str,
) {
    add_words(rt, env, alloc, words);
    hold_over(rt, alloc, env, asked, table);
}

/// The same over the names that these words stand for.
pub(crate) fn hold(rt: &impl Abort, alloc: Global, words: &str, asked: Asked, table: &str) {
    let mut env = Env::new(alloc);
    hold_with(rt, alloc, &mut env, words, asked, table);
}
