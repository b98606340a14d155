//! Expressions and types with each name written out in full.

use crate::faults::fault_shown;
use crate::files::{file_of, file_with, printed, unit_with};
use crate::table::within;
use cal_ast::{Body, File, Member, VarDecl};
use cal_scope::{FileNames, ScopeFault, resolve_expr, resolve_type};
use rvc_base::Memory;
use std::alloc::Global;

/// What stands before an expression in its file.
const BEFORE: &str = "unit U : int X = ";

/// What stands before a type in its file.
const BEFORE_TYPE: &str = "unit U : ";

/// The variable that a unit declares first.
fn variable_of(file: &File) -> Option<&VarDecl> {
    match &file.body {
        Body::Unit(unit) => match unit.members.first() {
            Some(Member::Var(v)) => Some(v),
            _ => None,
        },
        Body::Actor(_) => None,
    }
}

/// A file that declares the variable with its start resolved.
fn with_start(a: Global, names: &FileNames, v: &VarDecl) -> Result<File, ScopeFault> {
    let mut copied = v.copy(a)?;
    if let Some(e) = &v.start {
        copied.start = Some(resolve_expr(names, e)?);
    }
    Ok(file_with(a, Body::Unit(unit_with(a, Member::Var(copied))?)))
}

/// A file that declares the variable with its type resolved.
fn with_shape(a: Global, names: &FileNames, v: &VarDecl) -> Result<File, ScopeFault> {
    let mut copied = v.copy(a)?;
    copied.shape = resolve_type(names, &v.shape)?;
    Ok(file_with(a, Body::Unit(unit_with(a, Member::Var(copied))?)))
}

/// What is wanted of a variable: the text of its file without what stands before and behind, or the rule that it breaks.
fn shown(
    a: Global,
    found: Result<File, ScopeFault>,
    before: &str,
    behind: &str,
) -> Result<String, Memory> {
    match found {
        Ok(file) => within(a, printed(a, &file)?.as_str(), before, behind),
        Err(fault) => Ok(fault_shown(a, fault, before)?),
    }
}

/// The answer for the text of an expression.
pub(crate) fn expression_told(a: Global, names: &FileNames, text: &str) -> Result<String, Memory> {
    let source = format!(in a; "{BEFORE}{text}; end")?;
    let Ok(file) = file_of(a, source.as_bytes()) else {
        return Ok(String::from_str(a, "no file")?);
    };
    match variable_of(&file) {
        Some(v) => shown(a, with_start(a, names, v), BEFORE, " ; end "),
        None => Ok(String::from_str(a, "no variable")?),
    }
}

/// The answer for the text of a type.
pub(crate) fn type_told(a: Global, names: &FileNames, text: &str) -> Result<String, Memory> {
    let source = format!(in a; "{BEFORE_TYPE}{text} X; end")?;
    let Ok(file) = file_of(a, source.as_bytes()) else {
        return Ok(String::from_str(a, "no file")?);
    };
    match variable_of(&file) {
        Some(v) => shown(a, with_shape(a, names, v), BEFORE_TYPE, " X ; end "),
        None => Ok(String::from_str(a, "no variable")?),
    }
}
