//! Actors with what their imports lead to.

use crate::files::{file_of, file_with, printed, unit_with};
use crate::table::{cut, within};
use cal_ast::{Body, Member};
use cal_imports::{FileSet, Scope, resolve};
use rvc_base::{Front, Memory};
use std::alloc::Global;

/// The set of these files, if each is one. They stand with `\nfile ` between as `CLASS TEXT`, and are numbered from 1.
fn set_of(a: Global, files: &str) -> Result<Option<FileSet>, Memory> {
    let mut set = FileSet::new(a)?;
    let mut number = 1;
    for named in files.split("\nfile ") {
        let (class, text) = cut(named, " ");
        let Ok(file) = file_of(a, text.as_bytes()) else {
            return Ok(None);
        };
        if !set.has(class) {
            set.add(class, number, file)?;
        }
        number = if number < 9 { number + 1 } else { 9 };
    }
    Ok(Some(set))
}

/// What a file with this body prints as.
fn body_printed(a: Global, body: Body) -> Result<String, Memory> {
    printed(a, &file_with(a, body))
}

/// What a member prints as: what stands between `unit U : ` and ` end` in a unit that has it alone.
fn member_printed(a: Global, member: Member) -> Result<String, Memory> {
    let whole = body_printed(a, Body::Unit(unit_with(a, member)?))?;
    let text = within(a, whole.as_str(), "unit U : ", " end ")?;
    within(a, text.as_str(), "", " ;")
}

/// Adds a declaration of another file to a text.
fn show_outer(text: &mut String, name: &str, file: u32, printed: &str) -> Result<(), Memory> {
    text.push_str("; ")?;
    text.push_str(name)?;
    text.push_str(" in ")?;
    text.push((b'0' + (file % 10) as u8) as char)?;
    text.push_str(": ")?;
    text.push_str(printed)?;
    Ok(())
}

/// A scope as text: the actor, then each variable and each function of other files.
fn scope_shown(a: Global, scope: &Scope) -> Result<String, Memory> {
    let whole = body_printed(a, Body::Actor(scope.actor.copy(a)?))?;
    let mut text = String::from_str(a, whole.as_str().trim_end())?;
    for v in &scope.vars {
        let shown = member_printed(a, Member::Var(v.decl.copy(a)?))?;
        show_outer(&mut text, v.name.as_str(), v.file, shown.as_str())?;
    }
    for f in &scope.funs {
        let shown = member_printed(a, Member::Function(f.decl.copy(a)?))?;
        show_outer(&mut text, f.name.as_str(), f.file, shown.as_str())?;
    }
    Ok(text)
}

/// An actor with what its imports lead to, as text, or the rule that one of the files breaks. The files stand with
/// `\nfile ` between as `CLASS TEXT`; the first is the one that is asked for.
///
/// # Errors
///
/// `Memory` if memory runs out.
pub fn scope_told(a: Global, files: &str) -> Result<String, Memory> {
    let Some(set) = set_of(a, files)? else {
        return Ok(String::from_str(a, "no files")?);
    };
    let (class, _) = cut(files, " ");
    if !set.has(class) {
        return Ok(String::from_str(a, "no class")?);
    }
    match resolve(&set, class) {
        Ok(scope) => scope_shown(a, &scope),
        Err(Front::Refused(r)) => {
            let (rule, file, at) = (r.rule, r.place.file, r.place.offset);
            Ok(format!(in a; "{rule} in {file} at {at}")?)
        }
        Err(Front::Memory) => Ok(String::from_str(a, "Memory")?),
    }
}

/// The file of a class among these, as text, or `none`. The files stand as for [`scope_told`].
///
/// # Errors
///
/// `Memory` if memory runs out.
pub fn file_told(a: Global, files: &str, class: &str) -> Result<String, Memory> {
    let Some(set) = set_of(a, files)? else {
        return Ok(String::from_str(a, "no files")?);
    };
    match set.get(class) {
        Some(file) => printed(a, file),
        None => Ok(String::from_str(a, "none")?),
    }
}
