//! The names that files declare themselves, or the second declaration of one.

use crate::faults::fault_shown;
use crate::files::file_of;
use crate::table::{cut, role_of};
use cal_ast::Body;
use cal_scope::{FileNames, Inside, Role, ScopeFault};
use rvc_base::Memory;
use std::alloc::Global;

/// The names that a file declares.
fn declared(a: Global, body: &Body) -> Result<FileNames, ScopeFault> {
    match body {
        Body::Actor(actor) => FileNames::of_actor(a, &actor.params, &actor.members),
        Body::Unit(unit) => FileNames::of_unit(a, "lib.U.", &unit.members),
    }
}

/// The full name that a file gives, or the rule that is broken.
fn full_name(a: Global, body: &Body, name: &str, role: Role) -> Result<String, ScopeFault> {
    let names = declared(a, body)?;
    Inside::outermost(&names).full_name(role, name, 0)
}

/// The answer for the name that is asked for, and the text of a file.
pub(crate) fn name_told(a: Global, asked: &str) -> Result<String, Memory> {
    let (role, rest) = cut(asked, " ");
    let (name, text) = cut(rest, " in ");
    let Ok(file) = file_of(a, text.as_bytes()) else {
        return Ok(String::from_str(a, "no file")?);
    };
    match full_name(a, &file.body, name, role_of(role)) {
        Ok(full) => Ok(full),
        Err(fault) => Ok(fault_shown(a, fault, "")?),
    }
}
