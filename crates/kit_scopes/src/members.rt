//! Members of an actor with each name written out in full.

use crate::faults::fault_shown;
use crate::files::{file_of, file_with, printed};
use crate::table::within;
use cal_ast::{Actor, Body};
use cal_scope::{FileNames, PortNames, ScopeFault, resolve_members};
use rvc_base::Memory;
use std::alloc::Global;

/// What stands before the members in their file.
const BEFORE: &str = "actor A ( ) int In ==> int Out : ";

/// An actor with its members resolved.
fn resolved(a: Global, names: &FileNames, actor: &Actor) -> Result<Actor, ScopeFault> {
    let ports = PortNames::of(a, &actor.ins, &actor.outs)?;
    let mut copied = actor.copy(a)?;
    copied.members = resolve_members(names, &ports, &actor.members)?;
    Ok(copied)
}

/// What is wanted of an actor: the text of its members, or the rule that they break.
fn shown(a: Global, names: &FileNames, actor: &Actor) -> Result<String, Memory> {
    match resolved(a, names, actor) {
        Ok(actor) => {
            let file = file_with(a, Body::Actor(actor));
            within(a, printed(a, &file)?.as_str(), BEFORE, " end ")
        }
        Err(fault) => Ok(fault_shown(a, fault, BEFORE)?),
    }
}

/// The answer for the text of members.
pub(crate) fn members_told(a: Global, names: &FileNames, text: &str) -> Result<String, Memory> {
    let source = format!(in a; "{BEFORE}{text} end")?;
    let Ok(file) = file_of(a, source.as_bytes()) else {
        return Ok(String::from_str(a, "no file")?);
    };
    match &file.body {
        Body::Actor(actor) => shown(a, names, actor),
        Body::Unit(_) => Ok(String::from_str(a, "no actor")?),
    }
}
