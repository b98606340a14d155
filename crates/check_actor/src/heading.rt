//! The header of an actor.

ghost use Rattle.const_env.specs.Counting.{names_view};
ghost use Rattle.const_env.specs.Held.{names_in};
ghost use Rattle.check_actor.specs.Members.{TellsHeader};
ghost use Rattle.check_actor.specs.Phases.{FindsHeader};
ghost use Rattle.check_actor.specs.Sifting.{SiftsHeader};
ghost use Rattle.check_actor.specs.Sources.{source_in};

use crate::fault::in_file;
use crate::said::said_first;
use crate::sifting::header_fault;
use cal_check::what_breaks_no_rule_is_sound;
use cal_imports::Scope;
use check_variable::{Header, header_ports};
use const_eval::{Env, Names};
use rvc_base::{Front, Place};
use std::alloc::Global;

/// The ports of an actor, over the names that its header sees.
fn first_header(names: &Names, scope: &Scope) -> Result<Header, Front>
    ensures { FindsHeader result (source_in scope.now) (names_view names.now) }
{
    what_breaks_no_rule_is_sound();
    match header_ports(names, &scope.actor.ins, &scope.actor.outs, scope.actor.at) {
        Ok(header) => Ok(header),
        Err(fault) => Err(in_file(scope.file, fault)),
    }
}

/// The same. What isn't constant there is a fault only if the header breaks nothing else.
fn header_of(alloc: Global, seen: &Env, scope: &Scope) -> Result<Header, Front>
    ensures { SiftsHeader result (source_in scope.now) (names_in seen.now) }
{
    let names = Names::outermost(alloc, seen);
    match first_header(&names, scope) {
        Ok(header) => Ok(header),
        Err(fault) => Err(header_fault(&names, scope, fault)),
    }
}

/// The same; where something isn't constant, that is said of the variables before, of which the first that isn't constant
/// stands there.
pub(crate) fn header_told(
    alloc: Global,
    seen: &Env,
    scope: &Scope,
    noted: Option<Place>,
) -> Result<Header, Front>
    ensures { TellsHeader result noted (source_in scope.now) (names_in seen.now) }
{
    match header_of(alloc, seen, scope) {
        Ok(header) => Ok(header),
        Err(fault) => Err(said_first(noted, fault)),
    }
}
