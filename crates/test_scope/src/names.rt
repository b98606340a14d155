//! What names stand for inside scopes, as rows.

use cal_scope::{Frame, Inside, NameSet, Role, ScopeFault};
use kit_scopes::{answered, cut, fault_shown, names_of, role_of};
use std::alloc::{AllocError, Global};
use std::process::Abort;

/// The full name, or the rule that the use breaks.
fn answer(a: Global, names: &Inside, name: &str, role: Role) -> Result<String, AllocError> {
    match names.full_name(role, name, 7) {
        Ok(full) => Ok(full),
        Err(fault) => fault_shown(a, fault, ""),
    }
}

/// Stops unless the use of a row has its answer.
fn hold_row(rt: &impl Abort, a: Global, names: &Inside, row: &str) {
    let (text, want) = answered(row);
    let (role, name) = cut(text, " ");
    let found = answer(a, names, name, role_of(role)).expect(rt, "a text");
    let holds = found.as_str() == want;
    assert!(rt; holds, "{name} gives {found}");
}

/// Stops at the first row of a table whose answer is another.
fn hold(rt: &impl Abort, a: Global, names: &Inside, table: &str) {
    for row in table.split("\n# ") {
        if !row.is_empty() {
            hold_row(rt, a, names, row);
        }
    }
}

#[test]
fn names_of_a_file(rt: HostRuntime) {
    let a = rt.alloc();
    let names = names_of(a).expect(&rt, "names");
    hold(&rt, a, &Inside::outermost(&names), OUTSIDE);
}

/// Uses where no scope stands round, each with what the name is to be.
const OUTSIDE: &str = "
# variable n
= n
# variable k
= lib.U.k
# function g
= lib.U.g
# procedure p
= p
# variable m
= S1 at 7
# variable g
= S5 at 7
# function k
= S5 at 7
# function p
= S5 at 7
# procedure f
= S5 at 7";

/// The names of a scope that declares one.
fn scope_of(a: Global, name: &str) -> Result<NameSet, ScopeFault> {
    let mut names = NameSet::new(a);
    names.add(name)?;
    Ok(names)
}

/// The rows inside one scope more.
fn hold_within(rt: &impl Abort, a: Global, names: &Inside, here: &NameSet, table: &str) {
    let frame = Frame {
        names: here,
        outer: names.frame,
    };
    let inside = names.under(&frame);
    hold(rt, a, &inside, table);
}

/// The rows inside a scope of `i`, which stands inside another.
fn hold_inside(rt: &impl Abort, a: Global, names: &Inside, round: &NameSet) {
    let frame = Frame {
        names: round,
        outer: names.frame,
    };
    let inside = names.under(&frame);
    let here = scope_of(a, "i").expect(rt, "a scope");
    hold_within(rt, a, &inside, &here, INSIDE);
}

/// Uses inside a scope of `i`, which stands inside one of `g`.
const INSIDE: &str = "
# variable i
= i
# variable g
= g
# function g
= S5 at 7
# variable k
= lib.U.k
# function f
= f
# variable j
= S1 at 7";

#[test]
fn inner_names_hide_outer_ones(rt: HostRuntime) {
    let a = rt.alloc();
    let names = names_of(a).expect(&rt, "names");
    let round = scope_of(a, "g").expect(&rt, "a scope");
    hold_inside(&rt, a, &Inside::outermost(&names), &round);
}

#[test]
fn a_name_is_declared_once(rt: HostRuntime) {
    let names = scope_of(rt.alloc(), "x").expect(&rt, "a scope");
    assert!(rt; names.has("x"));
    assert!(rt; !names.has("y"));
}
