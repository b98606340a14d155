//! Names in expressions that no XDF has: they are parsed as the language does, and put into a network that was read.

use crate::rows::same;
use crate::scopes::broken_in;
use cal_ast::Expr;
use fnl_read::NetFile;
use kit_networks::{cut, read};
use kit_trees::{BEFORE, expression};
use std::alloc::{AllocError, Global};
use std::process::Abort;

/// A network with the parameters `n` and `q`.
const TWO_PARAMETERS: &str =
    "<XDF name='T'><Decl kind='Param' name='n'><Type name='int'/></Decl><Decl kind='Param' name='q'><Type name='int'/></Decl></XDF>";

/// The expression is the default of the last declaration.
fn put_default(net: &mut NetFile, default: Expr) {
    if let Some(decl) = net.decls.last_mut() {
        decl.value = Some(default);
    }
}

/// What is broken in the network once its last declaration has this default.
fn broken_with(alloc: Global, default: Expr) -> Result<String, AllocError> {
    match read(alloc, 1, TWO_PARAMETERS) {
        Ok(mut net) => {
            put_default(&mut net, default);
            broken_in(alloc, &net, "T", "T")
        }
        Err(_) => String::from_str(alloc, "no network"),
    }
}

/// What is broken in the network if its last declaration has the default that a text spells.
fn found(alloc: Global, text: &str) -> Result<String, AllocError> {
    match expression(alloc, text)? {
        Some(default) => broken_with(alloc, default),
        None => String::from_str(alloc, "no expression"),
    }
}

/// The answer with an offset in the text in place of that in its file.
fn shifted(alloc: Global, answer: &str) -> Result<String, AllocError> {
    let (rule, place) = cut(answer, " at ");
    match place.parse::<usize>() {
        Ok(at) => {
            let at = at.saturating_add(BEFORE.len());
            format!(in alloc; "{rule} at {at}")
        }
        Err(_) => String::from_str(alloc, answer),
    }
}

fn hold_row(rt: &impl Abort, alloc: Global, row: &str) {
    let (text, answer) = cut(row, " => ");
    let found = found(alloc, text).expect(rt, "a text");
    let expected = shifted(alloc, answer).expect(rt, "a text");
    same(rt, found.as_str(), expected.as_str());
}

#[test]
fn names_in_expressions(rt: HostRuntime) {
    for row in EXPRESSIONS.lines() {
        hold_row(&rt, rt.alloc(), row);
    }
}

/// Each row is an expression, and the rule that it breaks with an offset in its text. Calls are of no function; an item
/// sees the generators, and a generator those before it, which hide the declarations and go no further.
const EXPRESSIONS: &str = "(n) => fine
(zz) => S1 at 1
-((zz)) => S1 at 3
if n > 0 then n else q end => fine
if zz then 1 else 2 end => S1 at 3
if true then 1 else zz end => S1 at 20
f(1) => S1 at 0
n(1) => S1 at 0
1 + f(zz) => S1 at 4
n[q] => fine
n[zz] => S1 at 2
zz[yy] => S1 at 0
[i : for int i in 0 .. 3] => fine
[j : for int i in 0 .. 3] => S1 at 1
[i + k : for int i in 0 .. n, for int k in 0 .. i] => fine
[1 : for int k in 0 .. i, for int i in 0 .. 3] => S1 at 23
[1 : for int k in 0 .. k] => S1 at 23
[1 : for int i in i .. 3] => S1 at 18
[n : for int n in 0 .. 3] => fine
[[i + j + n : for int j in 0 .. i] : for int i in 0 .. q] => fine
[[j : for int j in 0 .. 3], [j]] => S1 at 29
[1 : for nat i in 0 .. 3] => S1 at 9
[1 : for int(size=zz) i in 0 .. 3] => S1 at 18
[1 : for int(size=8) i in 0 .. 3, for int(size=i) k in 0 .. 3] => fine";
