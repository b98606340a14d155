//! An order of the functions that are called where something must be constant, and of the names that these use.

ghost use Rattle.std.specs.Prelude.{◌≡◌, [], IfOk, List, None, OnOk, Some, if◌then◌else◌, map, string_bytes, true, ℕ};
ghost use Rattle.cal_ast.specs.View.{function_tree};
ghost use Rattle.cal_check.specs.Actors.{uses};
ghost use Rattle.cal_check.specs.Routines.{FunDecl};
ghost use Rattle.cal_model.specs.Tags.{is_seen, number_of_name, with_seen};
ghost use Rattle.check_functions.specs.Known.{fun_decls};
ghost use Rattle.check_functions.specs.Order.{AreOrdered, Closes, Extends, all_seen, names_met};

use crate::constants::needs_of;
use crate::declared::DeclaredFun;
use cal_ast::Function;
use check_used::{NameSet, add_names_used};
use indexmap::IndexSet;
use rvc_base::Memory;
use std::alloc::Global;
use std::marker::Model;

/// Names in an order: what a function among them uses stands before it. The names of all functions stand beside them, so
/// that a function is found by its name in the same time however many there are.
#[derive(Drop)]
pub(crate) struct Order {
    names: NameSet,
    funs: NameSet,
}

impl Model for Order {
    ghost use Rattle.check_functions.specs.Order.{Ordered};

    ghost Value = { Ordered };

    ghost view = { λ order. record { names = order.names; funs = order.funs } };
}

impl Order {
    /// The names.
    pub fn as_slice(&self) -> &[String]
        ensures { map string_bytes result.now ≡ self.now.names }
    {
        self.names.as_slice()
    }

    /// Whether a name is among them.
    pub fn contains(&self, name: &str) -> bool
        ensures { result ≡ is_seen name.now self.now.names }
    {
        self.names.contains(name)
    }

    /// The place of the function of a name, or `None` if it isn't one.
    pub fn place(&self, name: &str) -> Option<usize>
        ensures { result ≡ (if is_seen name.now self.now.funs
            then Some (number_of_name name.now self.now.funs) else None) }
    {
        self.funs.number(name)
    }

    /// Adds a name behind the others.
    fn add(&mut self, name: &str) -> Result<(), Memory>
        ensures { OnOk result (self.new
            ≡ record self.old { names = with_seen self.old.names name.now }) }
    {
        self.names.add(name)
    }
}

/// Functions that are to be added once all that they use is, and those whose uses were looked at.
#[derive(Drop)]
struct Walk {
    open: Vec<usize>,
    entered: IndexSet<usize>,
}

/// The names of functions, each where it is met first.
fn fun_names(alloc: Global, funs: &[DeclaredFun]) -> Result<NameSet, Memory>
    ensures { IfOk result (λ names. names ≡ names_met [] (fun_decls funs.now)) }
{
    let mut names = NameSet::new(alloc);
    for f in funs {
        names.add(f.name)?;
    }
    Ok(names)
}

/// The names that a function uses.
fn uses_of(alloc: Global, f: &Function) -> Result<NameSet, Memory>
    ensures { IfOk result (λ used. (x : List ℕ)
        → is_seen x used ≡ uses x (function_tree f.now)) }
{
    let mut used = NameSet::new(alloc);
    add_names_used(&mut used, f)?;
    Ok(used)
}

/// A function that a name stands for is to be added; another name is added.
fn open_name(order: &mut Order, open: &mut Vec<usize>, name: &str) -> Result<(), Memory>
    ensures { OnOk result ((fs : List FunDecl) → Extends fs order.old order.new) }
{
    match order.place(name) {
        Some(place) => {
            open.push(place)?;
            Ok(())
        }
        None => order.add(name),
    }
}

/// The same for each of these names.
fn open_all(order: &mut Order, open: &mut Vec<usize>, names: &NameSet) -> Result<(), Memory>
    ensures { OnOk result ((fs : List FunDecl) → Extends fs order.old order.new) }
{
    let mut rest = names.as_slice();
    'names: while let Some((first, others)) = rest.split_first() {
        open_name(order, open, first.as_str())?;
        rest = others;
    }
    Ok(())
}

/// Whether all of these names are in the order.
fn has_all(order: &Order, names: &NameSet) -> bool
    ensures { result ≡ all_seen names.now order.now.names }
{
    let mut rest = names.as_slice();
    'names: while let Some((first, others)) = rest.split_first() {
        if !order.contains(first.as_str()) {
            return false;
        }
        rest = others;
    }
    true
}

/// Adds a function behind the names that it uses. Tells whether they are there.
fn close(order: &mut Order, alloc: Global, f: DeclaredFun) -> Result<bool, Memory>
    ensures { IfOk result (λ closed. Closes closed f.entry.name.now
        (function_tree f.entry.decl.now) order.old order.new) }
{
    let used = uses_of(alloc, f.decl)?;
    if !has_all(order, &used) {
        return Ok(false);
    }
    order.add(f.name)?;
    Ok(true)
}

/// What a function uses is to be added before it.
fn enter(order: &mut Order, walk: &mut Walk, alloc: Global, f: DeclaredFun) -> Result<(), Memory>
    ensures { OnOk result ((fs : List FunDecl) → Extends fs order.old order.new) }
{
    let used = uses_of(alloc, f.decl)?;
    open_all(order, &mut walk.open, &used)
}

/// Adds a function, or what it uses before. Tells whether that can be done.
fn pass(
    order: &mut Order,
    walk: &mut Walk,
    alloc: Global,
    funs: &[DeclaredFun],
    place: usize,
) -> Result<bool, Memory>
    ensures { OnOk result (Extends (fun_decls funs.now) order.old order.new) }
{
    let Some(f) = funs.get(place) else {
        return Ok(false);
    };
    if order.contains(f.name) {
        let _passed = walk.open.pop();
        return Ok(true);
    }
    let (_number, is_new) = walk.entered.insert_full(place)?;
    if is_new {
        enter(order, walk, alloc, *f)?;
        return Ok(true);
    }
    let _closed = walk.open.pop();
    close(order, alloc, *f)
}

/// The function that is on top of those that are open.
fn top(walk: &Walk) -> Option<usize> {
    match walk.open.last() {
        Some(place) => Some(*place),
        None => None,
    }
}

/// Adds a name behind all that it uses, directly or indirectly. Tells whether that can be done: not if functions call
/// themselves.
fn visit(
    order: &mut Order,
    walk: &mut Walk,
    alloc: Global,
    funs: &[DeclaredFun],
    name: &str,
) -> Result<bool, Memory>
    ensures extends { OnOk result (Extends (fun_decls funs.now) order.old order.new) }
    ensures there { IfOk result (λ there. there ≡ true → is_seen name.now order.new.names ≡ true) }
{
    open_name(order, &mut walk.open, name)?;
    for _passed in 0..u64::MAX {
        let Some(place) = top(walk) else {
            return Ok(order.contains(name));
        };
        if !pass(order, walk, alloc, funs, place)? {
            return Ok(false);
        }
    }
    Ok(false)
}

/// The same for each of these names.
fn visit_all(
    order: &mut Order,
    alloc: Global,
    funs: &[DeclaredFun],
    names: &NameSet,
) -> Result<bool, Memory>
    ensures extends { OnOk result (Extends (fun_decls funs.now) order.old order.new) }
    ensures there { IfOk result (λ there. there ≡ true
        → all_seen names.now order.new.names ≡ true) }
{
    let mut walk = Walk {
        open: Vec::new(alloc),
        entered: IndexSet::new(alloc),
    };
    visit_each(order, &mut walk, alloc, funs, names)
}

/// The same with what is open.
fn visit_each(
    order: &mut Order,
    walk: &mut Walk,
    alloc: Global,
    funs: &[DeclaredFun],
    names: &NameSet,
) -> Result<bool, Memory>
    ensures extends { OnOk result (Extends (fun_decls funs.now) order.old order.new) }
    ensures there { IfOk result (λ there. there ≡ true
        → all_seen names.now order.new.names ≡ true) }
{
    let mut rest = names.as_slice();
    'names: while let Some((first, others)) = rest.split_first() {
        if !visit(order, walk, alloc, funs, first.as_str())? {
            return Ok(false);
        }
        rest = others;
    }
    Ok(has_all(order, names))
}

/// No name so far, and the names of all functions.
fn no_order(alloc: Global, funs: &[DeclaredFun]) -> Result<Order, Memory>
    ensures { IfOk result (λ order. order
        ≡ record { names = []; funs = names_met [] (fun_decls funs.now) }) }
{
    Ok(Order {
        names: NameSet::new(alloc),
        funs: fun_names(alloc, funs)?,
    })
}

/// An order of the functions that are called where something must be constant, and of what they use, directly or
/// indirectly, or `None` if functions call themselves.
pub(crate) fn order_of(alloc: Global, funs: &[DeclaredFun]) -> Result<Option<Order>, Memory>
    ensures { IfOk result (λ order. AreOrdered order (fun_decls funs.now)) }
{
    let needs = needs_of(alloc, funs)?;
    let mut order = no_order(alloc, funs)?;
    if visit_all(&mut order, alloc, funs, needs.calls())? {
        return Ok(Some(order));
    }
    Ok(None)
}
