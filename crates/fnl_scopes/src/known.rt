//! Names that expressions and types use.
#![tactic(auto, using(crate::proofs::Steps::in_first, crate::proofs::Steps::in_others))]

ghost use Rattle.std.specs.Prelude.{◌≡◌, ◌++◌, map};
ghost use Rattle.cal_ast.specs.Tree as tree;
ghost use Rattle.cal_ast.specs.Tree.{listed};
ghost use Rattle.cal_ast.specs.View.{expr_tree, gen_tree, type_arg_tree, type_tree};
ghost use Rattle.cal_model.specs.Kinding.{is_word};
ghost use Rattle.fnl_bind.specs.Scopes.{inside_gens, unknown_in, unknown_in_gens};
ghost use Rattle.fnl_scopes.specs.Tested.{Tests};
ghost use Rattle.fnl_scopes.specs.View.{gens_tree, names_seen};

use crate::fault::ScopeFault;
use crate::frames::{Frame, Inside};
use crate::name_set::NameSet;
use cal_ast::{Expr, ExprForm, Gen, TypeArg, TypeExpr};
use rvc_base::Rule;

/// A name that isn't declared.
fn unknown(at: u32) -> ScopeFault
    ensures { result ≡ ScopeFault.Broken Rule.UNKNOWN_NAME at }
{
    ScopeFault::Broken {
        rule: Rule::UNKNOWN_NAME,
        at,
    }
}

/// That an expression of a network uses declared names alone.
pub(crate) fn known_expr(e: &Expr, names: &NameSet) -> Result<(), ScopeFault>
    ensures { Tests result (unknown_in (expr_tree e.now) names.now) }
{
    let names = Inside::outermost(names);
    expr(e, &names)
}

/// That a type has the name of a type, and its arguments use declared names alone.
pub(crate) fn known_type(t: &TypeExpr, names: &NameSet) -> Result<(), ScopeFault>
    ensures { Tests result (unknown_in (type_tree t.now) names.now) }
{
    let names = Inside::outermost(names);
    type_expr(t, &names)
}

// ---- expressions

/// An expression.
#[cycle(expr)]
fn expr(e: &Expr, names: &Inside) -> Result<(), ScopeFault>
    ensures { Tests result (unknown_in (expr_tree e.now) (names_seen names.now)) }
{
    match &e.form {
        ExprForm::Number(_) => Ok(()),
        ExprForm::Bool(_) => Ok(()),
        ExprForm::Name(name) => variable(name.as_str(), e.at, names),
        ExprForm::Call { .. } => Err(unknown(e.at)),
        ExprForm::Paren(inner) => expr(inner, names),
        ExprForm::If { test, yes, no } => three(test, yes, no, names),
        ExprForm::List(items) => exprs(items, names),
        ExprForm::Comp { item, gens } => comp(item, gens, names),
        ExprForm::Index { base, place } => both(base, place, names),
        ExprForm::Prefix { of, .. } => expr(of, names),
        ExprForm::Binary { left, right, .. } => both(left, right, names),
    }
}

/// A name.
fn variable(name: &str, at: u32, names: &Inside) -> Result<(), ScopeFault>
    ensures { Tests result (unknown_in (tree.variable name.now at) (names_seen names.now)) }
{
    if names.has(name) {
        return Ok(());
    }
    Err(unknown(at))
}

/// Two expressions in order.
#[cycle(expr)]
fn both(left: &Expr, right: &Expr, names: &Inside) -> Result<(), ScopeFault>
    ensures { Tests result (unknown_in (expr_tree left.now) (names_seen names.now)
        ++ unknown_in (expr_tree right.now) (names_seen names.now)) }
{
    expr(left, names)?;
    expr(right, names)
}

/// A condition and two branches.
#[cycle(expr)]
fn three(test: &Expr, yes: &Expr, no: &Expr, names: &Inside) -> Result<(), ScopeFault>
    ensures { Tests result (unknown_in (expr_tree test.now) (names_seen names.now)
        ++ (unknown_in (expr_tree yes.now) (names_seen names.now)
        ++ unknown_in (expr_tree no.now) (names_seen names.now))) }
{
    expr(test, names)?;
    both(yes, no, names)
}

/// Expressions in order.
#[cycle(expr)]
fn exprs(exprs: &[Expr], names: &Inside) -> Result<(), ScopeFault>
    ensures { Tests result (unknown_in (listed (map expr_tree exprs.now)) (names_seen names.now)) }
{
    let mut rest = exprs;
    'exprs: while let Some((first, others)) = rest.split_first() {
        expr(first, names)?;
        rest = others;
    }
    Ok(())
}

// ---- comprehensions

/// A comprehension, whose item sees all of its generators.
#[cycle(expr)]
fn comp(item: &Expr, gens: &[Gen], names: &Inside) -> Result<(), ScopeFault>
    ensures { Tests result
        (unknown_in (expr_tree item.now) (inside_gens (gens_tree gens.now) (names_seen names.now))
        ++ unknown_in_gens (gens_tree gens.now) (names_seen names.now)) }
{
    expr_inside(item, gens, names)?;
    generators(gens, names)
}

/// An expression inside generators.
#[cycle(expr)]
fn expr_inside(e: &Expr, gens: &[Gen], names: &Inside) -> Result<(), ScopeFault>
    ensures { Tests result (unknown_in (expr_tree e.now)
        (inside_gens (gens_tree gens.now) (names_seen names.now))) }
{
    let frame = Frame {
        gens,
        outer: names.frame,
    };
    let inside = names.under(&frame);
    expr(e, &inside)
}

/// Generators in order, each of which sees those before it.
#[cycle(expr)]
fn generators(gens: &[Gen], names: &Inside) -> Result<(), ScopeFault>
    ensures { Tests result (unknown_in_gens (gens_tree gens.now) (names_seen names.now)) }
{
    for place in 0..gens.len() {
        generator_inside(&gens[place], &gens[..place], names)?;
    }
    Ok(())
}

/// A generator inside those before it.
#[cycle(expr)]
fn generator_inside(g: &Gen, before: &[Gen], names: &Inside) -> Result<(), ScopeFault>
    ensures { Tests result (unknown_in (gen_tree g.now)
        (inside_gens (gens_tree before.now) (names_seen names.now))) }
{
    let frame = Frame {
        gens: before,
        outer: names.frame,
    };
    let inside = names.under(&frame);
    generator(g, &inside)
}

/// A generator: its type and its two bounds.
#[cycle(expr)]
fn generator(g: &Gen, names: &Inside) -> Result<(), ScopeFault>
    ensures { Tests result (unknown_in (gen_tree g.now) (names_seen names.now)) }
{
    type_expr(&g.shape, names)?;
    both(&g.from, &g.to, names)
}

// ---- types

/// A type.
#[cycle(expr)]
fn type_expr(t: &TypeExpr, names: &Inside) -> Result<(), ScopeFault>
    ensures { Tests result (unknown_in (type_tree t.now) (names_seen names.now)) }
{
    if !is_word(t.name.text.as_str()) {
        return Err(unknown(t.at));
    }
    type_args(&t.args, names)
}

/// Whether a name is that of a type.
fn is_word(name: &str) -> bool
    ensures { result ≡ is_word name.now }
{
    name == "bool"
        || name == "int"
        || name == "uint"
        || name == "List"
        || name == "float"
        || name == "half"
        || name == "String"
}

/// The arguments of a type.
#[cycle(expr)]
fn type_args(args: &[TypeArg], names: &Inside) -> Result<(), ScopeFault>
    ensures { Tests result (unknown_in (listed (map type_arg_tree args.now)) (names_seen names.now)) }
{
    let mut rest = args;
    'each: while let Some((first, others)) = rest.split_first() {
        type_arg(first, names)?;
        rest = others;
    }
    Ok(())
}

/// An argument of a type.
#[cycle(expr)]
fn type_arg(arg: &TypeArg, names: &Inside) -> Result<(), ScopeFault>
    ensures { Tests result (unknown_in (type_arg_tree arg.now) (names_seen names.now)) }
{
    match arg {
        TypeArg::Shape { shape, .. } => type_expr(shape, names),
        TypeArg::Value { value, .. } => expr(value, names),
    }
}
