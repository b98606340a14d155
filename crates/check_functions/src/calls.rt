//! Whether a part calls a function.

ghost use Rattle.std.specs.Prelude.{◌≡◌, ◌||◌, map};
ghost use Rattle.cal_ast.specs.Tree.{listed};
ghost use Rattle.cal_ast.specs.View.{expr_tree, gen_tree, type_arg_tree, type_tree};
ghost use Rattle.check_functions.specs.Alike.{AlikeStarts, AlikeTypes};
ghost use Rattle.check_functions.specs.Calls.{StartsAreSame, TypesAreSame, calls_any};

use cal_ast::{Expr, ExprForm, Gen, TypeArg, TypeExpr};

/// A type and a start that call no function are over any functions what they are over the names alone.
pub fn calls_alone_need_functions()
    ensures types { TypesAreSame }
    ensures starts { StartsAreSame }
{}

/// A type and a start are the same over names that are alike: in which order functions stand changes nothing.
pub fn alike_names_suffice()
    ensures types { AlikeTypes }
    ensures starts { AlikeStarts }
{}

/// Whether an expression calls a function.
#[cycle(calls)]
pub fn calls_any(e: &Expr) -> bool
    ensures { result ≡ calls_any (expr_tree e.now) }
{
    match &e.form {
        ExprForm::Number(_) => false,
        ExprForm::Bool(_) => false,
        ExprForm::Name(_) => false,
        ExprForm::Call { .. } => true,
        ExprForm::Paren(inner) => calls_any(inner),
        ExprForm::If { test, yes, no } => calls_any(test) || either_calls(yes, no),
        ExprForm::List(items) => any_calls(items),
        ExprForm::Comp { item, gens } => calls_any(item) || any_gen_calls(gens),
        ExprForm::Index { base, place } => either_calls(base, place),
        ExprForm::Prefix { of, .. } => calls_any(of),
        ExprForm::Binary { left, right, .. } => either_calls(left, right),
    }
}

/// Whether one of two expressions does.
#[cycle(calls)]
fn either_calls(left: &Expr, right: &Expr) -> bool
    ensures { result ≡ (calls_any (expr_tree left.now) || calls_any (expr_tree right.now)) }
{
    calls_any(left) || calls_any(right)
}

/// Whether one of several expressions does.
#[cycle(calls)]
fn any_calls(exprs: &[Expr]) -> bool
    ensures { result ≡ calls_any (listed (map expr_tree exprs.now)) }
{
    let mut rest = exprs;
    'exprs: while let Some((first, others)) = rest.split_first() {
        if calls_any(first) {
            return true;
        }
        rest = others;
    }
    false
}

/// Whether one of several generators does.
#[cycle(calls)]
pub(crate) fn any_gen_calls(gens: &[Gen]) -> bool
    ensures { result ≡ calls_any (listed (map gen_tree gens.now)) }
{
    let mut rest = gens;
    'gens: while let Some((first, others)) = rest.split_first() {
        if gen_calls(first) {
            return true;
        }
        rest = others;
    }
    false
}

/// Whether a generator does.
#[cycle(calls)]
fn gen_calls(generator: &Gen) -> bool
    ensures { result ≡ calls_any (gen_tree generator.now) }
{
    type_calls_any(&generator.shape) || either_calls(&generator.from, &generator.to)
}

/// Whether a type calls a function, in its sizes.
#[cycle(calls)]
pub fn type_calls_any(t: &TypeExpr) -> bool
    ensures { result ≡ calls_any (type_tree t.now) }
{
    any_arg_calls(&t.args)
}

/// Whether one of the arguments of a type does.
#[cycle(calls)]
fn any_arg_calls(args: &[TypeArg]) -> bool
    ensures { result ≡ calls_any (listed (map type_arg_tree args.now)) }
{
    let mut rest = args;
    'each: while let Some((first, others)) = rest.split_first() {
        if arg_calls(first) {
            return true;
        }
        rest = others;
    }
    false
}

/// Whether an argument of a type does.
#[cycle(calls)]
fn arg_calls(arg: &TypeArg) -> bool
    ensures { result ≡ calls_any (type_arg_tree arg.now) }
{
    match arg {
        TypeArg::Shape { shape, .. } => type_calls_any(shape),
        TypeArg::Value { value, .. } => calls_any(value),
    }
}
