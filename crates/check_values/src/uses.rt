//! Whether a part uses a name at an offset.

ghost use Rattle.std.specs.Prelude.{◌≡◌, ◌||◌, map};
ghost use Rattle.cal_ast.specs.Tree.{listed};
ghost use Rattle.cal_ast.specs.View.{expr_tree, gen_tree, type_arg_tree, type_tree};
ghost use Rattle.cal_check.specs.Constants.{uses_at};

use cal_ast::{Expr, ExprForm, Gen, TypeArg, TypeExpr};

/// Whether an expression uses a name at an offset.
#[cycle(uses)]
pub(crate) fn uses_at(p: u32, e: &Expr) -> bool
    ensures { result ≡ uses_at p (expr_tree e.now) }
{
    match &e.form {
        ExprForm::Number(_) => false,
        ExprForm::Bool(_) => false,
        ExprForm::Name(_) => e.at == p,
        ExprForm::Call { args, .. } => e.at == p || any_uses(p, args),
        ExprForm::Paren(inner) => uses_at(p, inner),
        ExprForm::If { test, yes, no } => uses_at(p, test) || both_use(p, yes, no),
        ExprForm::List(items) => any_uses(p, items),
        ExprForm::Comp { item, gens } => uses_at(p, item) || any_gen_uses(p, gens),
        ExprForm::Index { base, place } => both_use(p, base, place),
        ExprForm::Prefix { of, .. } => uses_at(p, of),
        ExprForm::Binary { left, right, .. } => both_use(p, left, right),
    }
}

/// Whether one of two expressions does.
#[cycle(uses)]
fn both_use(p: u32, left: &Expr, right: &Expr) -> bool
    ensures { result ≡ (uses_at p (expr_tree left.now) || uses_at p (expr_tree right.now)) }
{
    uses_at(p, left) || uses_at(p, right)
}

/// Whether one of several expressions does.
#[cycle(uses)]
fn any_uses(p: u32, exprs: &[Expr]) -> bool
    ensures { result ≡ uses_at p (listed (map expr_tree exprs.now)) }
{
    let mut rest = exprs;
    'exprs: while let Some((first, others)) = rest.split_first() {
        if uses_at(p, first) {
            return true;
        }
        rest = others;
    }
    false
}

/// Whether one of several generators does.
#[cycle(uses)]
fn any_gen_uses(p: u32, gens: &[Gen]) -> bool
    ensures { result ≡ uses_at p (listed (map gen_tree gens.now)) }
{
    let mut rest = gens;
    'gens: while let Some((first, others)) = rest.split_first() {
        if gen_uses(p, first) {
            return true;
        }
        rest = others;
    }
    false
}

/// Whether a generator does.
#[cycle(uses)]
fn gen_uses(p: u32, generator: &Gen) -> bool
    ensures { result ≡ uses_at p (gen_tree generator.now) }
{
    type_uses(p, &generator.shape) || both_use(p, &generator.from, &generator.to)
}

/// Whether a type does.
#[cycle(uses)]
fn type_uses(p: u32, t: &TypeExpr) -> bool
    ensures { result ≡ uses_at p (type_tree t.now) }
{
    any_arg_uses(p, &t.args)
}

/// Whether one of the arguments of a type does.
#[cycle(uses)]
fn any_arg_uses(p: u32, args: &[TypeArg]) -> bool
    ensures { result ≡ uses_at p (listed (map type_arg_tree args.now)) }
{
    let mut rest = args;
    'each: while let Some((first, others)) = rest.split_first() {
        if arg_uses(p, first) {
            return true;
        }
        rest = others;
    }
    false
}

/// Whether an argument of a type does.
#[cycle(uses)]
fn arg_uses(p: u32, arg: &TypeArg) -> bool
    ensures { result ≡ uses_at p (type_arg_tree arg.now) }
{
    match arg {
        TypeArg::Shape { shape, .. } => type_uses(p, shape),
        TypeArg::Value { value, .. } => uses_at(p, value),
    }
}
