//! Expressions and types with each name written out in full, in one cycle.
#![tactic(auto, using(crate::proofs::Judged::breaks_on))]

ghost use Rattle.std.specs.Prelude.{◌≡◌, OnOk};
ghost use Rattle.cal_ast.specs.Tree as tree;
ghost use Rattle.cal_ast.specs.View.{expr_tree, gen_tree, ident_tree, type_arg_tree, type_tree};
ghost use Rattle.cal_model.specs.Kinding.{is_word};
ghost use Rattle.cal_scope.specs.Asked.{expr_trees, exprs_tree, gen_trees, gens_tree, if_expr_tree, type_arg_trees, type_args_tree};
ghost use Rattle.cal_scope.specs.Expressions.{declared_by, declared_name, exprs_resolved, gen_resolved, gens_resolved, type_args_resolved, type_resolved};
ghost use Rattle.cal_scope.specs.Judging.{Judges};
ghost use Rattle.cal_scope.specs.Resolving.{ResolvesExpr, ResolvesTypeArg};
ghost use Rattle.cal_scope.specs.View.{names_view, seen_in};

use crate::fault::ScopeFault;
use crate::frames::{Frame, Inside};
use crate::made;
use crate::name_set::NameSet;
use crate::role::Role;
use cal_ast::{BinOp, Expr, ExprForm, Gen, Ident, PrefixOp, TypeArg, TypeExpr};
use rvc_base::Rule;

/// An expression.
#[cycle(expr)]
pub(crate) fn expr(names: &Inside, e: &Expr) -> Result<Expr, ScopeFault>
    ensures { ResolvesExpr result (expr_tree e.now) (names_view names.now) }
{
    match &e.form {
        ExprForm::Number(value) => Ok(made::number(*value, e.at)),
        ExprForm::Bool(value) => Ok(made::truth(*value, e.at)),
        ExprForm::Name(name) => variable(names, name.as_str(), e.at),
        ExprForm::Call { name, args } => call(names, name.as_str(), args, e.at),
        ExprForm::Paren(inner) => paren(names, inner, e.at),
        ExprForm::If { test, yes, no } => if_expr(names, test, yes, no, e.at),
        ExprForm::List(items) => list(names, items, e.at),
        ExprForm::Comp { item, gens } => comp(names, item, gens, e.at),
        ExprForm::Index { base, place } => index(names, base, place, e.at),
        ExprForm::Prefix { op, of } => prefix(names, *op, of, e.at),
        ExprForm::Binary { op, left, right } => binary(names, *op, left, right, e.at),
    }
}

/// A condition and two branches.
#[cycle(expr)]
fn if_expr(names: &Inside, test: &Expr, yes: &Expr, no: &Expr, at: u32) -> Result<Expr, ScopeFault>
    ensures { ResolvesExpr result (if_expr_tree test.now yes.now no.now at) (names_view names.now) }
{
    let test = expr(names, test)?;
    let yes = expr(names, yes)?;
    let no = expr(names, no)?;
    Ok(made::if_expr(names.alloc, test, yes, no, at)?)
}

/// A place in a list.
#[cycle(expr)]
fn index(names: &Inside, base: &Expr, place: &Expr, at: u32) -> Result<Expr, ScopeFault>
    ensures { ResolvesExpr result (tree.index (expr_tree base.now) (expr_tree place.now) at)
        (names_view names.now) }
{
    let base = expr(names, base)?;
    let place = expr(names, place)?;
    Ok(made::index(names.alloc, base, place, at)?)
}

/// An operation with two operands.
#[cycle(expr)]
fn binary(names: &Inside, op: BinOp, left: &Expr, right: &Expr, at: u32) -> Result<Expr, ScopeFault>
    ensures { ResolvesExpr result (tree.binary op (expr_tree left.now) (expr_tree right.now) at)
        (names_view names.now) }
{
    let left = expr(names, left)?;
    let right = expr(names, right)?;
    Ok(made::binary(names.alloc, op, left, right, at)?)
}

/// A comprehension, whose item sees its generators.
#[cycle(expr)]
fn comp(names: &Inside, item: &Expr, gens: &[Gen], at: u32) -> Result<Expr, ScopeFault>
    ensures { ResolvesExpr result (tree.comp (expr_tree item.now) (gens_tree gens.now) at)
        (names_view names.now) }
{
    let mut here = NameSet::new(names.alloc);
    let gens = generators(names, gens, &mut here)?;
    let item = expr_in(names, &here, item)?;
    Ok(made::comp(names.alloc, item, gens, at)?)
}

/// A variable.
fn variable(names: &Inside, name: &str, at: u32) -> Result<Expr, ScopeFault>
    ensures { ResolvesExpr result (tree.variable name.now at) (names_view names.now) }
{
    let full = names.full_name(Role::Variable, name, at)?;
    Ok(made::variable(full, at))
}

/// An expression in parentheses.
#[cycle(expr)]
fn paren(names: &Inside, inner: &Expr, at: u32) -> Result<Expr, ScopeFault>
    ensures { ResolvesExpr result (tree.paren (expr_tree inner.now) at) (names_view names.now) }
{
    let inner = expr(names, inner)?;
    Ok(made::paren(names.alloc, inner, at)?)
}

/// A list.
#[cycle(expr)]
fn list(names: &Inside, items: &[Expr], at: u32) -> Result<Expr, ScopeFault>
    ensures { ResolvesExpr result (tree.list (exprs_tree items.now) at) (names_view names.now) }
{
    let items = exprs(names, items)?;
    Ok(made::list(items, at))
}

/// A call of a function.
#[cycle(expr)]
fn call(names: &Inside, name: &str, args: &[Expr], at: u32) -> Result<Expr, ScopeFault>
    ensures { ResolvesExpr result (tree.call name.now (exprs_tree args.now) at) (names_view
        names.now) }
{
    let full = names.full_name(Role::Function, name, at)?;
    let args = exprs(names, args)?;
    Ok(made::call(full, args, at))
}

/// An expression inside a scope.
#[cycle(expr)]
pub(crate) fn expr_in(names: &Inside, here: &NameSet, e: &Expr) -> Result<Expr, ScopeFault>
    ensures { ResolvesExpr result (expr_tree e.now) (seen_in here.now names.now) }
{
    let frame = Frame {
        names: here,
        outer: names.frame,
    };
    let inside = names.under(&frame);
    expr(&inside, e)
}

/// An operation with one operand.
#[cycle(expr)]
fn prefix(names: &Inside, op: PrefixOp, of: &Expr, at: u32) -> Result<Expr, ScopeFault>
    ensures { ResolvesExpr result (tree.prefix op (expr_tree of.now) at) (names_view names.now) }
{
    let of = expr(names, of)?;
    Ok(made::prefix(names.alloc, op, of, at)?)
}

/// Expressions in order.
#[cycle(expr)]
pub(crate) fn exprs(names: &Inside, exprs: &[Expr]) -> Result<Vec<Expr>, ScopeFault>
    ensures { Judges expr_trees result (exprs_resolved (exprs_tree exprs.now) (names_view
        names.now)) }
{
    let mut found = Vec::new(names.alloc);
    for e in exprs {
        found.push(expr(names, e)?)?;
    }
    Ok(found)
}

// ---- generators

/// Generators in order, each of which sees those before it. Their names are added to those of the scope.
#[cycle(expr)]
fn generators(names: &Inside, gens: &[Gen], here: &mut NameSet) -> Result<Vec<Gen>, ScopeFault>
    ensures judged { Judges gen_trees result (gens_resolved (gens_tree gens.now) here.old
        (names_view names.now)) }
    ensures here { OnOk result (here.new ≡ declared_by (gens_tree gens.now) here.old) }
{
    let mut found = Vec::new(names.alloc);
    for g in gens {
        found.push(generator(names, here, g)?)?;
        here.add(generator_name(g))?;
    }
    Ok(found)
}

/// The name of a generator's variable.
fn generator_name(g: &Gen) -> &str
    ensures { result.now ≡ declared_name (gen_tree g.now) }
{
    g.name.text.as_str()
}

/// A generator inside those of the scope.
#[cycle(expr)]
fn generator(names: &Inside, here: &NameSet, g: &Gen) -> Result<Gen, ScopeFault>
    ensures { Judges gen_tree result
        (gen_resolved (gen_tree g.now) (seen_in here.now names.now)) }
{
    let shape = type_in(names, here, &g.shape)?;
    let from = expr_in(names, here, &g.from)?;
    let to = expr_in(names, here, &g.to)?;
    let name = g.name.copy(names.alloc)?;
    Ok(made::generator(shape, name, from, to, g.at))
}

// ---- types

/// A type.
#[cycle(expr)]
pub(crate) fn type_expr(names: &Inside, t: &TypeExpr) -> Result<TypeExpr, ScopeFault>
    ensures { Judges type_tree result (type_resolved (type_tree t.now) (names_view names.now)) }
{
    if !is_word(t.name.text.as_str()) {
        return Err(ScopeFault::Broken {
            rule: Rule::UNKNOWN_NAME,
            at: t.name.at,
        });
    }
    let args = type_args(names, &t.args)?;
    let name = t.name.copy(names.alloc)?;
    Ok(made::type_of(name, args, t.at))
}

/// A type inside a scope.
#[cycle(expr)]
pub(crate) fn type_in(names: &Inside, here: &NameSet, t: &TypeExpr) -> Result<TypeExpr, ScopeFault>
    ensures { Judges type_tree result
        (type_resolved (type_tree t.now) (seen_in here.now names.now)) }
{
    let frame = Frame {
        names: here,
        outer: names.frame,
    };
    let inside = names.under(&frame);
    type_expr(&inside, t)
}

/// Whether a name is that of a type.
fn is_word(name: &str) -> bool
    ensures { result ≡ is_word name.now }
{
    name == "bool"
        || name == "int"
        || name == "uint"
        || name == "List"
        || name == "float"
        || name == "half"
        || name == "String"
}

/// The arguments of a type in order.
#[cycle(expr)]
fn type_args(names: &Inside, args: &[TypeArg]) -> Result<Vec<TypeArg>, ScopeFault>
    ensures { Judges type_arg_trees result (type_args_resolved (type_args_tree args.now) (names_view
        names.now)) }
{
    let mut found = Vec::new(names.alloc);
    for arg in args {
        found.push(type_arg(names, arg)?)?;
    }
    Ok(found)
}

/// An argument of a type.
#[cycle(expr)]
fn type_arg(names: &Inside, arg: &TypeArg) -> Result<TypeArg, ScopeFault>
    ensures { ResolvesTypeArg result (type_arg_tree arg.now) (names_view names.now) }
{
    match arg {
        TypeArg::Shape { name, shape } => shape_arg(names, name, shape),
        TypeArg::Value { name, value } => value_arg(names, name, value),
    }
}

/// An argument that is a type.
#[cycle(expr)]
fn shape_arg(names: &Inside, name: &Ident, shape: &TypeExpr) -> Result<TypeArg, ScopeFault>
    ensures { ResolvesTypeArg result (tree.shape_arg (ident_tree name.now) (type_tree shape.now))
        (names_view names.now) }
{
    let shape = type_expr(names, shape)?;
    let name = name.copy(names.alloc)?;
    Ok(made::shape_arg(name, shape))
}

/// An argument that is a value.
#[cycle(expr)]
fn value_arg(names: &Inside, name: &Ident, value: &Expr) -> Result<TypeArg, ScopeFault>
    ensures { ResolvesTypeArg result (tree.value_arg (ident_tree name.now) (expr_tree value.now))
        (names_view names.now) }
{
    let value = expr(names, value)?;
    let name = name.copy(names.alloc)?;
    Ok(made::value_arg(name, value))
}
