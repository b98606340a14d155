//! The kinds of expressions: a plain program of their definition, parts before wholes and from left to right.
#![tactic(auto, using(crate::proofs::Judged::breaks_on))]

ghost use Rattle.std.specs.Prelude.{◌≡◌, ◌≤◌, IfOk, map, option_map, slice_get};
ghost use Rattle.cal_ast.specs.Places.{begins};
ghost use Rattle.cal_ast.specs.Tree as tree;
ghost use Rattle.cal_ast.specs.Tree.{listed};
ghost use Rattle.cal_ast.specs.View.{expr_tree, gen_tree, type_arg_tree, type_tree};
ghost use Rattle.cal_ast.specs.declared.expr.Expr.{out-Expr};
ghost use Rattle.cal_model.specs.Kinding.{Fine, and_so, arguments_fit, constant, constant_number, counts, elements_in, kind, kinds, number_given, one_kind, type_arguments, type_judged};
ghost use Rattle.cal_model.specs.Value.{kind_of_type, scalars_of_type};
ghost use Rattle.cal_model.specs.View.{kind_view, local_view, shape_view};
ghost use Rattle.const_env.specs.Counting.{names_view, numbers_judged};
ghost use Rattle.const_env.specs.Fitting.{capped, fit_of, formal_fits};
ghost use Rattle.const_env.specs.Judging.{Judges};
ghost use Rattle.const_expr.specs.Shaping.{argument_judged, argument_view};

use crate::constant_value::value_of;
use crate::filled::Filled;
use crate::shapes::{Argument, counts, is_word, type_with};
use cal_ast::{BinOp, Expr, ExprForm, Gen, TypeArg, TypeExpr};
use cal_model::{BoundLocal, Kind, Shape, Value, kind_of_type};
use const_env::kinds::{
    Fit, binary_kind, branch_kind, item_kind, kind_of_scalar, list_of_kind, one_kind, prefix_kind,
    product, wrong_kind,
};
use const_env::ranges::span;
use const_env::{EvalError, Inside, KindFault, Names};
use rvc_base::{Num, Rule};

/// The kind of an expression.
#[cycle(kind)]
pub fn kind(names: &Names, e: &Expr) -> Result<Kind, KindFault>
    ensures { Judges kind_view result (kind (expr_tree e.now) (names_view names.now)) }
{
    match &e.form {
        ExprForm::Number(_) => Ok(Kind::Num),
        ExprForm::Bool(_) => Ok(Kind::Bool),
        ExprForm::Name(name) => names.kind_of(name.as_str(), e.at),
        ExprForm::Call { name, args } => kind_of_call(names, name.as_str(), args, e.at),
        ExprForm::Paren(inner) => kind(names, inner),
        ExprForm::If { test, yes, no } => kind_of_if(names, test, yes, no, e.at),
        ExprForm::List(items) => kind_of_list(names, items, e.at),
        ExprForm::Comp { item, gens } => kind_of_comp(names, item, gens, e.at),
        ExprForm::Index { base, place } => kind_of_index(names, base, place, e.at),
        ExprForm::Prefix { op, of } => {
            let k = kind(names, of)?;
            prefix_kind(*op, &k, e.at)
        }
        ExprForm::Binary { op, left, right } => kind_of_binary(names, *op, left, right, e.at),
    }
}

/// A condition and two branches.
#[cycle(kind)]
fn kind_of_if(names: &Names, test: &Expr, yes: &Expr, no: &Expr, at: u32) -> Result<Kind, KindFault>
    ensures { Judges kind_view result
        (kind (tree.if_expr (expr_tree test.now) (expr_tree yes.now) (expr_tree no.now) at)
        (names_view names.now)) }
{
    let test = kind(names, test)?;
    let yes = kind(names, yes)?;
    let no = kind(names, no)?;
    branch_kind(&test, yes, &no, at)
}

/// A list and a place in it.
#[cycle(kind)]
fn kind_of_index(names: &Names, base: &Expr, place: &Expr, at: u32) -> Result<Kind, KindFault>
    ensures { Judges kind_view result
        (kind (tree.index (expr_tree base.now) (expr_tree place.now) at) (names_view names.now)) }
{
    let base = kind(names, base)?;
    let place = kind(names, place)?;
    item_kind(base, &place, at)
}

/// An operation with two operands.
#[cycle(kind)]
fn kind_of_binary(
    names: &Names,
    op: BinOp,
    left: &Expr,
    right: &Expr,
    at: u32,
) -> Result<Kind, KindFault>
    ensures { Judges kind_view result
        (kind (tree.binary op (expr_tree left.now) (expr_tree right.now) at)
        (names_view names.now)) }
{
    let left = kind(names, left)?;
    let right = kind(names, right)?;
    binary_kind(op, &left, &right, at)
}

// ---- calls

/// A function and its arguments.
#[cycle(kind)]
fn kind_of_call(names: &Names, name: &str, args: &[Expr], at: u32) -> Result<Kind, KindFault>
    ensures { Judges kind_view result
        (kind (tree.call name.now (listed (map expr_tree args.now)) at) (names_view names.now)) }
{
    let Some(fun) = names.env.fun(name) else {
        return Err(KindFault::Broken {
            rule: Rule::UNKNOWN_NAME,
            at,
        });
    };
    if arguments_fit(names, args, &fun.formals)? {
        return Ok(kind_of_scalar(fun.result));
    }
    Err(KindFault::Broken {
        rule: Rule::WRONG_NUMBER_OF_ARGUMENTS,
        at,
    })
}

/// Whether there are as many arguments as formals, each of its formal's kind.
#[cycle(kind)]
pub fn arguments_fit(
    names: &Names,
    args: &[Expr],
    formals: &[BoundLocal],
) -> Result<bool, KindFault>
    ensures { Judges (λ fit. fit) result
        (arguments_fit (listed (map expr_tree args.now)) (map local_view formals.now)
        (names_view names.now)) }
{
    for place in 0..args.len() {
        let e = &args[place];
        let k = kind(names, e)?;
        argument_fits(names, formal_at(formals, place), &k, place_of(e))?;
    }
    Ok(args.len() == formals.len())
}

/// The formal at a place.
#[tactic(auto, using(crate::proofs::Steps::formal_at))]
fn formal_at(formals: &[BoundLocal], place: usize) -> Option<&BoundLocal>
    ensures { option_map (λ f. local_view f.now) result
        ≡ slice_get (map local_view formals.now) place }
{
    formals.get(place)
}

/// The offset at which an expression begins.
fn place_of(e: &Expr) -> u32
    ensures { result ≡ begins (expr_tree e.now) }
{
    e.at
}

/// That an argument is of its formal's kind, if there is a formal for it.
fn argument_fits(
    names: &Names,
    formal: Option<&BoundLocal>,
    k: &Kind,
    at: u32,
) -> Result<(), KindFault>
    ensures { Judges (λ _. tt) result
        (formal_fits (option_map (λ f. local_view f.now) formal.entry) (kind_view k.now) at) }
{
    let Some(formal) = formal else {
        return Ok(());
    };
    let wanted = kind_of_type(names.alloc, &formal.shape)?;
    one_kind(&wanted, k, at)
}

// ---- lists

/// A list of expressions.
#[cycle(kind)]
fn kind_of_list(names: &Names, items: &[Expr], at: u32) -> Result<Kind, KindFault>
    ensures { Judges kind_view result
        (kind (tree.list (listed (map expr_tree items.now)) at) (names_view names.now)) }
{
    let Some((first, others)) = items.split_first() else {
        return Err(wrong_kind(at));
    };
    let k = kind(names, first)?;
    let fit = fit_of(names, &k, others)?;
    if !fit.like {
        return Err(wrong_kind(at));
    }
    if !fit.same {
        return Err(KindFault::Broken {
            rule: Rule::WRONG_LENGTH,
            at,
        });
    }
    list_of_kind(names.alloc, items.len(), k, at)
}

/// Whether the kinds of expressions are like another one, and the same.
#[cycle(kind)]
fn fit_of(names: &Names, k: &Kind, exprs: &[Expr]) -> Result<Fit, KindFault>
    ensures { Judges (λ fit. fit) result
        (and_so (kinds (listed (map expr_tree exprs.now)) (names_view names.now))
        (λ ks. Fine (fit_of (kind_view k.now) ks))) }
{
    let mut fit = Fit::of_none();
    for e in exprs {
        let l = kind(names, e)?;
        fit = fit.with(k, &l);
    }
    Ok(fit)
}

// ---- comprehensions

/// An item over generators: the item is judged first.
#[cycle(kind)]
fn kind_of_comp(names: &Names, item: &Expr, gens: &[Gen], at: u32) -> Result<Kind, KindFault>
    ensures { Judges kind_view result
        (kind (tree.comp (expr_tree item.now) (listed (map gen_tree gens.now)) at)
        (names_view names.now)) }
{
    let inside = Inside::of_gens(gens, names.inner);
    let k = kind(&names.under(&inside), item)?;
    let size = elements_in(names, gens)?;
    list_of_kind(names.alloc, size as usize, k, at)
}

/// How many elements generators make, or one more than the limit of a list if they make more.
#[cycle(kind)]
fn elements_in(names: &Names, gens: &[Gen]) -> Result<u32, KindFault>
    ensures { Judges (λ n. n) result
        (and_so (elements_in (listed (map gen_tree gens.now)) (names_view names.now))
        (λ n. Fine (capped n))) }
{
    let mut size: u32 = 1;
    for place in 0..gens.len() {
        let inside = Inside::of_gens(&gens[..place], names.inner);
        let numbers = numbers_of(&names.under(&inside), &gens[place])?;
        size = product(size, numbers);
    }
    Ok(size)
}

/// How many numbers a generator gives, or one more than the limit of a list if it gives more.
#[cycle(kind)]
fn numbers_of(names: &Names, g: &Gen) -> Result<u32, KindFault>
    ensures { Judges (λ n. n) result (numbers_judged (gen_tree g.now) (names_view names.now)) }
{
    let t = type_judged(names, &g.shape)?;
    counts(&t, g.shape.at)?;
    let low = constant_number(names, &g.from)?;
    let high = constant_number(names, &g.to)?;
    Ok(span(low, high))
}

// ---- constants

/// The number that a constant expression gives.
#[cycle(kind)]
pub fn constant_number(names: &Names, e: &Expr) -> Result<Num, KindFault>
    ensures { Judges (λ z. z) result
        (constant_number (kind (expr_tree e.now) (names_view names.now)) (expr_tree e.now)
        (names_view names.now)) }
{
    match kind(names, e)? {
        Kind::Num => number_given(names, e),
        Kind::Bool => Err(wrong_kind(e.at)),
        Kind::List(_, _) => Err(wrong_kind(e.at)),
    }
}

/// The number that an expression gives over the constants.
fn number_given(names: &Names, e: &Expr) -> Result<Num, KindFault>
    ensures { Judges (λ z. z) result
        (number_given (constant (expr_tree e.now) (names_view names.now)) (out-Expr e.now).at) }
{
    let not_constant = KindFault::Broken {
        rule: Rule::NOT_CONSTANT,
        at: e.at,
    };
    match value_of(names, e) {
        Ok(Value::Num(number)) => Ok(number),
        Ok(Value::Bool(_)) => Err(not_constant),
        Ok(Value::List(_)) => Err(not_constant),
        Err(EvalError::Trap(_)) => Err(KindFault::Broken {
            rule: Rule::CONSTANT_TRAPS,
            at: e.at,
        }),
        Err(EvalError::Lacks) => Err(not_constant),
        Err(EvalError::Clashes) => Err(not_constant),
        Err(EvalError::Memory) => Err(KindFault::Memory),
    }
}

// ---- types

/// The type that a type in a source is.
#[cycle(kind)]
pub fn type_judged(names: &Names, t: &TypeExpr) -> Result<Shape, KindFault>
    ensures judged { Judges shape_view result
        (type_judged (type_tree t.now) (names_view names.now)) }
    ensures filled { IfOk result (λ shape. 1 ≤ scalars_of_type (shape_view shape)) }
{
    let name = t.name.text.as_str();
    if !is_word(name) {
        return Err(KindFault::Broken {
            rule: Rule::UNKNOWN_NAME,
            at: t.name.at,
        });
    }
    let given = type_arguments(names, &t.args)?;
    type_with(names.alloc, name, given, t.at)
}

/// The arguments that a type is given.
#[cycle(kind)]
fn type_arguments<'a>(names: &Names, args: &'a [TypeArg]) -> Result<Vec<Argument<'a>>, KindFault>
    ensures { Judges (λ given. map argument_view given.items) result
        (type_arguments (listed (map type_arg_tree args.entry.now)) (names_view names.now)) }
{
    let mut given = Vec::new(names.alloc);
    for arg in args {
        given.push(argument(names, arg)?)?;
    }
    Ok(given)
}

/// An argument of a type.
#[cycle(kind)]
fn argument<'a>(names: &Names, arg: &'a TypeArg) -> Result<Argument<'a>, KindFault>
    ensures { Judges argument_view result
        (argument_judged (type_arg_tree arg.entry.now) (names_view names.now)) }
{
    match arg {
        TypeArg::Shape { name, shape } => {
            let shape = type_judged(names, shape)?;
            Ok(Argument::Shape(name, Filled::new(shape)))
        }
        TypeArg::Value { name, value } => {
            let size = constant_number(names, value)?;
            Ok(Argument::Size(name, size))
        }
    }
}
