//! What expressions give: a plain program of their meaning, from left to right.
#![tactic(auto, using(crate::proofs::Going::stops_on))]

ghost use Rattle.std.specs.Prelude.{◌≡◌, ◌<◌, ℕ, IfOk, map, true};
ghost use Rattle.rvc_base.specs.Turns.{max_turns};
ghost use Rattle.cal_ast.specs.Tree.{listed};
ghost use Rattle.cal_ast.specs.Tree as tree;
ghost use Rattle.cal_ast.specs.View.{expr_tree, gen_tree, type_arg_tree, type_tree};
ghost use Rattle.cal_model.specs.Call.{declared, first_value};
ghost use Rattle.cal_model.specs.Env.{variable, with_local};
ghost use Rattle.cal_model.specs.Expression.{args_given, each_from, elements, eval, eval_all, indexed, span, type_meant};
ghost use Rattle.cal_model.specs.Outcome.{alone, and_then, turn, Gives};
ghost use Rattle.cal_model.specs.Value.{Num, Single, joined, stored};
ghost use Rattle.cal_model.specs.View.{in_order, local_view, shape_view, value_view};
ghost use Rattle.const_env.specs.Outcome.{Evaluates};
ghost use Rattle.const_env.specs.Meant.{IsKept, counted, counter_var, erased, given_view, kept_in, name_of};
ghost use Rattle.const_expr.specs.Scoping.{calls, seen};
ghost use Rattle.const_env.specs.Sizes.{are_sized, is_size, is_sized};

use crate::entry::{entry, turn};
use crate::scope::{Declared, Local, Scope};
use cal_ast::{BinOp, Expr, ExprForm, Gen, TypeArg, TypeExpr};
use cal_model::{BoundFun, BoundLocal, Value};
use const_env::EvalError;
use const_env::operators::{applied, decides, indexed, literal, prefixed};
use const_env::types::{Counting, Given, counted, number, type_named};
use const_env::value::{list_of, stored, stored_single, zero_of};
use rvc_base::{MAX_TURNS, Num, Scalar};

/// The value of an expression over what its scope sees, with so many turns left (ISO/IEC 23001-4, RVC-CAL: expressions).
/// The turns that it made are taken off.
///
/// # Errors
///
/// `Trap` if it traps, `Lacks` if it reaches a name that means nothing, and `Clashes` if it reaches a part that is of
/// another kind than its form asks, whichever comes first. `Memory` if memory runs out.
#[cycle(eval)]
pub fn eval(scope: &Scope, e: &Expr, left: &mut u32) -> Result<Value, EvalError>
    ensures { Evaluates value_view result left.new
        (eval (expr_tree e.now) (calls scope.now) (seen scope.now) left.old) }
{
    match &e.form {
        ExprForm::Number(number) => literal(*number),
        ExprForm::Bool(truth) => Ok(Value::Bool(*truth)),
        ExprForm::Name(name) => scope.copied(name.as_str()),
        ExprForm::Call { name, args } => eval_call(scope, name.as_str(), args, left),
        ExprForm::Paren(inner) => eval(scope, inner, left),
        ExprForm::If { test, yes, no } => eval_if(scope, test, yes, no, left),
        ExprForm::List(items) => eval_list(scope, items, left),
        ExprForm::Comp { item, gens } => eval_comp(scope, item, gens, left),
        ExprForm::Index { base, place } => eval_index(scope, base, place, left),
        ExprForm::Prefix { op, of } => {
            let value = eval(scope, of, left)?;
            prefixed(*op, &value)
        }
        ExprForm::Binary {
            op,
            left: first,
            right: second,
        } => eval_binary(scope, *op, first, second, left),
    }
}

/// The values of expressions in order.
#[cycle(eval)]
fn eval_all(scope: &Scope, exprs: &[Expr], left: &mut u32) -> Result<Vec<Value>, EvalError>
    ensures { Evaluates (λ values. in_order (map value_view values.items)) result left.new
        (eval_all (listed (map expr_tree exprs.now)) (calls scope.now) (seen scope.now) left.old) }
{
    let mut items = Vec::new(scope.alloc);
    for e in exprs {
        let value = eval(scope, e, left)?;
        items.push(value)?;
    }
    Ok(items)
}

/// The list of the values of expressions.
#[cycle(eval)]
fn eval_list(scope: &Scope, exprs: &[Expr], left: &mut u32) -> Result<Value, EvalError>
    ensures { Evaluates value_view result left.new
        (eval (tree.list (listed (map expr_tree exprs.now)) 0) (calls scope.now)
        (seen scope.now) left.old) }
{
    let items = eval_all(scope, exprs, left)?;
    Ok(list_of(items))
}

/// A condition, and then the branch that it chooses.
#[cycle(eval)]
fn eval_if(
    scope: &Scope,
    test: &Expr,
    yes: &Expr,
    no: &Expr,
    left: &mut u32,
) -> Result<Value, EvalError>
    ensures { Evaluates value_view result left.new
        (eval (tree.if_expr (expr_tree test.now) (expr_tree yes.now) (expr_tree no.now) 0)
        (calls scope.now) (seen scope.now) left.old) }
{
    match eval(scope, test, left)? {
        Value::Bool(true) => eval(scope, yes, left),
        Value::Bool(false) => eval(scope, no, left),
        Value::Num(_) => Err(EvalError::Clashes),
        Value::List(_) => Err(EvalError::Clashes),
    }
}

/// A list, the place in it, and then what stands there. Of a list that has a name only the item is copied.
#[cycle(eval)]
fn eval_index(scope: &Scope, base: &Expr, place: &Expr, left: &mut u32) -> Result<Value, EvalError>
    ensures { Evaluates value_view result left.new
        (eval (tree.index (expr_tree base.now) (expr_tree place.now) 0) (calls scope.now)
        (seen scope.now) left.old) }
{
    if let Some(list) = scope.named(base) {
        return eval_item(scope, list, place, left);
    }
    let list = eval(scope, base, left)?;
    eval_item(scope, &list, place, left)
}

/// A place in a list, and then what stands there.
#[cycle(eval)]
fn eval_item(scope: &Scope, list: &Value, place: &Expr, left: &mut u32) -> Result<Value, EvalError>
    ensures { Evaluates value_view result left.new
        (and_then (eval (expr_tree place.now) (calls scope.now) (seen scope.now) left.old)
        (λ i k. indexed (value_view list.now) i k)) }
{
    let place = eval(scope, place, left)?;
    indexed(scope.alloc, list, &place)
}

/// An operation with two operands. The right one isn't evaluated if the left one decides.
#[tactic(auto, using(crate::proofs::Going::stops_on, crate::proofs::Rights::goes_right))]
#[cycle(eval)]
fn eval_binary(
    scope: &Scope,
    op: BinOp,
    first: &Expr,
    second: &Expr,
    left: &mut u32,
) -> Result<Value, EvalError>
    ensures { Evaluates value_view result left.new
        (eval (tree.binary op (expr_tree first.now) (expr_tree second.now) 0) (calls scope.now)
        (seen scope.now) left.old) }
{
    let first = eval(scope, first, left)?;
    if decides(op, &first) {
        return Ok(first);
    }
    let second = eval(scope, second, left)?;
    applied(op, &first, &second)
}

// ---- calls

/// The arguments, one turn, and then the function.
#[cycle(eval)]
fn eval_call(scope: &Scope, name: &str, args: &[Expr], left: &mut u32) -> Result<Value, EvalError>
    ensures { Evaluates value_view result left.new
        (eval (tree.call name.now (listed (map expr_tree args.now)) 0) (calls scope.now)
        (seen scope.now) left.old) }
{
    let values = eval_all(scope, args, left)?;
    turn(left)?;
    called(scope, name, &values, left)
}

/// What the function of the name gives for arguments.
#[cycle(eval)]
fn called(scope: &Scope, name: &str, args: &[Value], left: &mut u32) -> Result<Value, EvalError>
    ensures { Evaluates value_view result left.new
        (calls scope.now (seen scope.now).globals name.now
        (in_order (map value_view args.now)) left.old) }
{
    if scope.depth == 0 {
        return Err(EvalError::Lacks);
    }
    let Some(fun) = scope.env.fun(name) else {
        return Err(EvalError::Lacks);
    };
    let arguments = entry(scope.alloc, &fun.formals, args)?;
    let inner = scope.entered(fun, &arguments);
    answer(&inner, fun, &fun.locals, left)
}

/// The locals that are left, in order, and then the body, whose value is stored in the type of the result.
#[cycle(eval)]
fn answer(
    scope: &Scope,
    fun: &BoundFun,
    locals: &[BoundLocal],
    left: &mut u32,
) -> Result<Value, EvalError>
    requires result { is_size fun.now.result ≡ true }
    requires locals { are_sized (map local_view locals.now) ≡ true }
    ensures { Evaluates value_view result left.new
        (and_then (declared (map local_view locals.now) (calls scope.now) (seen scope.now) left.old)
        (λ env m. and_then (eval (expr_tree fun.now.body) (calls scope.now) env m)
        (λ v k. Gives (stored (Single fun.now.result) v) k))) }
{
    let Some((first, others)) = locals.split_first() else {
        let value = eval(scope, &fun.body, left)?;
        return Ok(stored_single(scope.alloc, fun.result, &value)?);
    };
    let value = first_value(scope, first, left)?;
    let local = Local {
        of: Declared::Local(first),
        value,
        outer: scope.innermost,
    };
    answer(&scope.inside(&local), fun, others, left)
}

/// The first value of a local.
#[cycle(eval)]
fn first_value(scope: &Scope, local: &BoundLocal, left: &mut u32) -> Result<Value, EvalError>
    requires { is_sized (shape_view local.now.shape) ≡ true }
    ensures { Evaluates value_view result left.new
        (first_value (local_view local.now).shape (local_view local.now).start (calls scope.now)
        (seen scope.now) left.old) }
{
    match &local.start {
        None => Ok(zero_of(scope.alloc, &local.shape)?),
        Some(start) => {
            let value = eval(scope, start, left)?;
            Ok(stored(scope.alloc, &local.shape, &value)?)
        }
    }
}

// ---- comprehensions

/// The list of the elements of a comprehension.
#[cycle(eval)]
fn eval_comp(scope: &Scope, item: &Expr, gens: &[Gen], left: &mut u32) -> Result<Value, EvalError>
    ensures { Evaluates value_view result left.new
        (eval (tree.comp (expr_tree item.now) (listed (map gen_tree gens.now)) 0) (calls scope.now)
        (seen scope.now) left.old) }
{
    let mut items = Vec::new(scope.alloc);
    elements(scope, item, gens, &mut items, left)?;
    Ok(list_of(items))
}

/// Adds the elements of a comprehension: the first generator is outermost.
#[cycle(eval)]
fn elements(
    scope: &Scope,
    item: &Expr,
    gens: &[Gen],
    found: &mut Vec<Value>,
    left: &mut u32,
) -> Result<(), EvalError>
    ensures { Evaluates (λ _. in_order (map value_view found.new.items)) result left.new
        (and_then (elements (listed (map gen_tree gens.now))
        (λ inner k. eval (expr_tree item.now) (calls scope.now) inner k) (calls scope.now)
        (seen scope.now) left.old) (λ vs k. Gives
        (joined (in_order (map value_view found.old.items)) vs) k)) }
{
    let Some((first, others)) = gens.split_first() else {
        return element(scope, item, found, left);
    };
    let t = type_meant(scope, &first.shape)?;
    let low = constant(scope, &first.from)?;
    let high = constant(scope, &first.to)?;
    let Some(low) = number(&low) else {
        return Err(EvalError::Clashes);
    };
    let Some(high) = number(&high) else {
        return Err(EvalError::Clashes);
    };
    let range = Counting::between(t, low, high);
    each(scope, item, first, others, range, found, left)
}

/// Adds one element: one turn, and then its value.
#[cycle(eval)]
fn element(
    scope: &Scope,
    item: &Expr,
    found: &mut Vec<Value>,
    left: &mut u32,
) -> Result<(), EvalError>
    ensures { Evaluates (λ _. in_order (map value_view found.new.items)) result left.new
        (and_then (elements tree.nil (λ inner k. eval (expr_tree item.now)
        (calls scope.now) inner k) (calls scope.now) (seen scope.now) left.old)
        (λ vs k. Gives (joined (in_order (map value_view found.old.items)) vs) k)) }
{
    turn(left)?;
    let value = eval(scope, item, left)?;
    found.push(value)?;
    Ok(())
}

/// Adds the elements for each number of a generator's range, in order.
#[cycle(eval)]
fn each(
    scope: &Scope,
    item: &Expr,
    first: &Gen,
    others: &[Gen],
    range: Counting,
    found: &mut Vec<Value>,
    left: &mut u32,
) -> Result<(), EvalError>
    requires { IsKept range.t }
    ensures { Evaluates (λ _. in_order (map value_view found.new.items)) result left.new
        (and_then (each_from (span range.low range.high) range.low
        (λ i m. elements (listed (map gen_tree others.now))
        (λ inner k. eval (expr_tree item.now) (calls scope.now) inner k) (calls scope.now)
        (with_local (counter_var (name_of first.now) (counted range.t i)) (seen scope.now)) m)
        left.old) (λ vs k. Gives (joined (in_order (map value_view found.old.items)) vs) k)) }
{
    if range.high < range.low {
        return Ok(());
    }
    let mut number = range.low;
    'numbers: loop {
        let local = Local {
            of: Declared::Counter(&first.name),
            value: counted(range.t, number),
            outer: scope.innermost,
        };
        elements(&scope.inside(&local), item, others, found, left)?;
        if number == range.high {
            return Ok(());
        }
        number += 1;
    }
}

/// The value of a constant expression, which counts its turns for itself.
#[cycle(eval)]
fn constant(scope: &Scope, e: &Expr) -> Result<Value, EvalError>
    ensures { (left : ℕ) → Evaluates value_view result left
        (alone (eval (expr_tree e.now) (calls scope.now) (seen scope.now) max_turns) left) }
{
    let mut turns = MAX_TURNS;
    eval(scope, e, &mut turns)
}

// ---- types

/// The type that is meant, as what a number is stored in: None for a list.
#[cycle(eval)]
fn type_meant(scope: &Scope, t: &TypeExpr) -> Result<Option<Scalar>, EvalError>
    ensures means { (left : ℕ) → Evaluates
        (λ kept. kept) result left (and_then
        (type_meant (type_tree t.now) (calls scope.now) (seen scope.now) left)
        (λ shape k. Gives (kept_in shape) k)) }
    ensures sized { IfOk result IsKept }
{
    let given = args_given(scope, &t.args)?;
    type_named(t.name.text.as_str(), given)
}

/// The arguments that a type is given.
#[cycle(eval)]
fn args_given(scope: &Scope, args: &[TypeArg]) -> Result<Given, EvalError>
    ensures { (left : ℕ) → Evaluates given_view result left
        (and_then (args_given (listed (map type_arg_tree args.now)) (calls scope.now)
        (seen scope.now) left) (λ given k. Gives (erased given) k)) }
{
    let Some((first, others)) = args.split_first() else {
        return Ok(Given::nothing());
    };
    match first {
        TypeArg::Shape { name: _, shape } => {
            let _t = type_meant(scope, shape)?;
            let given = args_given(scope, others)?;
            Ok(given.with_items())
        }
        TypeArg::Value { name: _, value } => {
            let size = constant(scope, value)?;
            let given = args_given(scope, others)?;
            Ok(given.with_size(&size))
        }
    }
}
