//! The values with which variables start.

ghost use Rattle.std.specs.Prelude.{◌≡◌, ℕ, IfOk, true};
ghost use Rattle.std.specs.declared.result.Result.TheVariants.{Err, Ok};
ghost use Rattle.cal_ast.specs.Places.{begins};
ghost use Rattle.cal_ast.specs.Tree.{Tree, present};
ghost use Rattle.cal_ast.specs.View.{expr_tree, optional_expr};
ghost use Rattle.cal_check.specs.Constants.{start_value, value_given};
ghost use Rattle.cal_check.specs.Variables.{Come, come, come_if, come_of};
ghost use Rattle.cal_model.specs.Kinding.{Judged, Names as NamesOf};
ghost use Rattle.cal_model.specs.Outcome.{Gives};
ghost use Rattle.cal_model.specs.Value.{IsType, Kind as KindOf, Shape as ShapeOf, kind_of_type};
ghost use Rattle.cal_model.specs.View.{kind_view, shape_view, value_view};
ghost use Rattle.const_env.specs.Held.{names_in};
ghost use Rattle.const_env.specs.Judging.{Breaks};
ghost use Rattle.check_variable.specs.Valuing.{ComesTo, said_of};

use crate::early_kind;
use crate::fault::is_not_constant;
use cal_ast::Expr;
use cal_model::{Kind, Shape, Value, constants_are_values};
use check_values::{has_kind, stored, zero_of};
use const_eval::{Env, EvalError, KindFault, Names, eval_to_end};
use rvc_base::{Memory, Rule};
use std::alloc::Global;

/// What a start comes to that breaks no rule.
#[derive(Drop)]
pub enum Started {
    /// Its value, stored in the type.
    Value(Value),
    /// No value: it needs one that is of no use, since what it belongs to broke a rule.
    Useless,
    /// No value: it isn't constant. The offset is that of the part that uses a name that isn't known yet, or that of the
    /// start if only its evaluation reaches one.
    NotConstant(u32),
}

/// What a start comes to that is to be stored in a type, over what is declared before it (ISO/IEC 23001-4, RVC-CAL:
/// state variables). A variable without a start begins with 0, false, or lists of these. `k` is the kind of the type.
///
/// # Errors
///
/// `Broken`: the first rule that the start breaks, and its place; T1 or T5 at it if its kind is another one, T7 if its
/// evaluation traps; never T9. `Memory` if memory runs out.
pub fn start(
    alloc: Global,
    env: &Env,
    t: &Shape,
    k: &Kind,
    value: &Option<Expr>,
) -> Result<Started, KindFault>
    requires allowed { IsType (shape_view t.now) }
    requires kind { kind_view k.now ≡ kind_of_type (shape_view t.now) }
    ensures { ComesTo result (come (shape_view t.now) (optional_expr value.now) (names_in env.now))
        (begins (optional_expr value.now)) }
{
    match value {
        Some(e) => start_at(alloc, env, t, k, e),
        None => Ok(Started::Value(zero_of(alloc, t)?)),
    }
}

/// What the start that an expression is comes to.
fn start_at(alloc: Global, env: &Env, t: &Shape, k: &Kind, e: &Expr) -> Result<Started, KindFault>
    requires allowed { IsType (shape_view t.now) }
    requires kind { kind_view k.now ≡ kind_of_type (shape_view t.now) }
    ensures { ComesTo result (come (shape_view t.now) (present (expr_tree e.now)) (names_in env.now))
        (begins (expr_tree e.now)) }
{
    match early_kind(&Names::outermost(alloc, env), k, e) {
        Ok(_) => value_at(alloc, env, t, k, e),
        Err(fault) => unkinded(fault),
    }
}

/// What a start comes to whose kind breaks a rule.
fn unkinded(fault: KindFault) -> Result<Started, KindFault>
    ensures { (j : Judged KindOf) (t : ShapeOf) (e : Tree) (names : NamesOf) (at : ℕ) → Breaks fault j
        → ComesTo result (come_if j t e names) at }
{
    match fault {
        KindFault::Broken { rule, at } => {
            if is_not_constant(rule) {
                return Ok(Started::NotConstant(at));
            }
            Err(KindFault::Broken { rule, at })
        }
        KindFault::Memory => Err(KindFault::Memory),
    }
}

/// What evaluation gives of an expression of a kind, stored in a type of this kind.
fn value_at(alloc: Global, env: &Env, t: &Shape, k: &Kind, e: &Expr) -> Result<Started, KindFault>
    requires allowed { IsType (shape_view t.now) }
    requires kind { kind_view k.now ≡ kind_of_type (shape_view t.now) }
    ensures { ComesTo result (come_of (start_value (shape_view t.now) (expr_tree e.now) (names_in env.now)))
        (begins (expr_tree e.now)) }
{
    constants_are_values();
    let at = place_of(e);
    match eval_to_end(alloc, env, e) {
        Ok(value) => Ok(kept(alloc, t, k, &value)?),
        Err(EvalError::Trap(_)) => Err(KindFault::Broken {
            rule: Rule::CONSTANT_TRAPS,
            at,
        }),
        Err(EvalError::Lacks) => Ok(Started::NotConstant(at)),
        Err(EvalError::Clashes) => Ok(Started::Useless),
        Err(EvalError::Memory) => Err(KindFault::Memory),
    }
}

/// The offset at which an expression begins.
fn place_of(e: &Expr) -> u32
    ensures { result ≡ begins (expr_tree e.now) }
{
    e.at
}

/// A value that evaluation gives, stored in a type if it is of its kind.
fn kept(alloc: Global, t: &Shape, k: &Kind, value: &Value) -> Result<Started, Memory>
    requires allowed { IsType (shape_view t.now) }
    requires kind { kind_view k.now ≡ kind_of_type (shape_view t.now) }
    ensures { IfOk result (λ s. (left at : ℕ) → ComesTo (Ok s)
        (come_of (value_given (Gives (value_view value.now) left) (shape_view t.now) at)) at) }
{
    if !has_kind(k, value) {
        return Ok(Started::Useless);
    }
    Ok(Started::Value(stored(alloc, t, value)?))
}

/// What is said of a start: nothing of what isn't constant, once an earlier value is of no use.
pub(crate) fn said(useless: bool, found: Result<Started, KindFault>) -> Result<Started, KindFault>
    ensures { (c : Come) (at : ℕ) → ComesTo found c at → ComesTo result (said_of useless c) at }
{
    if !useless {
        return found;
    }
    match found {
        Ok(started) => Ok(said_of_start(started)),
        Err(fault) => Err(fault),
    }
}

/// A start without value, whatever the reason.
fn said_of_start(started: Started) -> Started
    ensures { (c : Come) (at : ℕ) → ComesTo (Ok started) c at → ComesTo (Ok result) (said_of true c) at }
{
    match started {
        Started::Value(value) => Started::Value(value),
        Started::Useless => Started::Useless,
        Started::NotConstant(_) => Started::Useless,
    }
}
