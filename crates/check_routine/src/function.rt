//! Functions.
#![tactic(auto, using(crate::proofs::Judged::breaks_on, check_stmt::proofs::Said::said_none))]

ghost use Rattle.std.specs.Prelude.{◌≡◌, IfOk};
ghost use Rattle.cal_ast.specs.View.{expr_tree, function_tree, type_tree};
ghost use Rattle.cal_model.specs.Value.{kind_of_scalar};
ghost use Rattle.cal_model.specs.View.{kind_view};
ghost use Rattle.const_env.specs.Counting.{names_view};
ghost use Rattle.const_env.specs.Judging.{Judges};
ghost use Rattle.cal_check.specs.Routines.{fun_broken, fun_inside, head_judged, single_type};
ghost use Rattle.cal_check.specs.Violations.{said};
ghost use Rattle.check_stmt.specs.Declaring.{seen_behind};
ghost use Rattle.check_stmt.specs.Judging.{Checks};
ghost use Rattle.check_routine.specs.Heads.{AreSeen, body_broken, head_view, value_broken, vars_tree};

use crate::formal::{FoundFormals, formals};
use crate::single::single_type;
use cal_ast::{Expr, Function, TypeExpr, VarDecl};
use cal_model::Kind;
use check_stmt::{check_stored, check_vars};
use const_eval::{Inside, KindFault, Names, Variables};
use rvc_base::Scalar;

/// The head of a function: its formals and the type of its result.
#[derive(Drop)]
pub struct FunHead {
    pub formals: FoundFormals,
    pub result: Scalar,
}

/// The head of a function; the type of its result sees the formals.
///
/// # Errors
///
/// `Broken`: the first rule that a type breaks, or T8 at it if it is that of lists. `Memory` if memory runs out.
pub fn head(names: &Names, f: &Function) -> Result<FunHead, KindFault>
    ensures judged { Judges head_view result
        (head_judged (function_tree f.now) (names_view names.now)) }
    ensures seen { IfOk result (λ head. AreSeen head.formals names.now) }
{
    let formals = formals(names, &f.formals)?;
    let result = single_behind(names, &formals.seen, &f.result)?;
    Ok(FunHead { formals, result })
}

/// The type of a single value that stands behind variables.
fn single_behind(names: &Names, before: &Variables, shape: &TypeExpr) -> Result<Scalar, KindFault>
    ensures { Judges (λ t. t) result
        (single_type (type_tree shape.now) (seen_behind before.now names.now)) }
{
    let inside = Inside {
        variables: Some(before),
        gens: &[],
        outer: names.inner,
    };
    single_type(&names.under(&inside), shape)
}

/// What is inside a function: its locals, and its body, whose value is stored in the type of its result. Nothing is
/// said of it if its head breaks a rule. What isn't constant is passed over if `passes`.
///
/// # Errors
///
/// `Broken` if a local or the body breaks a rule: one of those that are broken, and its place. `Memory` if memory runs
/// out.
pub fn check_function(names: &Names, f: &Function, passes: bool) -> Result<(), KindFault>
    ensures { Checks result (said passes
        (fun_broken (function_tree f.now) (names_view names.now))) }
{
    match head(names, f) {
        Ok(head) => inside(names, &head, f, passes),
        Err(KindFault::Broken { .. }) => Ok(()),
        Err(KindFault::Memory) => Err(KindFault::Memory),
    }
}

/// What is inside a function of a head.
fn inside(names: &Names, head: &FunHead, f: &Function, passes: bool) -> Result<(), KindFault>
    requires { AreSeen head.now.formals names.now }
    ensures { Checks result (said passes
        (fun_inside (function_tree f.now) (names_view names.now) (head_view head.now))) }
{
    let inside = Inside {
        variables: Some(&head.formals.seen),
        gens: &[],
        outer: names.inner,
    };
    body(&names.under(&inside), &f.vars, head.result, &f.body, passes)
}

/// Locals, and an expression behind them whose value is stored in a type.
#[tactic(auto, using(check_stmt::proofs::Said::said_none, check_stmt::proofs::Said::said_on, check_stmt::proofs::Said::said_behind, check_stmt::proofs::Said::said_next))]
fn body(
    names: &Names,
    declared: &[VarDecl],
    t: Scalar,
    e: &Expr,
    passes: bool,
) -> Result<(), KindFault>
    ensures { Checks result (said passes
        (body_broken (vars_tree declared.now) t (expr_tree e.now) (names_view names.now))) }
{
    let Some(variables) = check_vars(names, declared, passes)? else {
        return Ok(());
    };
    value_behind(names, &variables, t, e, passes)
}

/// An expression behind variables whose value is stored in a type.
fn value_behind(
    names: &Names,
    variables: &Variables,
    t: Scalar,
    e: &Expr,
    passes: bool,
) -> Result<(), KindFault>
    ensures { Checks result (said passes
        (value_broken t (expr_tree e.now) (seen_behind variables.now names.now))) }
{
    let inside = Inside {
        variables: Some(variables),
        gens: &[],
        outer: names.inner,
    };
    value(&names.under(&inside), t, e, passes)
}

/// An expression whose value is stored in a type.
fn value(names: &Names, t: Scalar, e: &Expr, passes: bool) -> Result<(), KindFault>
    ensures { Checks result (said passes
        (value_broken t (expr_tree e.now) (names_view names.now))) }
{
    check_stored(names, &kind_of_scalar(t), e, passes)
}

/// The kind of the values of a single type.
fn kind_of_scalar(t: Scalar) -> Kind
    ensures { kind_view result ≡ kind_of_scalar t }
{
    match t {
        Scalar::Bool => Kind::Bool,
        Scalar::Int(_) => Kind::Num,
        Scalar::Uint(_) => Kind::Num,
    }
}
