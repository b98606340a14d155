//! The values and the kinds of constant expressions.

ghost use Rattle.std.specs.Prelude.{◌≡◌, ℕ, IfOk, IsErrOf};
ghost use Rattle.rvc_base.specs.declared.refusal.Rule.{Rule};
ghost use Rattle.rvc_base.specs.declared.trap.Trap.{Trap};
ghost use Rattle.cal_ast.specs.Tree.{Tree};
ghost use Rattle.cal_ast.specs.View.{expr_tree};
ghost use Rattle.cal_model.specs.Kinding.{Broken, Fine, kind};
ghost use Rattle.cal_model.specs.Outcome.{Clashes, Gives, Lacks, Traps};
ghost use Rattle.cal_model.specs.View.{kind_view, value_view};
ghost use Rattle.const_env.specs.Constants.{Constants};
ghost use Rattle.const_expr.specs.Evaluable.{HasNoValue, IsEvaluable, value_of};
ghost use Rattle.const_env.specs.Held.{held, names_in};

use crate::ending::eval_to_end;
use cal_ast::Expr;
use cal_model::{Kind, Value, kinds_are_kept};
use const_env::{Env, EvalError, KindFault, Names};
use const_expr::kind;
use rvc_base::Trap;
use std::alloc::Global;

/// Why a constant expression has no value.
#[derive(Clone, Copy, Debug, PartialEq, Eq)]
pub enum ConstFault {
    /// Its evaluation traps.
    Trap(Trap),
    /// Its evaluation reaches a name that the environment lacks.
    NotConstant,
    /// An allocation was refused.
    Memory,
}

/// The value of an expression over the constants and functions of the environment (ISO/IEC 23001-4, RVC-CAL:
/// expressions), with its own count of turns.
///
/// # Errors
///
/// `Trap` if the evaluation traps (`trap`). `NotConstant` if it reaches a name that the environment lacks, or a part
/// that is of another kind than its form asks (`no_value`). `Memory` if memory runs out.
///
/// `NotConstant` has the first of these two causes (`not_constant`), provided that some kinds can be given to the names
/// that the environment lacks such that the expression has a kind and each function is of the kinds that it declares,
/// that the items of each list among the constants are of one kind, and that no function calls itself, directly or
/// indirectly.
///
/// # Examples
///
/// ```
/// let alloc = rt.alloc();
/// let mut env = Env::new(alloc);
/// env.add_value("n", Value::Num(5))?;
/// let form = ExprForm::Name(String::from_str(alloc, "n")?);
/// let of = Box::new(alloc, Expr { form, at: 1 })?;
/// let op = PrefixOp::Neg;
/// let e = Expr { form: ExprForm::Prefix { op, of }, at: 0 };
/// assert!(rt; matches!(eval_const(alloc, &env, &e), Ok(Value::Num(-5))));
///
/// env = Env::new(alloc);
/// assert!(rt; matches!(eval_const(alloc, &env, &e), Err(ConstFault::NotConstant)));
/// ```
pub fn eval_const(alloc: Global, env: &Env, e: &Expr) -> Result<Value, ConstFault>
    ensures value { IfOk result (λ value. (left : ℕ)
        × (value_of (expr_tree e.now) (held env.now) ≡ Gives (value_view value) left)) }
    ensures trap { (c : Trap) → IsErrOf result (ConstFault.Trap c)
        → value_of (expr_tree e.now) (held env.now) ≡ Traps c }
    ensures no_value { IsErrOf result ConstFault.NotConstant
        → HasNoValue (value_of (expr_tree e.now) (held env.now)) }
    ensures not_constant { IsErrOf result ConstFault.NotConstant
        → IsEvaluable (held env.now) (expr_tree e.now)
        → value_of (expr_tree e.now) (held env.now) ≡ Lacks }
{
    never_clashes();
    match eval_to_end(alloc, env, e) {
        Ok(value) => Ok(value),
        Err(EvalError::Trap(trap)) => Err(ConstFault::Trap(trap)),
        Err(EvalError::Lacks) => Err(ConstFault::NotConstant),
        // Nothing clashes if the expression has a kind.
        Err(EvalError::Clashes) => Err(ConstFault::NotConstant),
        Err(EvalError::Memory) => Err(ConstFault::Memory),
    }
}

/// The kind of an expression over the kinds and the values of the constants, and the functions, of the environment
/// (ISO/IEC 23001-4, RVC-CAL: expressions and types).
///
/// # Errors
///
/// `Broken` if the expression breaks a rule: the first one, parts before wholes and from left to right, and its place
/// (`broken`). S1 if a name or a type is unknown; T1, T2, T3, T5, T6 and Z4 as their rules say; T7 and T9 if the bound
/// of a generator or the size of a type traps or isn't constant. `Memory` if memory runs out, or if a constant is a
/// list of more items than a kind can say.
pub fn kind_const(alloc: Global, env: &Env, e: &Expr) -> Result<Kind, KindFault>
    ensures kind { IfOk result (λ found. kind (expr_tree e.now) (names_in env.now)
        ≡ Fine (kind_view found)) }
    ensures broken { (rule : Rule) (at : ℕ) → IsErrOf result (KindFault.Broken rule at)
        → kind (expr_tree e.now) (names_in env.now) ≡ Broken rule at }
{
    kind(&Names::outermost(alloc, env), e)
}

/// Nothing clashes if an expression may be evaluated.
fn never_clashes()
    ensures { (env : Constants) (e : Tree) → IsEvaluable env e → value_of e env ≡ Clashes → ⊥ }
{
    kinds_are_kept();
}
