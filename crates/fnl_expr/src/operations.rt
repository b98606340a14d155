//! Expressions that are made of others, and how a row of operands and operators is grouped.

ghost use Rattle.std.specs.Prelude.{◌≡◌, ◌∷◌, [], ◌++◌, IfOk, map, length, ◌<◌};
ghost use Rattle.cal_ast.specs.Tree.{binary, list, listed, prefix};
ghost use Rattle.cal_ast.specs.View.{expr_tree};
ghost use Rattle.fnl_expr.specs.Operations as meant;
ghost use Rattle.fnl_expr.specs.Stack.{stack};
ghost use Rattle.fnl_expr.specs.Answers.{Makes, PopsDue};
ghost use Rattle.fnl_expr.specs.Views.{pending_of, tall_tree, waiting_of};

use crate::operators::level;
use crate::stop::{Stop, too_deep};
use crate::tall::{MAX_HEIGHT, MeasuredExpr, MeasuredExprs};
use cal_ast::{BinOp, Expr, ExprForm, PrefixOp};
use std::alloc::{AllocError, Global};

/// An operand that waits for what stands behind its operator.
#[derive(Drop)]
pub struct Pending {
    pub left: MeasuredExpr,
    pub op: BinOp,
}

/// A binary operation at a place, in the element at another.
fn binary(
    alloc: Global,
    op: BinOp,
    left: MeasuredExpr,
    right: MeasuredExpr,
    at: u32,
    element: u32,
) -> Result<MeasuredExpr, Stop>
    ensures { Makes tall_tree (meant.made (binary op (tall_tree left) (tall_tree right) at))
        element result }
{
    let high = left.high.max(right.high) + 1;
    if high > MAX_HEIGHT {
        return Err(too_deep(element));
    }
    let form = ExprForm::Binary {
        op,
        left: Box::new(alloc, left.expr)?,
        right: Box::new(alloc, right.expr)?,
    };
    Ok(MeasuredExpr {
        expr: Expr { form, at },
        high,
    })
}

/// A prefix and its operand, at an offset.
///
/// # Errors
///
/// `Broken` with F5 at the offset if it is too high; and `Memory`.
pub fn prefix(
    alloc: Global,
    op: PrefixOp,
    operand: MeasuredExpr,
    at: u32,
) -> Result<MeasuredExpr, Stop>
    ensures { Makes tall_tree (meant.made (prefix op (tall_tree operand) at)) at result }
{
    let high = operand.high + 1;
    if high > MAX_HEIGHT {
        return Err(too_deep(at));
    }
    let form = ExprForm::Prefix {
        op,
        of: Box::new(alloc, operand.expr)?,
    };
    Ok(MeasuredExpr {
        expr: Expr { form, at },
        high,
    })
}

/// A list of these items, at an offset.
///
/// # Errors
///
/// `Broken` with F5 at the offset if it is too high.
pub fn list(items: MeasuredExprs, at: u32) -> Result<MeasuredExpr, Stop>
    ensures { Makes tall_tree (meant.made (list (listed (map expr_tree items.exprs.items)) at))
        at result }
{
    let high = items.high + 1;
    if high > MAX_HEIGHT {
        return Err(too_deep(at));
    }
    let form = ExprForm::List(items.exprs);
    Ok(MeasuredExpr {
        expr: Expr { form, at },
        high,
    })
}

/// No expressions.
pub fn no_exprs(alloc: Global) -> MeasuredExprs
    ensures { map expr_tree result.exprs.items ≡ [] }
{
    MeasuredExprs {
        exprs: Vec::new(alloc),
        high: 0,
    }
}

/// These expressions and one more.
///
/// # Errors
///
/// An allocation was refused.
pub fn with_item(items: MeasuredExprs, next: MeasuredExpr) -> Result<MeasuredExprs, AllocError>
    ensures { IfOk result (λ xs. map expr_tree xs.exprs.items
        ≡ map expr_tree items.exprs.items ++ tall_tree next ∷ []) }
{
    let high = items.high.max(next.high);
    let mut exprs = items.exprs;
    exprs.push(next.expr)?;
    Ok(MeasuredExprs { exprs, high })
}

/// Takes the operand that waits last, if it waits for no looser operator than this.
#[tactic(auto, using(crate::proofs::Stacks::stack_push))]
fn pop_due(waiting: &mut Vec<Pending>, op: BinOp) -> Result<Option<Pending>, AllocError>
    ensures { IfOk result (λ found. PopsDue op
        (stack pending_of waiting.old.items) (stack pending_of waiting.new.items) found) }
{
    let Some(pending) = waiting.pop() else {
        return Ok(None);
    };
    if level(pending.op) > level(op) {
        waiting.push(pending)?;
        return Ok(None);
    }
    Ok(Some(pending))
}

/// An operand that waits, with what stands behind its operator, in the element at an offset.
fn joined(
    alloc: Global,
    pending: Pending,
    right: MeasuredExpr,
    element: u32,
) -> Result<MeasuredExpr, Stop>
    ensures { Makes tall_tree (meant.joined (pending_of pending) (tall_tree right)) element result }
{
    let at = pending.left.expr.at;
    binary(alloc, pending.op, pending.left, right, at, element)
}

/// What waits before an operator, with that operator, in the element at an offset.
///
/// # Errors
///
/// `Broken` with F5 at the element if an operation is too high; and `Memory`.
pub fn before_operator(
    alloc: Global,
    op: BinOp,
    waiting: Vec<Pending>,
    operand: MeasuredExpr,
    element: u32,
) -> Result<Vec<Pending>, Stop>
    ensures { Makes waiting_of
        (meant.before_operator op (waiting_of waiting) (tall_tree operand)) element result }
{
    let mut waiting = waiting;
    let mut right = operand;
    'due: while let Some(pending) = pop_due(&mut waiting, op)? {
        right = joined(alloc, pending, right, element)?;
    }
    waiting.push(Pending { left: right, op })?;
    Ok(waiting)
}

/// The whole row, which stands at an offset.
///
/// # Errors
///
/// `Broken` with F5 at the offset if an operation is too high; and `Memory`.
pub fn grouped(
    alloc: Global,
    waiting: Vec<Pending>,
    operand: MeasuredExpr,
    at: u32,
) -> Result<MeasuredExpr, Stop>
    requires { 0 < length waiting.items }
    ensures { Makes tall_tree (meant.grouped at (waiting_of waiting) (tall_tree operand))
        at result }
{
    let mut waiting = waiting;
    let mut right = operand;
    'row: while waiting.len() > 1 {
        let Some(pending) = waiting.pop() else {
            unreachable!()
        };
        right = joined(alloc, pending, right, at)?;
    }
    let Some(first) = waiting.pop() else {
        unreachable!()
    };
    binary(alloc, first.op, first.left, right, at, at)
}
