//! Expressions that are made of others.

ghost use Rattle.std.specs.Prelude.{◌≡◌, ◌≤◌, ◌<◌, ◌++◌, ◌∷◌, [], IfOk, map, max, string_bytes};
ghost use Rattle.cal_ast.specs.Places.{begins};
ghost use Rattle.cal_ast.specs.Tree.{binary, prefix};
ghost use Rattle.cal_ast.specs.View.{expr_tree};
ghost use Rattle.cal_parse_base.specs.Pairs.{tall_tree};
ghost use Rattle.cal_parse_expr.specs.Steps.{Does, call_step, comp_step, each_expr, each_gen, if_step, index_step, list_step};

use crate::tall::{MeasuredExprs, MeasuredGens, tall};
use cal_ast::{BinOp, ExprForm, Ident};
use cal_lexer::{Token, Word};
use cal_parse_base::cursor::{expect, finish};
use cal_parse_base::fault::Fault;
use cal_parse_base::operators::Prefix;
use cal_parse_base::parts::{before_parts, with_part};
use cal_parse_base::tall::MeasuredExpr;
use std::alloc::{AllocError, Global};

/// A prefix and its operand.
pub fn prefixed(
    alloc: Global,
    room: u32,
    operator: Prefix,
    operand: MeasuredExpr,
) -> Result<MeasuredExpr, AllocError>
    requires { operand.high < room }
    ensures is { IfOk result (λ x. tall_tree x
        ≡ prefix operator.op (tall_tree operand) operator.at) }
    ensures low { IfOk result (λ x. x.high ≤ room) }
{
    let high = operand.high + 1;
    let form = ExprForm::Prefix {
        op: operator.op,
        of: operand.expr,
    };
    tall(alloc, form, operator.at, high)
}

/// A binary operation, which begins where its left side does.
pub fn operation(
    alloc: Global,
    room: u32,
    op: BinOp,
    left: MeasuredExpr,
    right: MeasuredExpr,
) -> Result<MeasuredExpr, AllocError>
    requires left_fits { left.high < room }
    requires right_fits { right.high < room }
    ensures is { IfOk result (λ x. tall_tree x
        ≡ binary op (tall_tree left) (tall_tree right) (begins (tall_tree left))) }
    ensures low { IfOk result (λ x. x.high ≤ room) }
{
    let high = left.high.max(right.high) + 1;
    let at = left.expr.at;
    let form = ExprForm::Binary {
        op,
        left: left.expr,
        right: right.expr,
    };
    tall(alloc, form, at, high)
}

/// What stands at an index, whose closing bracket is taken.
pub fn indexed(
    alloc: Global,
    tokens: &mut &[Token],
    room: u32,
    base: MeasuredExpr,
    place: MeasuredExpr,
) -> Result<MeasuredExpr, Fault>
    requires base_fits { base.high < room }
    requires place_fits { place.high < room }
    ensures told { Does tall_tree room
        (index_step (tall_tree base) (tall_tree place)) result tokens.old.now tokens.new.now }
    ensures low { IfOk result (λ x. x.high ≤ room) }
{
    expect(tokens, Word::RightBracket)?;
    let high = base.high.max(place.high) + 1;
    let at = base.expr.at;
    let form = ExprForm::Index {
        base: base.expr,
        place: place.expr,
    };
    Ok(tall(alloc, form, at, high)?)
}

/// A call, whose closing parenthesis is taken.
pub fn called(
    alloc: Global,
    tokens: &mut &[Token],
    room: u32,
    name: Ident,
    args: MeasuredExprs,
) -> Result<MeasuredExpr, Fault>
    requires { args.high < room }
    ensures told { Does tall_tree room
        (call_step (string_bytes name.text) name.at (each_expr args)) result tokens.old.now
        tokens.new.now }
    ensures low { IfOk result (λ x. x.high ≤ room) }
{
    expect(tokens, Word::RightParen)?;
    let form = ExprForm::Call {
        name: name.text,
        args: args.exprs,
    };
    Ok(tall(alloc, form, name.at, args.high + 1)?)
}

/// An `if` that begins here, whose end is taken.
pub fn conditional(
    alloc: Global,
    tokens: &mut &[Token],
    room: u32,
    at: u32,
    test: MeasuredExpr,
    yes: MeasuredExpr,
    no: MeasuredExpr,
) -> Result<MeasuredExpr, Fault>
    requires test_fits { test.high < room }
    requires yes_fits { yes.high < room }
    requires no_fits { no.high < room }
    ensures told { Does tall_tree room
        (if_step at (tall_tree test) (tall_tree yes) (tall_tree no)) result tokens.old.now
        tokens.new.now }
    ensures low { IfOk result (λ x. x.high ≤ room) }
{
    if !finish(tokens, Word::If) {
        return Err(Fault::Refused);
    }
    let high = test.high.max(yes.high.max(no.high)) + 1;
    let form = ExprForm::If {
        test: test.expr,
        yes: yes.expr,
        no: no.expr,
    };
    Ok(tall(alloc, form, at, high)?)
}

/// A list that begins here, whose closing bracket is taken.
pub fn listing(
    alloc: Global,
    tokens: &mut &[Token],
    room: u32,
    at: u32,
    items: MeasuredExprs,
) -> Result<MeasuredExpr, Fault>
    requires { items.high < room }
    ensures told { Does tall_tree room
        (list_step at (each_expr items)) result tokens.old.now tokens.new.now }
    ensures low { IfOk result (λ x. x.high ≤ room) }
{
    expect(tokens, Word::RightBracket)?;
    Ok(tall(alloc, ExprForm::List(items.exprs), at, items.high + 1)?)
}

/// A comprehension that begins here, whose closing bracket is taken.
pub fn comprehension(
    alloc: Global,
    tokens: &mut &[Token],
    room: u32,
    at: u32,
    item: MeasuredExpr,
    gens: MeasuredGens,
) -> Result<MeasuredExpr, Fault>
    requires item_fits { item.high < room }
    requires gens_fit { gens.high < room }
    ensures told { Does tall_tree room
        (comp_step at (tall_tree item) (each_gen gens)) result tokens.old.now tokens.new.now }
    ensures low { IfOk result (λ x. x.high ≤ room) }
{
    expect(tokens, Word::RightBracket)?;
    let high = item.high.max(gens.high) + 1;
    let form = ExprForm::Comp {
        item: item.expr,
        gens: gens.gens,
    };
    Ok(tall(alloc, form, at, high)?)
}

/// No expressions.
pub fn no_exprs(alloc: Global) -> MeasuredExprs
    ensures is { map expr_tree result.exprs.items ≡ [] }
    ensures low { result.high ≡ 0 }
{
    MeasuredExprs {
        exprs: Vec::new(alloc),
        high: 0,
    }
}

/// These expressions and one more.
pub fn with_expr(found: MeasuredExprs, next: MeasuredExpr) -> Result<MeasuredExprs, AllocError>
    ensures is { IfOk result (λ xs. map expr_tree xs.exprs.items
        ≡ map expr_tree found.exprs.items ++ tall_tree next ∷ []) }
    ensures high { IfOk result (λ xs. xs.high ≡ max found.high next.high) }
{
    let exprs = with_part(found.exprs, next.expr)?;
    Ok(MeasuredExprs {
        exprs,
        high: found.high.max(next.high),
    })
}

/// An expression before others.
pub fn before_exprs(first: MeasuredExpr, others: MeasuredExprs) -> Result<MeasuredExprs, AllocError>
    ensures is { IfOk result (λ xs. map expr_tree xs.exprs.items
        ≡ tall_tree first ∷ map expr_tree others.exprs.items) }
    ensures high { IfOk result (λ xs. xs.high ≡ max first.high others.high) }
{
    let exprs = before_parts(first.expr, others.exprs)?;
    Ok(MeasuredExprs {
        exprs,
        high: first.high.max(others.high),
    })
}
