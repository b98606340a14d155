//! Parts that are read, each with its height.
//!
//! A part stands on the heap, where what is made of it takes it from.

ghost use Rattle.std.specs.Prelude.{◌≡◌, IfOk, map};
ghost use Rattle.cal_ast.specs.Tree.{listed};
ghost use Rattle.cal_ast.specs.View.{expr_tree, form_tree, gen_tree, type_arg_tree, type_tree};
ghost use Rattle.cal_grammar.specs.Operators.{height};

use cal_ast::{Expr, ExprForm, Gen, TypeArg, TypeExpr};
use cal_parse_base::tall::MeasuredExpr;
use std::alloc::{AllocError, Global};

/// Expressions and the greatest of their heights.
#[derive(Drop)]
pub struct MeasuredExprs {
    pub exprs: Vec<Expr>,
    pub high: u32,
    ghost is_high: { high ≡ height (listed (map expr_tree exprs.items)) },
}

/// A generator and its height.
#[derive(Drop)]
pub struct MeasuredGen {
    pub generator: Box<Gen>,
    pub high: u32,
    ghost is_high: { high ≡ height (gen_tree generator.value) },
}

/// Generators and the greatest of their heights.
#[derive(Drop)]
pub struct MeasuredGens {
    pub gens: Vec<Gen>,
    pub high: u32,
    ghost is_high: { high ≡ height (listed (map gen_tree gens.items)) },
}

/// A type and its height.
#[derive(Drop)]
pub struct MeasuredType {
    pub shape: TypeExpr,
    pub high: u32,
    ghost is_high: { high ≡ height (type_tree shape) },
}

/// An argument of a type and its height.
#[derive(Drop)]
pub struct MeasuredTypeArg {
    pub arg: Box<TypeArg>,
    pub high: u32,
    ghost is_high: { high ≡ height (type_arg_tree arg.value) },
}

/// Arguments of a type and the greatest of their heights.
#[derive(Drop)]
pub struct MeasuredTypeArgs {
    pub args: Vec<TypeArg>,
    pub high: u32,
    ghost is_high: { high ≡ height (listed (map type_arg_tree args.items)) },
}

/// An expression of this form that begins here, and its height.
pub fn tall(alloc: Global, form: ExprForm, at: u32, high: u32) -> Result<MeasuredExpr, AllocError>
    requires { high ≡ height (form_tree form at) }
    ensures is { IfOk result (λ x. expr_tree x.expr.value ≡ form_tree form at) }
    ensures same { IfOk result (λ x. x.high ≡ high) }
{
    let expr = Box::new(alloc, Expr { form, at })?;
    Ok(MeasuredExpr { expr, high })
}
