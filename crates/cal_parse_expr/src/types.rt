//! Types, their arguments, and generators, as they are made of their parts.

ghost use Rattle.std.specs.Prelude.{◌≡◌, ◌+◌, ◌≤◌, ◌-◌, ◌++◌, ◌∷◌, [], IfOk, map, max, string_bytes};
ghost use Rattle.cal_ast.specs.Tree.{gen, nil, type_of, shape_arg as shape_arg_tree, value_arg as value_arg_tree};
ghost use Rattle.cal_ast.specs.View.{gen_tree, ident_tree, type_arg_tree, type_tree};
ghost use Rattle.cal_parse_base.specs.Pairs.{tall_tree};
ghost use Rattle.cal_parse_expr.specs.Steps.{Does, each_type_arg, tall_gen, tall_type, tall_type_arg, type_step};

use crate::tall::{MeasuredGen, MeasuredGens, MeasuredType, MeasuredTypeArg, MeasuredTypeArgs};
use cal_ast::{Gen, Ident, TypeArg, TypeExpr};
use cal_lexer::{Token, Word};
use cal_parse_base::cursor::expect;
use cal_parse_base::fault::Fault;
use cal_parse_base::parts::with_part;
use cal_parse_base::tall::MeasuredExpr;
use std::alloc::{AllocError, Global};

/// A type without arguments.
pub fn bare_type(alloc: Global, name: Ident) -> MeasuredType
    ensures is { type_tree result.shape ≡ type_of (ident_tree name) nil name.at }
    ensures low { result.high ≡ 1 }
{
    let at = name.at;
    MeasuredType {
        shape: TypeExpr {
            name,
            args: Vec::new(alloc),
            at,
        },
        high: 1,
    }
}

/// A type with arguments, whose closing parenthesis is taken.
pub fn closed_type(
    tokens: &mut &[Token],
    room: u32,
    name: Ident,
    args: MeasuredTypeArgs,
) -> Result<MeasuredType, Fault>
    requires { args.high ≤ room - 1 }
    ensures told { Does tall_type room
        (type_step (string_bytes name.text) name.at (each_type_arg args)) result tokens.old.now
        tokens.new.now }
    ensures high { IfOk result (λ x. x.high ≡ args.high + 1) }
{
    expect(tokens, Word::RightParen)?;
    let at = name.at;
    let high = args.high + 1;
    Ok(MeasuredType {
        shape: TypeExpr {
            name,
            args: args.args,
            at,
        },
        high,
    })
}

/// An argument that is a type.
pub fn shape_arg(
    alloc: Global,
    name: Ident,
    shape: MeasuredType,
) -> Result<MeasuredTypeArg, AllocError>
    ensures is { IfOk result (λ x. tall_type_arg x
        ≡ shape_arg_tree (ident_tree name) (tall_type shape)) }
    ensures high { IfOk result (λ x. x.high ≡ shape.high) }
{
    let arg = TypeArg::Shape {
        name,
        shape: shape.shape,
    };
    Ok(MeasuredTypeArg {
        arg: Box::new(alloc, arg)?,
        high: shape.high,
    })
}

/// An argument that is a value.
pub fn value_arg(
    alloc: Global,
    name: Ident,
    value: MeasuredExpr,
) -> Result<MeasuredTypeArg, AllocError>
    ensures is { IfOk result (λ x. tall_type_arg x
        ≡ value_arg_tree (ident_tree name) (tall_tree value)) }
    ensures high { IfOk result (λ x. x.high ≡ value.high) }
{
    let arg = TypeArg::Value {
        name,
        value: Box::into_inner(value.expr),
    };
    Ok(MeasuredTypeArg {
        arg: Box::new(alloc, arg)?,
        high: value.high,
    })
}

/// A generator that begins here.
pub fn generated(
    alloc: Global,
    at: u32,
    shape: MeasuredType,
    name: Ident,
    from: MeasuredExpr,
    to: MeasuredExpr,
) -> Result<MeasuredGen, AllocError>
    ensures is { IfOk result (λ x. tall_gen x
        ≡ gen (tall_type shape) (ident_tree name) (tall_tree from) (tall_tree to) at) }
    ensures high { IfOk result (λ x. x.high ≡ max shape.high (max from.high to.high)) }
{
    let high = shape.high.max(from.high.max(to.high));
    let generator = Gen {
        shape: shape.shape,
        name,
        from: Box::into_inner(from.expr),
        to: Box::into_inner(to.expr),
        at,
    };
    Ok(MeasuredGen {
        generator: Box::new(alloc, generator)?,
        high,
    })
}

/// No arguments.
pub fn no_type_args(alloc: Global) -> MeasuredTypeArgs
    ensures is { map type_arg_tree result.args.items ≡ [] }
    ensures low { result.high ≡ 0 }
{
    MeasuredTypeArgs {
        args: Vec::new(alloc),
        high: 0,
    }
}

/// These arguments and one more.
pub fn with_type_arg(
    found: MeasuredTypeArgs,
    next: MeasuredTypeArg,
) -> Result<MeasuredTypeArgs, AllocError>
    ensures is { IfOk result (λ xs. map type_arg_tree xs.args.items
        ≡ map type_arg_tree found.args.items ++ tall_type_arg next ∷ []) }
    ensures high { IfOk result (λ xs. xs.high ≡ max found.high next.high) }
{
    let args = with_part(found.args, next.arg)?;
    Ok(MeasuredTypeArgs {
        args,
        high: found.high.max(next.high),
    })
}

/// No generators.
pub fn no_gens(alloc: Global) -> MeasuredGens
    ensures is { map gen_tree result.gens.items ≡ [] }
    ensures low { result.high ≡ 0 }
{
    MeasuredGens {
        gens: Vec::new(alloc),
        high: 0,
    }
}

/// These generators and one more.
pub fn with_gen(found: MeasuredGens, next: MeasuredGen) -> Result<MeasuredGens, AllocError>
    ensures is { IfOk result (λ xs. map gen_tree xs.gens.items
        ≡ map gen_tree found.gens.items ++ tall_gen next ∷ []) }
    ensures high { IfOk result (λ xs. xs.high ≡ max found.high next.high) }
{
    let gens = with_part(found.gens, next.generator)?;
    Ok(MeasuredGens {
        gens,
        high: found.high.max(next.high),
    })
}
