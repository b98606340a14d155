//! Types with their sizes written out, in one cycle.

ghost use Rattle.std.specs.Prelude.{map};
ghost use Rattle.cal_ast.specs.Tree as tree;
ghost use Rattle.cal_ast.specs.Tree.{listed};
ghost use Rattle.cal_ast.specs.View.{expr_tree, ident_tree, type_arg_tree, type_tree};
ghost use Rattle.const_env.specs.Counting.{names_view};
ghost use Rattle.check_fold.specs.Writing.{WritesType, WritesTypeArg, WritesTypeArgs};

use crate::constant::constant;
use crate::made;
use cal_ast::{Expr, Ident, TypeArg, TypeExpr};
use const_eval::Names;
use rvc_base::Memory;

/// A type.
///
/// # Errors
///
/// `Memory` if memory runs out.
#[cycle(types)]
pub fn type_expr(names: &Names, t: &TypeExpr) -> Result<TypeExpr, Memory>
    ensures { WritesType result (type_tree t.now) (names_view names.now) }
{
    let args = type_args(names, &t.args)?;
    let name = t.name.copy(names.alloc)?;
    Ok(made::type_of(name, args, t.at))
}

/// The arguments of a type in order.
#[cycle(types)]
fn type_args(names: &Names, args: &[TypeArg]) -> Result<Vec<TypeArg>, Memory>
    ensures { WritesTypeArgs result (listed (map type_arg_tree args.now)) (names_view names.now) }
{
    let mut found = Vec::new(names.alloc);
    let mut rest = args;
    'each: while let Some((first, others)) = rest.split_first() {
        found.push(type_arg(names, first)?)?;
        rest = others;
    }
    Ok(found)
}

/// An argument of a type.
#[cycle(types)]
fn type_arg(names: &Names, arg: &TypeArg) -> Result<TypeArg, Memory>
    ensures { WritesTypeArg result (type_arg_tree arg.now) (names_view names.now) }
{
    match arg {
        TypeArg::Shape { name, shape } => shape_arg(names, name, shape),
        TypeArg::Value { name, value } => value_arg(names, name, value),
    }
}

/// An argument that is a type.
#[cycle(types)]
fn shape_arg(names: &Names, name: &Ident, shape: &TypeExpr) -> Result<TypeArg, Memory>
    ensures { WritesTypeArg result (tree.shape_arg (ident_tree name.now) (type_tree shape.now))
        (names_view names.now) }
{
    let shape = type_expr(names, shape)?;
    let name = name.copy(names.alloc)?;
    Ok(made::shape_arg(name, shape))
}

/// An argument that is a number.
fn value_arg(names: &Names, name: &Ident, value: &Expr) -> Result<TypeArg, Memory>
    ensures { WritesTypeArg result (tree.value_arg (ident_tree name.now) (expr_tree value.now))
        (names_view names.now) }
{
    let value = constant(names, value)?;
    let name = name.copy(names.alloc)?;
    Ok(made::value_arg(name, value))
}
