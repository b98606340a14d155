//! Expressions and types that are made of others.

ghost use Rattle.std.specs.Prelude.{◌≡◌, IfOk, map, string_bytes};
ghost use Rattle.cal_ast.specs.Tree as tree;
ghost use Rattle.cal_ast.specs.Tree.{listed};
ghost use Rattle.cal_ast.specs.View.{expr_tree, gen_tree, ident_tree, type_arg_tree, type_tree};

use cal_ast::{BinOp, Expr, ExprForm, Gen, Ident, PrefixOp, TypeArg, TypeExpr};
use rvc_base::Memory;
use std::alloc::Global;

/// A literal number.
pub(crate) fn number(value: u128, at: u32) -> Expr
    ensures { expr_tree result ≡ tree.number value at }
{
    Expr {
        form: ExprForm::Number(value),
        at,
    }
}

/// A truth value.
pub(crate) fn truth(value: bool, at: u32) -> Expr
    ensures { expr_tree result ≡ tree.truth value at }
{
    Expr {
        form: ExprForm::Bool(value),
        at,
    }
}

/// A variable.
pub(crate) fn variable(name: String, at: u32) -> Expr
    ensures { expr_tree result ≡ tree.variable (string_bytes name) at }
{
    Expr {
        form: ExprForm::Name(name),
        at,
    }
}

/// A call of a function.
pub(crate) fn call(name: String, args: Vec<Expr>, at: u32) -> Expr
    ensures { expr_tree result ≡ tree.call (string_bytes name) (listed (map expr_tree args.items)) at }
{
    Expr {
        form: ExprForm::Call { name, args },
        at,
    }
}

/// An expression in parentheses.
pub(crate) fn paren(alloc: Global, inner: Expr, at: u32) -> Result<Expr, Memory>
    ensures { IfOk result (λ e. expr_tree e ≡ tree.paren (expr_tree inner) at) }
{
    let form = ExprForm::Paren(Box::new(alloc, inner)?);
    Ok(Expr { form, at })
}

/// A condition and two branches.
pub(crate) fn if_expr(
    alloc: Global,
    test: Expr,
    yes: Expr,
    no: Expr,
    at: u32,
) -> Result<Expr, Memory>
    ensures { IfOk result (λ e. expr_tree e
        ≡ tree.if_expr (expr_tree test) (expr_tree yes) (expr_tree no) at) }
{
    let form = ExprForm::If {
        test: Box::new(alloc, test)?,
        yes: Box::new(alloc, yes)?,
        no: Box::new(alloc, no)?,
    };
    Ok(Expr { form, at })
}

/// A list.
pub(crate) fn list(items: Vec<Expr>, at: u32) -> Expr
    ensures { expr_tree result ≡ tree.list (listed (map expr_tree items.items)) at }
{
    Expr {
        form: ExprForm::List(items),
        at,
    }
}

/// A comprehension.
pub(crate) fn comp(alloc: Global, item: Expr, gens: Vec<Gen>, at: u32) -> Result<Expr, Memory>
    ensures { IfOk result (λ e. expr_tree e ≡ tree.comp (expr_tree item)
        (listed (map gen_tree gens.items)) at) }
{
    let form = ExprForm::Comp {
        item: Box::new(alloc, item)?,
        gens,
    };
    Ok(Expr { form, at })
}

/// A place in a list.
pub(crate) fn index(alloc: Global, base: Expr, place: Expr, at: u32) -> Result<Expr, Memory>
    ensures { IfOk result (λ e. expr_tree e ≡ tree.index (expr_tree base) (expr_tree place) at) }
{
    let form = ExprForm::Index {
        base: Box::new(alloc, base)?,
        place: Box::new(alloc, place)?,
    };
    Ok(Expr { form, at })
}

/// An operation with one operand.
pub(crate) fn prefix(alloc: Global, op: PrefixOp, of: Expr, at: u32) -> Result<Expr, Memory>
    ensures { IfOk result (λ e. expr_tree e ≡ tree.prefix op (expr_tree of) at) }
{
    let form = ExprForm::Prefix {
        op,
        of: Box::new(alloc, of)?,
    };
    Ok(Expr { form, at })
}

/// An operation with two operands.
pub(crate) fn binary(
    alloc: Global,
    op: BinOp,
    left: Expr,
    right: Expr,
    at: u32,
) -> Result<Expr, Memory>
    ensures { IfOk result (λ e. expr_tree e
        ≡ tree.binary op (expr_tree left) (expr_tree right) at) }
{
    let form = ExprForm::Binary {
        op,
        left: Box::new(alloc, left)?,
        right: Box::new(alloc, right)?,
    };
    Ok(Expr { form, at })
}

/// A generator.
pub(crate) fn generator(shape: TypeExpr, name: Ident, from: Expr, to: Expr, at: u32) -> Gen
    ensures { gen_tree result ≡ tree.gen (type_tree shape) (ident_tree name) (expr_tree from)
        (expr_tree to) at }
{
    Gen {
        shape,
        name,
        from,
        to,
        at,
    }
}

/// A type.
pub(crate) fn type_of(name: Ident, args: Vec<TypeArg>, at: u32) -> TypeExpr
    ensures { type_tree result ≡ tree.type_of (ident_tree name)
        (listed (map type_arg_tree args.items)) at }
{
    TypeExpr { name, args, at }
}

/// An argument of a type that is a type.
pub(crate) fn shape_arg(name: Ident, shape: TypeExpr) -> TypeArg
    ensures { type_arg_tree result ≡ tree.shape_arg (ident_tree name) (type_tree shape) }
{
    TypeArg::Shape { name, shape }
}

/// An argument of a type that is a value.
pub(crate) fn value_arg(name: Ident, value: Expr) -> TypeArg
    ensures { type_arg_tree result ≡ tree.value_arg (ident_tree name) (expr_tree value) }
{
    TypeArg::Value { name, value }
}
