//! Statements that are made of parts.

ghost use Rattle.std.specs.Prelude.{◌≡◌, map};
ghost use Rattle.cal_ast.specs.Tree as tree;
ghost use Rattle.cal_ast.specs.Tree.{listed};
ghost use Rattle.cal_ast.specs.View.{body_tree, expr_tree, ident_tree, stmt_tree, type_tree, var_tree};

use cal_ast::{Expr, Ident, Stmt, StmtForm, TypeExpr, VarDecl};

/// An assignment.
pub(crate) fn assign(name: Ident, places: Vec<Expr>, value: Expr, at: u32) -> Stmt
    ensures { stmt_tree result ≡ tree.assign (ident_tree name)
        (listed (map expr_tree places.items)) (expr_tree value) at }
{
    let form = StmtForm::Assign {
        name,
        places,
        value,
    };
    Stmt { form, at }
}

/// A call of a procedure.
pub(crate) fn call(name: Ident, args: Vec<Expr>, at: u32) -> Stmt
    ensures { stmt_tree result ≡ tree.call_stmt (ident_tree name)
        (listed (map expr_tree args.items)) at }
{
    let form = StmtForm::Call { name, args };
    Stmt { form, at }
}

/// A condition and one or two branches.
pub(crate) fn if_stmt(test: Expr, yes: Vec<Stmt>, no: Option<Vec<Stmt>>, at: u32) -> Stmt
    ensures { stmt_tree result ≡ tree.if_stmt (expr_tree test) (listed (map stmt_tree yes.items))
        (body_tree no) at }
{
    let form = StmtForm::If { test, yes, no };
    Stmt { form, at }
}

/// A loop over a condition.
pub(crate) fn while_stmt(test: Expr, body: Vec<Stmt>, at: u32) -> Stmt
    ensures { stmt_tree result ≡ tree.while_stmt (expr_tree test)
        (listed (map stmt_tree body.items)) at }
{
    let form = StmtForm::While { test, body };
    Stmt { form, at }
}

/// A loop over a range.
pub(crate) fn foreach_stmt(
    shape: TypeExpr,
    name: Ident,
    from: Expr,
    to: Expr,
    body: Vec<Stmt>,
    at: u32,
) -> Stmt
    ensures { stmt_tree result ≡ tree.foreach_stmt (type_tree shape) (ident_tree name)
        (expr_tree from) (expr_tree to) (listed (map stmt_tree body.items)) at }
{
    let form = StmtForm::Foreach {
        shape,
        name,
        from,
        to,
        body,
    };
    Stmt { form, at }
}

/// A block with its variables.
pub(crate) fn block(vars: Vec<VarDecl>, body: Vec<Stmt>, at: u32) -> Stmt
    ensures { stmt_tree result ≡ tree.block (listed (map var_tree vars.items))
        (listed (map stmt_tree body.items)) at }
{
    let form = StmtForm::Block { vars, body };
    Stmt { form, at }
}
