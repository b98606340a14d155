//! Expressions and statements, all at offset 0.

ghost use Rattle.std.specs.Prelude.{◌≡◌, [], ◌∷◌, IfOk};
ghost use Rattle.cal_ast.specs.Tree as tree;
ghost use Rattle.cal_ast.specs.Tree.{listed};
ghost use Rattle.cal_ast.specs.declared.expr.BinOp.TheVariants.{Add, Lt};
ghost use Rattle.cal_ast.specs.View.{expr_tree, stmt_tree};

use cal_ast::{BinOp, Expr, ExprForm, Ident, Stmt, StmtForm};
use std::alloc::{AllocError, Global};

pub(crate) fn variable(alloc: Global, text: &str) -> Result<Expr, AllocError>
    ensures { IfOk result (λ e. expr_tree e ≡ tree.variable text.now 0) }
{
    Ok(Expr {
        form: ExprForm::Name(String::from_str(alloc, text)?),
        at: 0,
    })
}

pub(crate) fn number(value: u128) -> Expr
    ensures { expr_tree result ≡ tree.number value 0 }
{
    Expr {
        form: ExprForm::Number(value),
        at: 0,
    }
}

pub(crate) fn sum(alloc: Global, left: Expr, right: Expr) -> Result<Expr, AllocError>
    ensures { IfOk result (λ e. expr_tree e
        ≡ tree.binary Add (expr_tree left) (expr_tree right) 0) }
{
    binary(alloc, BinOp::Add, left, right)
}

/// `left < right`
pub(crate) fn below(alloc: Global, left: Expr, right: Expr) -> Result<Expr, AllocError>
    ensures { IfOk result (λ e. expr_tree e
        ≡ tree.binary Lt (expr_tree left) (expr_tree right) 0) }
{
    binary(alloc, BinOp::Lt, left, right)
}

fn binary(alloc: Global, op: BinOp, left: Expr, right: Expr) -> Result<Expr, AllocError>
    ensures { IfOk result (λ e. expr_tree e
        ≡ tree.binary op (expr_tree left) (expr_tree right) 0) }
{
    Ok(Expr {
        form: ExprForm::Binary {
            op,
            left: Box::new(alloc, left)?,
            right: Box::new(alloc, right)?,
        },
        at: 0,
    })
}

/// `text := value;`
pub(crate) fn assign(alloc: Global, text: &str, value: Expr) -> Result<Stmt, AllocError>
    ensures { IfOk result (λ s. stmt_tree s
        ≡ tree.assign (tree.ident text.now 0) tree.nil (expr_tree value) 0) }
{
    Ok(Stmt {
        form: StmtForm::Assign {
            name: Ident {
                text: String::from_str(alloc, text)?,
                at: 0,
            },
            places: Vec::new(alloc),
            value,
        },
        at: 0,
    })
}

/// A loop over one statement.
pub(crate) fn repeat(alloc: Global, test: Expr, body: Stmt) -> Result<Stmt, AllocError>
    ensures { IfOk result (λ s. stmt_tree s
        ≡ tree.while_stmt (expr_tree test) (listed (stmt_tree body ∷ [])) 0) }
{
    Ok(Stmt {
        form: StmtForm::While {
            test,
            body: vec![in alloc; body]?,
        },
        at: 0,
    })
}

/// `base[place]`
pub(crate) fn item(alloc: Global, base: Expr, place: Expr) -> Result<Expr, AllocError>
    ensures { IfOk result (λ e. expr_tree e
        ≡ tree.index (expr_tree base) (expr_tree place) 0) }
{
    Ok(Expr {
        form: ExprForm::Index {
            base: Box::new(alloc, base)?,
            place: Box::new(alloc, place)?,
        },
        at: 0,
    })
}

/// `text(arg)`
pub(crate) fn call(alloc: Global, text: &str, arg: Expr) -> Result<Expr, AllocError>
    ensures { IfOk result (λ e. expr_tree e
        ≡ tree.call text.now (listed (expr_tree arg ∷ [])) 0) }
{
    Ok(Expr {
        form: ExprForm::Call {
            name: String::from_str(alloc, text)?,
            args: vec![in alloc; arg]?,
        },
        at: 0,
    })
}

/// `text(arg);`
pub(crate) fn run(alloc: Global, text: &str, arg: Expr) -> Result<Stmt, AllocError>
    ensures { IfOk result (λ s. stmt_tree s
        ≡ tree.call_stmt (tree.ident text.now 0) (listed (expr_tree arg ∷ [])) 0) }
{
    Ok(Stmt {
        form: StmtForm::Call {
            name: Ident {
                text: String::from_str(alloc, text)?,
                at: 0,
            },
            args: vec![in alloc; arg]?,
        },
        at: 0,
    })
}

/// `text[place] := value;`
pub(crate) fn assign_item(
    alloc: Global,
    text: &str,
    place: Expr,
    value: Expr,
) -> Result<Stmt, AllocError>
    ensures { IfOk result (λ s. stmt_tree s ≡ tree.assign (tree.ident text.now 0)
        (listed (expr_tree place ∷ [])) (expr_tree value) 0) }
{
    Ok(Stmt {
        form: StmtForm::Assign {
            name: Ident {
                text: String::from_str(alloc, text)?,
                at: 0,
            },
            places: vec![in alloc; place]?,
            value,
        },
        at: 0,
    })
}
