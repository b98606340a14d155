//! Statements.

ghost use Rattle.std.specs.Prelude.{◌≡◌, ℕ, IfOk, map};
ghost use Rattle.cal_ast.specs.Tree.{listed, assign, call_stmt, if_stmt, while_stmt, foreach_stmt, block};
ghost use Rattle.cal_ast.specs.View.{stmt_tree, stmt_form_tree, ident_tree, expr_tree, type_tree, var_tree, body_tree};

use crate::expr::{Expr, TypeExpr};
use crate::ident::Ident;
use crate::member::VarDecl;
use crate::part::{Part, both, copy_all, copy_three, copy_two};
use std::alloc::{AllocError, Global};

/// A statement.
#[derive(Drop)]
#[cycle(stmt)]
pub struct Stmt {
    pub form: StmtForm,
    /// The offset of its first byte.
    pub at: u32,
}

/// What a statement is made of.
#[derive(Drop)]
#[cycle(stmt)]
pub enum StmtForm {
    /// `name [ place ] .. := value ;`
    Assign {
        name: Ident,
        places: Vec<Expr>,
        value: Expr,
    },
    /// `name ( args ) ;`
    Call {
        name: Ident,
        args: Vec<Expr>,
    },
    /// `if test then yes else no end`. An `elsif` is an `if` alone in `no`.
    If {
        test: Expr,
        yes: Vec<Stmt>,
        no: Option<Vec<Stmt>>,
    },
    /// `while test do body end`
    While {
        test: Expr,
        body: Vec<Stmt>,
    },
    /// `foreach shape name in from .. to do body end`
    Foreach {
        shape: TypeExpr,
        name: Ident,
        from: Expr,
        to: Expr,
        body: Vec<Stmt>,
    },
    /// `begin var vars do body end`
    Block {
        vars: Vec<VarDecl>,
        body: Vec<Stmt>,
    },
}

impl Stmt {
    /// An equal statement.
    ///
    /// # Errors
    ///
    /// `AllocError` if memory runs out.
    #[cycle(copy_stmt)]
    pub fn copy(&self, alloc: Global) -> Result<Stmt, AllocError>
        ensures { IfOk result (λ copied. stmt_tree copied ≡ stmt_tree self.now) }
    {
        Ok(Stmt {
            form: self.form.copy(alloc)?,
            at: self.at,
        })
    }
}

impl StmtForm {
    /// An equal form of a statement.
    ///
    /// # Errors
    ///
    /// `AllocError` if memory runs out.
    #[cycle(copy_stmt)]
    #[tactic(auto, using(crate::proofs::Forms::form_if))]
    pub fn copy(&self, alloc: Global) -> Result<StmtForm, AllocError>
        ensures { IfOk result (λ copied. (at : ℕ)
            → stmt_form_tree copied at ≡ stmt_form_tree self.now at) }
    {
        match self {
            StmtForm::Assign {
                name,
                places,
                value,
            } => copy_assign(alloc, name, places, value),
            StmtForm::Call { name, args } => copy_call(alloc, name, args),
            StmtForm::If {
                test,
                yes,
                no: None,
            } => copy_if(alloc, test, copy_stmts(alloc, yes)?, None),
            StmtForm::If {
                test,
                yes,
                no: Some(no),
            } => {
                let (yes, no) = both(copy_stmts(alloc, yes), copy_stmts(alloc, no))?;
                copy_if(alloc, test, yes, Some(no))
            }
            StmtForm::While { test, body } => copy_while(alloc, test, copy_stmts(alloc, body)?),
            StmtForm::Foreach {
                shape,
                name,
                from,
                to,
                body,
            } => copy_foreach(alloc, shape, name, from, to, copy_stmts(alloc, body)?),
            StmtForm::Block { vars, body } => copy_block(alloc, vars, copy_stmts(alloc, body)?),
        }
    }
}

/// An equal assignment.
fn copy_assign(
    alloc: Global,
    name: &Ident,
    places: &Vec<Expr>,
    value: &Expr,
) -> Result<StmtForm, AllocError>
    ensures { IfOk result (λ copied. (at : ℕ) → stmt_form_tree copied at
        ≡ assign (ident_tree name.now) (listed (map expr_tree places.now.items))
        (expr_tree value.now) at) }
{
    let (name, places, value) = copy_three(alloc, name, places, value)?;
    Ok(StmtForm::Assign {
        name,
        places,
        value,
    })
}

/// An equal call.
fn copy_call(alloc: Global, name: &Ident, args: &Vec<Expr>) -> Result<StmtForm, AllocError>
    ensures { IfOk result (λ copied. (at : ℕ) → stmt_form_tree copied at
        ≡ call_stmt (ident_tree name.now) (listed (map expr_tree args.now.items)) at) }
{
    let (name, args) = copy_two(alloc, name, args)?;
    Ok(StmtForm::Call { name, args })
}

/// An `if` with an equal test and these statements.
#[tactic(auto, using(crate::proofs::Forms::form_if))]
fn copy_if(
    alloc: Global,
    test: &Expr,
    yes: Vec<Stmt>,
    no: Option<Vec<Stmt>>,
) -> Result<StmtForm, AllocError>
    ensures { IfOk result (λ copied. (at : ℕ) → stmt_form_tree copied at
        ≡ if_stmt (expr_tree test.now) (listed (map stmt_tree yes.items)) (body_tree no) at) }
{
    let test = test.copy(alloc)?;
    Ok(StmtForm::If { test, yes, no })
}

/// A `while` with an equal test and this body.
fn copy_while(alloc: Global, test: &Expr, body: Vec<Stmt>) -> Result<StmtForm, AllocError>
    ensures { IfOk result (λ copied. (at : ℕ) → stmt_form_tree copied at
        ≡ while_stmt (expr_tree test.now) (listed (map stmt_tree body.items)) at) }
{
    let test = test.copy(alloc)?;
    Ok(StmtForm::While { test, body })
}

/// A `foreach` over an equal range with this body.
fn copy_foreach(
    alloc: Global,
    shape: &TypeExpr,
    name: &Ident,
    from: &Expr,
    to: &Expr,
    body: Vec<Stmt>,
) -> Result<StmtForm, AllocError>
    ensures { IfOk result (λ copied. (at : ℕ) → stmt_form_tree copied at
        ≡ foreach_stmt (type_tree shape.now) (ident_tree name.now) (expr_tree from.now)
        (expr_tree to.now) (listed (map stmt_tree body.items)) at) }
{
    let ((shape, name), (from, to)) = both(
        copy_two(alloc, shape, name),
        copy_two(alloc, from, to),
    )?;
    Ok(StmtForm::Foreach {
        shape,
        name,
        from,
        to,
        body,
    })
}

/// A block with equal variables and this body.
fn copy_block(alloc: Global, vars: &Vec<VarDecl>, body: Vec<Stmt>) -> Result<StmtForm, AllocError>
    ensures { IfOk result (λ copied. (at : ℕ) → stmt_form_tree copied at
        ≡ block (listed (map var_tree vars.now.items)) (listed (map stmt_tree body.items)) at) }
{
    let vars = copy_all(alloc, vars)?;
    Ok(StmtForm::Block { vars, body })
}

/// Equal statements in the same order.
#[cycle(copy_stmt)]
fn copy_stmts(alloc: Global, stmts: &[Stmt]) -> Result<Vec<Stmt>, AllocError>
    ensures { IfOk result (λ copied. map stmt_tree copied.items ≡ map stmt_tree stmts.now) }
{
    let mut copied = Vec::new(alloc);
    for stmt in stmts {
        copied.push(stmt.copy(alloc)?)?;
    }
    Ok(copied)
}

impl Part for Stmt {
    ghost tree = { stmt_tree };

    fn copied(&self, alloc: Global) -> Result<Stmt, AllocError> {
        self.copy(alloc)
    }
}
