//! What actors and units declare, but for their actions.

ghost use Rattle.std.specs.Prelude.{◌≡◌, IfOk};
ghost use Rattle.cal_ast.specs.View.{member_tree, param_tree, port_tree, var_tree, function_tree, procedure_tree};

use crate::action::{Action, Priority, Schedule};
use crate::expr::{Expr, TypeExpr};
use crate::ident::Ident;
use crate::part::{Part, copy_three, copy_two};
use crate::stmt::Stmt;
use std::alloc::{AllocError, Global};

/// A member of an actor or a unit.
#[derive(Drop)]
pub enum Member {
    Var(VarDecl),
    Function(Function),
    Procedure(Procedure),
    Action(Action),
    Schedule(Schedule),
    Priority(Priority),
}

/// A parameter of an actor.
#[derive(Drop)]
pub struct Param {
    pub shape: TypeExpr,
    pub name: Ident,
    /// Its value if none is given.
    pub start: Option<Expr>,
    /// The offset of its first byte.
    pub at: u32,
}

/// A port of an actor, or a formal parameter of a function or a procedure.
#[derive(Drop)]
pub struct PortDecl {
    pub shape: TypeExpr,
    pub name: Ident,
    /// The offset of its first byte.
    pub at: u32,
}

/// A variable.
#[derive(Drop)]
pub struct VarDecl {
    pub shape: TypeExpr,
    pub name: Ident,
    /// Its first value.
    pub start: Option<Expr>,
    /// Whether it may be assigned: false exactly if the declaration has `=`.
    pub changes: bool,
    /// The offset of its first byte.
    pub at: u32,
}

/// A function.
#[derive(Drop)]
pub struct Function {
    pub name: Ident,
    pub formals: Vec<PortDecl>,
    pub result: TypeExpr,
    pub vars: Vec<VarDecl>,
    pub body: Expr,
    /// The offset of its first byte.
    pub at: u32,
}

/// A procedure.
#[derive(Drop)]
pub struct Procedure {
    pub name: Ident,
    pub formals: Vec<PortDecl>,
    pub vars: Vec<VarDecl>,
    pub body: Vec<Stmt>,
    /// The offset of its first byte.
    pub at: u32,
}

impl Member {
    /// An equal member.
    ///
    /// # Errors
    ///
    /// `AllocError` if memory runs out.
    pub fn copy(&self, alloc: Global) -> Result<Member, AllocError>
        ensures { IfOk result (λ copied. member_tree copied ≡ member_tree self.now) }
    {
        match self {
            Member::Var(v) => Ok(Member::Var(v.copy(alloc)?)),
            Member::Function(f) => Ok(Member::Function(f.copy(alloc)?)),
            Member::Procedure(p) => Ok(Member::Procedure(p.copy(alloc)?)),
            Member::Action(a) => Ok(Member::Action(a.copy(alloc)?)),
            Member::Schedule(s) => Ok(Member::Schedule(s.copy(alloc)?)),
            Member::Priority(p) => Ok(Member::Priority(p.copy(alloc)?)),
        }
    }
}

impl Part for Member {
    ghost tree = { member_tree };

    fn copied(&self, alloc: Global) -> Result<Member, AllocError> {
        self.copy(alloc)
    }
}

impl Param {
    /// An equal parameter.
    ///
    /// # Errors
    ///
    /// `AllocError` if memory runs out.
    pub fn copy(&self, alloc: Global) -> Result<Param, AllocError>
        ensures { IfOk result (λ copied. param_tree copied ≡ param_tree self.now) }
    {
        let (shape, name, start) = copy_three(alloc, &self.shape, &self.name, &self.start)?;
        Ok(Param {
            shape,
            name,
            start,
            at: self.at,
        })
    }
}

impl Part for Param {
    ghost tree = { param_tree };

    fn copied(&self, alloc: Global) -> Result<Param, AllocError> {
        self.copy(alloc)
    }
}

impl PortDecl {
    /// An equal port or formal parameter.
    ///
    /// # Errors
    ///
    /// `AllocError` if memory runs out.
    pub fn copy(&self, alloc: Global) -> Result<PortDecl, AllocError>
        ensures { IfOk result (λ copied. port_tree copied ≡ port_tree self.now) }
    {
        let (shape, name) = copy_two(alloc, &self.shape, &self.name)?;
        Ok(PortDecl {
            shape,
            name,
            at: self.at,
        })
    }
}

impl Part for PortDecl {
    ghost tree = { port_tree };

    fn copied(&self, alloc: Global) -> Result<PortDecl, AllocError> {
        self.copy(alloc)
    }
}

impl VarDecl {
    /// An equal variable.
    ///
    /// # Errors
    ///
    /// `AllocError` if memory runs out.
    pub fn copy(&self, alloc: Global) -> Result<VarDecl, AllocError>
        ensures { IfOk result (λ copied. var_tree copied ≡ var_tree self.now) }
    {
        let (shape, name, start) = copy_three(alloc, &self.shape, &self.name, &self.start)?;
        Ok(VarDecl {
            shape,
            name,
            start,
            changes: self.changes,
            at: self.at,
        })
    }
}

impl Part for VarDecl {
    ghost tree = { var_tree };

    fn copied(&self, alloc: Global) -> Result<VarDecl, AllocError> {
        self.copy(alloc)
    }
}

impl Function {
    /// An equal function.
    ///
    /// # Errors
    ///
    /// `AllocError` if memory runs out.
    pub fn copy(&self, alloc: Global) -> Result<Function, AllocError>
        ensures { IfOk result (λ copied. function_tree copied ≡ function_tree self.now) }
    {
        let (name, formals, result) = copy_three(alloc, &self.name, &self.formals, &self.result)?;
        let (vars, body) = copy_two(alloc, &self.vars, &self.body)?;
        Ok(Function {
            name,
            formals,
            result,
            vars,
            body,
            at: self.at,
        })
    }
}

impl Procedure {
    /// An equal procedure.
    ///
    /// # Errors
    ///
    /// `AllocError` if memory runs out.
    pub fn copy(&self, alloc: Global) -> Result<Procedure, AllocError>
        ensures { IfOk result (λ copied. procedure_tree copied ≡ procedure_tree self.now) }
    {
        let (name, formals) = copy_two(alloc, &self.name, &self.formals)?;
        let (vars, body) = copy_two(alloc, &self.vars, &self.body)?;
        Ok(Procedure {
            name,
            formals,
            vars,
            body,
            at: self.at,
        })
    }
}
