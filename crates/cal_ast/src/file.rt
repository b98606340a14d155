//! Files: an actor or a unit, with its package and its imports.

ghost use Rattle.std.specs.Prelude.{◌≡◌, IfOk};
ghost use Rattle.cal_ast.specs.View.{file_tree, file_body_tree, import_tree, actor_tree, unit_tree};

use crate::ident::{Ident, Tag};
use crate::member::{Member, Param, PortDecl};
use crate::part::{Part, copy_three, copy_two};
use std::alloc::{AllocError, Global};

/// A file.
#[derive(Drop)]
pub struct File {
    pub package: Option<Tag>,
    pub imports: Vec<Import>,
    pub body: Body,
    /// The offset of its first byte.
    pub at: u32,
}

/// What a file declares.
#[derive(Drop)]
pub enum Body {
    Actor(Actor),
    Unit(UnitFile),
}

/// `import path . last ;`
#[derive(Drop)]
pub struct Import {
    pub path: Vec<Ident>,
    /// Absent for `*`.
    pub last: Option<Ident>,
    /// The offset of its first byte.
    pub at: u32,
}

/// An actor.
#[derive(Drop)]
pub struct Actor {
    pub name: Ident,
    pub params: Vec<Param>,
    pub ins: Vec<PortDecl>,
    pub outs: Vec<PortDecl>,
    pub members: Vec<Member>,
    /// The offset of its first byte.
    pub at: u32,
}

/// A unit: a file of constants and functions.
#[derive(Drop)]
pub struct UnitFile {
    pub name: Ident,
    pub members: Vec<Member>,
    /// The offset of its first byte.
    pub at: u32,
}

impl File {
    /// An equal file.
    ///
    /// # Errors
    ///
    /// `AllocError` if memory runs out.
    pub fn copy(&self, alloc: Global) -> Result<File, AllocError>
        ensures { IfOk result (λ copied. file_tree copied ≡ file_tree self.now) }
    {
        let (package, imports) = copy_two(alloc, &self.package, &self.imports)?;
        Ok(File {
            package,
            imports,
            body: self.body.copy(alloc)?,
            at: self.at,
        })
    }
}

impl Body {
    /// An equal actor or unit.
    ///
    /// # Errors
    ///
    /// `AllocError` if memory runs out.
    pub fn copy(&self, alloc: Global) -> Result<Body, AllocError>
        ensures { IfOk result (λ copied. file_body_tree copied ≡ file_body_tree self.now) }
    {
        match self {
            Body::Actor(a) => Ok(Body::Actor(a.copy(alloc)?)),
            Body::Unit(u) => Ok(Body::Unit(u.copy(alloc)?)),
        }
    }
}

impl Import {
    /// An equal import.
    ///
    /// # Errors
    ///
    /// `AllocError` if memory runs out.
    pub fn copy(&self, alloc: Global) -> Result<Import, AllocError>
        ensures { IfOk result (λ copied. import_tree copied ≡ import_tree self.now) }
    {
        let (path, last) = copy_two(alloc, &self.path, &self.last)?;
        Ok(Import {
            path,
            last,
            at: self.at,
        })
    }
}

impl Part for Import {
    ghost tree = { import_tree };

    fn copied(&self, alloc: Global) -> Result<Import, AllocError> {
        self.copy(alloc)
    }
}

impl Actor {
    /// An equal actor.
    ///
    /// # Errors
    ///
    /// `AllocError` if memory runs out.
    pub fn copy(&self, alloc: Global) -> Result<Actor, AllocError>
        ensures { IfOk result (λ copied. actor_tree copied ≡ actor_tree self.now) }
    {
        let (name, params, members) = copy_three(alloc, &self.name, &self.params, &self.members)?;
        let (ins, outs) = copy_two(alloc, &self.ins, &self.outs)?;
        Ok(Actor {
            name,
            params,
            ins,
            outs,
            members,
            at: self.at,
        })
    }
}

impl UnitFile {
    /// An equal unit.
    ///
    /// # Errors
    ///
    /// `AllocError` if memory runs out.
    pub fn copy(&self, alloc: Global) -> Result<UnitFile, AllocError>
        ensures { IfOk result (λ copied. unit_tree copied ≡ unit_tree self.now) }
    {
        let (name, members) = copy_two(alloc, &self.name, &self.members)?;
        Ok(UnitFile {
            name,
            members,
            at: self.at,
        })
    }
}
