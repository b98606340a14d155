//! An actor with what its imports lead to.

ghost use Rattle.std.specs.Prelude.{◌≡◌, [], ◌∷◌, ◌++◌, IfOk, string_bytes};
ghost use Rattle.cal_ast.specs.View.{function_tree, member_tree, var_tree};
ghost use Rattle.cal_scope.specs.Asked.{members_tree};
ghost use Rattle.cal_imports.specs.ScopeView.{Gathers, gathered_view, outer_fun, outer_var, with_fun, with_var};
ghost use Rattle.cal_imports.specs.Sources.{dot};
ghost use Rattle.cal_imports.specs.Whole.{outer, with_declaration, with_declarations};

use cal_ast::{Actor, Function, Ident, Member, VarDecl};
use rvc_base::Memory;
use std::alloc::Global;

/// A variable of another file.
#[derive(Drop)]
pub struct OuterVar {
    /// The text that stands for it wherever it is used: its unit's class, a dot and its name.
    pub name: String,
    /// The number of its file.
    pub file: u32,
    pub decl: VarDecl,
}

/// A function of another file.
#[derive(Drop)]
pub struct OuterFun {
    /// The text that stands for it wherever it is used: its unit's class, a dot and its name.
    pub name: String,
    /// The number of its file.
    pub file: u32,
    pub decl: Function,
}

/// An actor, and each declaration of other files to which its imports lead, directly or indirectly, used or not. In all
/// of them each use of a name is written out in full.
#[derive(Drop)]
pub struct Scope {
    /// The class of the actor.
    pub class: String,
    /// The number of its file.
    pub file: u32,
    pub actor: Actor,
    /// In an order in which each stands behind those of the files that its own file imports.
    pub vars: Vec<OuterVar>,
    pub funs: Vec<OuterFun>,
}

/// The declarations of other files that were gathered.
#[derive(Drop)]
pub(crate) struct Gathered {
    pub vars: Vec<OuterVar>,
    pub funs: Vec<OuterFun>,
}

/// The text that stands for a name of a unit.
fn full_name(alloc: Global, class: &str, name: &Ident) -> Result<String, Memory>
    ensures { IfOk result (λ text. string_bytes text ≡ class.now ++ dot ∷ string_bytes name.now.text) }
{
    let mut text = String::from_str(alloc, class)?;
    text.push_str(".")?;
    text.push_str(name.text.as_str())?;
    Ok(text)
}

/// A variable of a unit.
fn outer_var(alloc: Global, class: &str, file: u32, v: &VarDecl) -> Result<OuterVar, Memory>
    ensures { IfOk result (λ o. outer_var o
        ≡ outer class.now file (string_bytes v.now.name.text) (var_tree v.now)) }
{
    let name = full_name(alloc, class, &v.name)?;
    let decl = v.copy(alloc)?;
    Ok(OuterVar { name, file, decl })
}

/// A function of a unit.
fn outer_fun(alloc: Global, class: &str, file: u32, f: &Function) -> Result<OuterFun, Memory>
    ensures { IfOk result (λ o. outer_fun o
        ≡ outer class.now file (string_bytes f.now.name.text) (function_tree f.now)) }
{
    let name = full_name(alloc, class, &f.name)?;
    let decl = f.copy(alloc)?;
    Ok(OuterFun { name, file, decl })
}

impl Gathered {
    /// None.
    pub(crate) fn none(alloc: Global) -> Gathered
        ensures { gathered_view result ≡ record { vars = []; funs = [] } }
    {
        Gathered {
            vars: Vec::new(alloc),
            funs: Vec::new(alloc),
        }
    }

    /// Adds a variable.
    fn add_var(&mut self, v: OuterVar) -> Result<(), Memory>
        ensures { Gathers result (with_var v) self.old self.new }
    {
        self.vars.push(v)?;
        Ok(())
    }

    /// Adds a function.
    fn add_fun(&mut self, f: OuterFun) -> Result<(), Memory>
        ensures { Gathers result (with_fun f) self.old self.new }
    {
        self.funs.push(f)?;
        Ok(())
    }

    /// Adds what a member of a unit declares.
    fn add_member(
        &mut self,
        alloc: Global,
        class: &str,
        file: u32,
        m: &Member,
    ) -> Result<(), Memory>
        ensures { Gathers result (with_declaration class.now file (member_tree m.now)) self.old self.new }
    {
        match m {
            Member::Var(v) => self.add_var(outer_var(alloc, class, file, v)?),
            Member::Function(f) => self.add_fun(outer_fun(alloc, class, file, f)?),
            Member::Procedure(_) => Ok(()),
            Member::Action(_) => Ok(()),
            Member::Schedule(_) => Ok(()),
            Member::Priority(_) => Ok(()),
        }
    }

    /// Adds what the members of a unit declare.
    pub(crate) fn add_members(
        &mut self,
        alloc: Global,
        class: &str,
        file: u32,
        members: &[Member],
    ) -> Result<(), Memory>
        ensures { Gathers result (with_declarations class.now file (members_tree members.now)) self.old
            self.new }
    {
        let mut rest = members;
        'members: while let Some((first, others)) = rest.split_first() {
            self.add_member(alloc, class, file, first)?;
            rest = others;
        }
        Ok(())
    }
}
