//! Declarations of other files.

ghost use Rattle.check_used.specs.Naming.{AddsNames};
ghost use Rattle.check_used.specs.Using.{outer_view};

use crate::name_set::NameSet;
use crate::stmts::{add_function, add_var};
use cal_ast::{Function, VarDecl};
use rvc_base::Memory;

/// A declaration of another file, to which imports lead.
#[derive(Clone, Copy)]
pub struct OuterDecl<'a> {
    /// The text that stands for it wherever it is used.
    pub name: &'a str,
    pub form: OuterForm<'a>,
}

/// What another file declares.
#[derive(Clone, Copy)]
pub enum OuterForm<'a> {
    /// A variable: its type and its start may use others.
    Var(&'a VarDecl),
    Function(&'a Function),
}

/// Adds the names in a declaration.
pub(crate) fn add_outer(names: &mut NameSet, d: &OuterDecl) -> Result<(), Memory>
    ensures { AddsNames result (outer_view d.now).decl names.old names.new }
{
    match d.form {
        OuterForm::Var(v) => add_var(names, v),
        OuterForm::Function(f) => add_function(names, f),
    }
}
