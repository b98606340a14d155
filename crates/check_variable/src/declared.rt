//! Variables, parameters and functions as they are declared.

ghost use Rattle.std.specs.Prelude.{◌≡◌, ◌++◌, OnOk};
ghost use Rattle.cal_check.specs.Actors.{funs_in, params_in, vars_in};
ghost use Rattle.check_functions.specs.Known.{fun_decls};
ghost use Rattle.check_variable.specs.Views.{members_tree, params_tree, var_decls};

use cal_ast::{Expr, Member, Param, TypeExpr};
use check_functions::DeclaredFun;
use rvc_base::Memory;

/// A variable, a parameter or a constant of a file, by the text that stands for it where it is used.
#[derive(Clone, Copy)]
pub struct DeclaredVar<'a> {
    pub name: &'a str,
    /// The number of its file.
    pub file: u32,
    pub shape: &'a TypeExpr,
    /// Its first value; of a parameter the value that it has if it is given none.
    pub start: &'a Option<Expr>,
    /// Whether it may be assigned: false for parameters, constants and what a unit declares.
    pub changes: bool,
    pub is_param: bool,
}

/// Adds the parameters of an actor in a file, in the order of the text.
///
/// # Errors
///
/// `Memory` if memory runs out.
pub fn add_parameters<'a>(
    declared: &mut Vec<DeclaredVar<'a>>,
    file: u32,
    params: &'a [Param],
) -> Result<(), Memory>
    ensures { OnOk result (var_decls declared.new.items
        ≡ var_decls declared.old.items ++ params_in file (params_tree params.entry.now)) }
{
    let mut rest = params;
    'params: while let Some((first, others)) = rest.split_first() {
        declared.push(DeclaredVar {
            name: first.name.text.as_str(),
            file,
            shape: &first.shape,
            start: &first.start,
            changes: false,
            is_param: true,
        })?;
        rest = others;
    }
    Ok(())
}

/// Adds the variables among the members of an actor in a file, in the order of the text.
///
/// # Errors
///
/// `Memory` if memory runs out.
pub fn add_variables<'a>(
    declared: &mut Vec<DeclaredVar<'a>>,
    file: u32,
    members: &'a [Member],
) -> Result<(), Memory>
    ensures { OnOk result (var_decls declared.new.items
        ≡ var_decls declared.old.items ++ vars_in file (members_tree members.entry.now)) }
{
    let mut rest = members;
    'members: while let Some((first, others)) = rest.split_first() {
        if let Member::Var(v) = first {
            declared.push(DeclaredVar {
                name: v.name.text.as_str(),
                file,
                shape: &v.shape,
                start: &v.start,
                changes: v.changes,
                is_param: false,
            })?;
        }
        rest = others;
    }
    Ok(())
}

/// Adds the functions among the members of an actor in a file, in the order of the text.
///
/// # Errors
///
/// `Memory` if memory runs out.
pub fn add_functions<'a>(
    declared: &mut Vec<DeclaredFun<'a>>,
    file: u32,
    members: &'a [Member],
) -> Result<(), Memory>
    ensures { OnOk result (fun_decls declared.new.items
        ≡ fun_decls declared.old.items ++ funs_in file (members_tree members.entry.now)) }
{
    let mut rest = members;
    'members: while let Some((first, others)) = rest.split_first() {
        if let Member::Function(f) = first {
            declared.push(DeclaredFun {
                name: f.name.text.as_str(),
                file,
                decl: f,
            })?;
        }
        rest = others;
    }
    Ok(())
}
