//! The calls for one part of a file.

ghost use Rattle.cal_ast.specs.View.{expr_tree, type_tree};
ghost use Rattle.cal_scope.specs.Asked.{member_trees, outermost};
ghost use Rattle.cal_scope.specs.Expressions.{expr_resolved, type_resolved};
ghost use Rattle.cal_scope.specs.Judging.{Judges};
ghost use Rattle.cal_scope.specs.PortView.{members_among};

use crate::expr::{expr, type_expr};
use crate::fault::ScopeFault;
use crate::file_names::FileNames;
use crate::frames::Inside;
use crate::member::members;
use crate::ports::PortNames;
use cal_ast::{Expr, Member, TypeExpr};

/// An expression that sees the names of a file, with each name written out in full.
///
/// # Errors
///
/// `Broken`: the first rule of scope that it breaks, with the place: a name is unknown, or is used as what it isn't.
/// `Memory`: an allocation was refused.
pub fn resolve_expr(names: &FileNames, e: &Expr) -> Result<Expr, ScopeFault>
    ensures { Judges expr_tree result (expr_resolved (expr_tree e.now) (outermost names.now)) }
{
    expr(&Inside::outermost(names), e)
}

/// A type that sees the names of a file, with each name in its arguments written out in full.
///
/// # Errors
///
/// As those of `resolve_expr`; the type's name is unknown if it is no type of the language.
pub fn resolve_type(names: &FileNames, t: &TypeExpr) -> Result<TypeExpr, ScopeFault>
    ensures { Judges type_tree result (type_resolved (type_tree t.now) (outermost names.now)) }
{
    type_expr(&Inside::outermost(names), t)
}

/// Members of an actor or a unit that see the names of their file, with each name written out in full.
///
/// # Errors
///
/// `Broken`: the first rule of scope that a member breaks, with the place: a name or a port is unknown, is used as what
/// it isn't, or is declared twice in one scope inside the member. `Memory`: an allocation was refused.
pub fn resolve_members(
    names: &FileNames,
    ports: &PortNames,
    list: &[Member],
) -> Result<Vec<Member>, ScopeFault>
    ensures { Judges member_trees result
        (members_among ports.now list.now (outermost names.now)) }
{
    members(&Inside::outermost(names), ports, list)
}
