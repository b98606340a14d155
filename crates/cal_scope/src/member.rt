//! Members of an actor or a unit with each name written out in full.
#![tactic(auto, using(crate::proofs::Judged::breaks_on))]

ghost use Rattle.cal_ast.specs.View.{member_tree};
ghost use Rattle.cal_scope.specs.Asked.{member_trees};
ghost use Rattle.cal_scope.specs.Judging.{Judges};
ghost use Rattle.cal_scope.specs.PortView.{member_among, members_among};
ghost use Rattle.cal_scope.specs.View.{names_view};

use crate::actions::action;
use crate::fault::ScopeFault;
use crate::frames::Inside;
use crate::members::{function, procedure};
use crate::ports::PortNames;
use crate::vars::first_var;
use cal_ast::Member;

/// A member.
pub(crate) fn member(names: &Inside, ports: &PortNames, m: &Member) -> Result<Member, ScopeFault>
    ensures { Judges member_tree result
        (member_among ports.now m.now (names_view names.now)) }
{
    match m {
        Member::Var(v) => Ok(Member::Var(first_var(names, v)?)),
        Member::Function(f) => Ok(Member::Function(function(names, f)?)),
        Member::Procedure(p) => Ok(Member::Procedure(procedure(names, p)?)),
        Member::Action(a) => Ok(Member::Action(action(names, ports, a)?)),
        Member::Schedule(_) => Ok(m.copy(names.alloc)?),
        Member::Priority(_) => Ok(m.copy(names.alloc)?),
    }
}

/// Members in order.
pub(crate) fn members(
    names: &Inside,
    ports: &PortNames,
    list: &[Member],
) -> Result<Vec<Member>, ScopeFault>
    ensures { Judges member_trees result (members_among ports.now list.now (names_view names.now)) }
{
    let mut found = Vec::new(names.alloc);
    for m in list {
        found.push(member(names, ports, m)?)?;
    }
    Ok(found)
}
