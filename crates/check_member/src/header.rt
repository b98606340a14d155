//! The ports of an actor's header.

ghost use Rattle.std.specs.Prelude.{◌≡◌, [], ◌++◌, ℕ, List, IfErr, OnOk, nat_le};
ghost use Rattle.std.specs.Str.{bytes_eq};
ghost use Rattle.rvc_base.specs.Rules.{port_named_twice, too_many_ports};
ghost use Rattle.cal_ast.specs.View.{port_tree, type_tree};
ghost use Rattle.cal_model.specs.Kinding.{Fine, Names};
ghost use Rattle.cal_model.specs.Rates.{parts};
ghost use Rattle.cal_model.specs.Sound.{max_ports};
ghost use Rattle.cal_model.specs.View.{port_view, shape_view};
ghost use Rattle.cal_check.specs.Constants.{early_type};
ghost use Rattle.cal_check.specs.Ports.{keyed_ports, port_judged};
ghost use Rattle.cal_check.specs.Violations.{Keyed, twice, unless};
ghost use Rattle.check_member.specs.Judging.{Checks, Judges, Refuses};
ghost use Rattle.check_member.specs.Parts.{bare_header_broken, ports_tree};

use crate::fault::MemberFault;
use crate::name_index::NameIndex;
use cal_ast::PortDecl;
use cal_model::{Port, Shape};
use rvc_base::Rule;
use std::alloc::Global;

/// The most ports of one direction.
const MAX_PORTS: usize = 32;

/// Whether the names of ports differ over both directions, and neither direction has more than 32. `at` is the offset
/// of the actor.
///
/// # Errors
///
/// `Broken`: A1 at the second of two ports of one name, or Z3 at the actor. `Memory` if memory runs out.
pub fn check_ports(
    alloc: Global,
    ins: &[PortDecl],
    outs: &[PortDecl],
    at: u32,
) -> Result<(), MemberFault>
    ensures { Checks result (bare_header_broken (ports_tree ins.now) (ports_tree outs.now) at) }
{
    check_names(alloc, ins, outs)?;
    check_few(ins, at)?;
    check_few(outs, at)
}

/// Whether the names of ports differ over both directions.
fn check_names(alloc: Global, ins: &[PortDecl], outs: &[PortDecl]) -> Result<(), MemberFault>
    ensures { Checks result (twice bytes_eq port_named_twice []
        (keyed_ports (ports_tree ins.now) ++ keyed_ports (ports_tree outs.now))) }
{
    let mut names = NameIndex::new(alloc);
    name_once(&mut names, ins)?;
    name_once(&mut names, outs)?;
    Ok(())
}

/// Whether there are at most 32 ports.
fn check_few(ports: &[PortDecl], at: u32) -> Result<(), MemberFault>
    ensures { Checks result (unless (nat_le (parts (ports_tree ports.now)) max_ports)
        too_many_ports at) }
{
    if ports.len() > MAX_PORTS {
        return Err(MemberFault::broken(Rule::TOO_MANY_PORTS, at));
    }
    Ok(())
}

/// Adds the names of ports, none of which is there before.
fn name_once(names: &mut NameIndex, ports: &[PortDecl]) -> Result<(), MemberFault>
    ensures fine { OnOk result ((more : List (Keyed (List ℕ)))
        → twice bytes_eq port_named_twice names.old (keyed_ports (ports_tree ports.now) ++ more)
        ≡ twice bytes_eq port_named_twice names.new more) }
    ensures broken { IfErr result (λ fault. (more : List (Keyed (List ℕ)))
        → Refuses fault (twice bytes_eq port_named_twice names.old
        (keyed_ports (ports_tree ports.now) ++ more))) }
{
    let mut rest = ports;
    'ports: while let Some((first, others)) = rest.split_first() {
        if !names.add(first.name.text.as_str())? {
            return Err(MemberFault::broken(Rule::PORT_NAMED_TWICE, first.at));
        }
        rest = others;
    }
    Ok(())
}

/// A port whose type was found: it is that of a single value.
///
/// # Errors
///
/// `Broken`: T8 at the type if it is that of a list. `Memory` if memory runs out.
pub fn port_of(alloc: Global, port: &PortDecl, shape: &Shape) -> Result<Port, MemberFault>
    ensures { (names : Names) → early_type (type_tree port.now.shape) names ≡ Fine (shape_view shape.now)
        → Judges port_view result (port_judged (port_tree port.now) names) }
{
    match shape {
        Shape::Scalar(kind) => Ok(Port {
            name: port.name.text.clone()?,
            kind: *kind,
        }),
        Shape::List(_, _) => Err(MemberFault::broken(Rule::LIST_NOT_ALLOWED, port.shape.at)),
    }
}
