//! The ports of an actor's header.
#![tactic(auto, using(crate::proofs::Headers::breaks_first, crate::proofs::Headers::fine_first, crate::proofs::Headers::behind_more, crate::proofs::Headers::behind_all))]

ghost use Rattle.std.specs.Prelude.{◌≡◌, [], IfErr, IfOk, Some, map};
ghost use Rattle.cal_ast.specs.View.{port_tree};
ghost use Rattle.cal_check.specs.Ports.{each_port, header_broken, port_judged};
ghost use Rattle.cal_check.specs.Violations.{all_broken, all_fine};
ghost use Rattle.cal_model.specs.View.{port_view};
ghost use Rattle.const_env.specs.Counting.{names_view};
ghost use Rattle.const_env.specs.Judging.{Judges};
ghost use Rattle.check_member.specs.Parts.{bare_header_broken};
ghost use Rattle.check_stmt.specs.Judging.{Checks, Refuses};
ghost use Rattle.check_variable.specs.Views.{ports_tree};
ghost use Rattle.check_variable.specs.Faults.{kind_fault};

use crate::early_type;
use cal_ast::PortDecl;
use cal_model::Port;
use check_member::{MemberFault, check_ports, port_of};
use const_eval::{KindFault, Names};

/// The ports of an actor, by their direction, in the order of the text.
#[derive(Drop)]
pub struct Header {
    pub ins: Vec<Port>,
    pub outs: Vec<Port>,
}

/// The same fault, as one of kinds.
fn kind_fault(fault: MemberFault) -> KindFault
    ensures { result ≡ kind_fault fault }
{
    match fault {
        MemberFault::Broken { rule, at } => KindFault::Broken { rule, at },
        MemberFault::Memory => KindFault::Memory,
    }
}

/// A port of a header, over the names that this sees.
///
/// # Errors
///
/// `Broken` with the rule that its type breaks, and its place; T8 if it is that of lists. `Memory` if memory runs out.
pub fn port(names: &Names, declared: &PortDecl) -> Result<Port, KindFault>
    ensures { Judges port_view result (port_judged (port_tree declared.now) (names_view names.now)) }
{
    let t = early_type(names, &declared.shape)?;
    match port_of(names.alloc, declared, &t) {
        Ok(port) => Ok(port),
        Err(fault) => Err(kind_fault(fault)),
    }
}

/// The ports of one direction.
fn ports(names: &Names, declared: &[PortDecl]) -> Result<Vec<Port>, KindFault>
    ensures conform { IfOk result (λ ports.
        all_broken (each_port (ports_tree declared.now) (names_view names.now)) ≡ []) }
    ensures ports { IfOk result (λ ports. all_fine (each_port (ports_tree declared.now) (names_view names.now))
        ≡ Some (map port_view ports.items)) }
    ensures refused { IfErr result (λ fault. Refuses fault
        (all_broken (each_port (ports_tree declared.now) (names_view names.now)))) }
{
    let mut ports = Vec::new(names.alloc);
    let mut rest = declared;
    'ports: while let Some((first, others)) = rest.split_first() {
        ports.push(port(names, first)?)?;
        rest = others;
    }
    Ok(ports)
}

/// That the names of ports differ, and that there are few.
fn bare_header(names: &Names, ins: &[PortDecl], outs: &[PortDecl], at: u32) -> Result<(), KindFault>
    ensures { Checks result (bare_header_broken (ports_tree ins.now) (ports_tree outs.now) at) }
{
    match check_ports(names.alloc, ins, outs, at) {
        Ok(()) => Ok(()),
        Err(fault) => Err(kind_fault(fault)),
    }
}

/// The ports of an actor that begins at an offset, over the names that its header sees: what other files declare, and the
/// parameters (ISO/IEC 23001-4, RVC-CAL: actors).
///
/// # Errors
///
/// `Broken` with a rule that the header breaks, and its place: what the type of a port breaks, T8 if it is that of
/// lists, A1 at a second port of one name, Z3 at the actor if there are more than 32 of one direction. `Memory` if memory
/// runs out.
pub fn header_ports(
    names: &Names,
    ins: &[PortDecl],
    outs: &[PortDecl],
    at: u32,
) -> Result<Header, KindFault>
    ensures conform { IfOk result (λ h.
        header_broken (ports_tree ins.now) (ports_tree outs.now) at (names_view names.now) ≡ []) }
    ensures ins { IfOk result (λ h. all_fine (each_port (ports_tree ins.now) (names_view names.now))
        ≡ Some (map port_view h.ins.items)) }
    ensures outs { IfOk result (λ h. all_fine (each_port (ports_tree outs.now) (names_view names.now))
        ≡ Some (map port_view h.outs.items)) }
    ensures refused { IfErr result (λ fault. Refuses fault
        (header_broken (ports_tree ins.now) (ports_tree outs.now) at (names_view names.now))) }
{
    let found_ins = ports(names, ins)?;
    let found_outs = ports(names, outs)?;
    bare_header(names, ins, outs, at)?;
    Ok(Header {
        ins: found_ins,
        outs: found_outs,
    })
}
