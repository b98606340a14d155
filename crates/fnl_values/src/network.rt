//! A network with its values.
#![tactic(auto, using(crate::proofs::Faults::refuses_in_first, crate::proofs::Faults::refuses_in_others, crate::proofs::Faults::cause_in_first, crate::proofs::Faults::cause_in_others))]

ghost use Rattle.std.specs.Prelude.{◌≡◌, [], IfErr, IfOk};
ghost use Rattle.const_env.specs.Held.{names_in};
ghost use Rattle.fnl_frames.specs.Views.{net_of};
ghost use Rattle.fnl_values.specs.Evaluated.{Evaluates, HasParts, alone};
ghost use Rattle.check_given.specs.Given.{all_given, spot_of};
ghost use Rattle.fnl_values.specs.Causes.{Refuses};
ghost use Rattle.fnl_values.specs.InMemory.{parts_broken};
ghost use Rattle.fnl_values.specs.Steady.{IsSteady};

use crate::declared::{Told, declared};
use crate::ends::typed_ports;
use crate::fault::in_file;
use crate::given::given_rightly;
use crate::sizes::wires;
use crate::visits::{Visit, visits};
use check_given::GivenValues;
use const_eval::{Env, KindFault};
use fnl_read::NetFile;
use fnl_tree::{LeafValue, NetEnd, Wire};
use rvc_base::{Front, Place};
use std::alloc::Global;
use std::collections::VecDeque;

/// What a network has where it stands: its own ports, its connections, and its instances with what it gives to them.
#[derive(Drop)]
pub struct NetValues<'a> {
    pub ins: Vec<NetEnd>,
    pub outs: Vec<NetEnd>,
    pub wires: Vec<Wire>,
    /// In the order of the text.
    pub visits: VecDeque<Visit<'a>>,
}

/// The parts of a network over the names that it declares.
fn parts<'a>(
    alloc: Global,
    file: u32,
    env: &Env,
    net: &'a NetFile,
) -> Result<NetValues<'a>, KindFault>
    requires { IsSteady env.now }
    ensures conform { IfOk result (λ v. parts_broken env.now net.entry.now ≡ []) }
    ensures parts { IfOk result (λ v. HasParts v file (net_of net.entry.now) (names_in env.now)) }
    ensures refused { IfErr result (λ fault. Refuses fault (parts_broken env.now net.entry.now)) }
{
    let ends = typed_ports(alloc, env, &net.ports)?;
    let visits = visits(alloc, env, file, &net.instances)?;
    let wires = wires(alloc, env, &net.connections)?;
    Ok(NetValues {
        ins: ends.ins,
        outs: ends.outs,
        wires,
        visits,
    })
}

/// The same as [`evaluate`], over values that have an index.
fn evaluated<'a>(
    alloc: Global,
    file: u32,
    net: &'a NetFile,
    given: &GivenValues<'_>,
    owner: Place,
) -> Result<NetValues<'a>, Front>
    ensures { Evaluates result
        (alone file (net_of net.entry.now) (all_given given.now) (spot_of owner)) }
{
    given_rightly(alloc, given, &net.decls)?;
    let told = Told {
        alloc,
        file,
        given,
        owner,
    };
    let env = declared(told, &net.decls)?;
    match parts(alloc, file, &env, net) {
        Ok(values) => Ok(values),
        Err(fault) => Err(in_file(file, fault)),
    }
}

/// Evaluates a network of a file, whose parameters are given these values: its declarations in the order of the text,
/// and then what its parts say over them. A parameter that isn't given a value has its default; if it has none, that is
/// refused at the owner, which is the instance as which the network stands, or the command line.
///
/// # Errors
///
/// `Refused` with a rule that is broken and its place: N2 if a value is given to no parameter or twice, or a parameter
/// has none; T1 and T5 if a value is of another kind or length than its type; T2, T3, T6, T8 and Z4 as their rules say
/// of types and expressions; T7 and T9 if what must be constant traps or isn't constant; N9 if a size isn't allowed.
/// `Memory` if memory runs out.
pub fn evaluate<'a>(
    alloc: Global,
    file: u32,
    net: &'a NetFile,
    given: &[LeafValue],
    owner: Place,
) -> Result<NetValues<'a>, Front>
    ensures { Evaluates result
        (alone file (net_of net.entry.now) (all_given given.now) (spot_of owner)) }
{
    let Ok(given) = GivenValues::new(alloc, given) else {
        return Err(Front::Memory);
    };
    evaluated(alloc, file, net, &given, owner)
}
