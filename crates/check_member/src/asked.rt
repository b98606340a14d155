//! Which port each pattern or output of an action means.

ghost use Rattle.std.specs.Prelude.{◌≡◌, ◌≤◌, IfOk, length, option_map};
ghost use Rattle.cal_ast.specs.View.{ident_tree, optional};
ghost use Rattle.cal_model.specs.Kinding.{Fine};
ghost use Rattle.cal_model.specs.Sound.{max_ports};
ghost use Rattle.cal_check.specs.Ports.{asked_name, each_asked, is_named, named_port, number_from, numbers_twice, port_of, ports_asked};
ghost use Rattle.check_member.specs.Asking.{asked_broken, asked_view, asked_views, outputs_tree, patterns_tree, port_views};
ghost use Rattle.check_member.specs.Judging.{Checks, Judges};

use crate::fault::MemberFault;
use cal_ast::{Ident, Output, Pattern};
use cal_model::Port;
use rvc_base::Rule;
use std::alloc::{AllocError, Global};

/// The port that a pattern or an output asks for.
#[derive(Clone, Copy)]
struct AskedPort<'a> {
    /// Its name, if it has one.
    name: Option<&'a str>,
    /// The offset of the pattern or output.
    at: u32,
}

/// The number of the input port of each pattern: by name if the first pattern has one, and else by place.
///
/// # Errors
///
/// `Broken`, at the pattern: A2 if names and places are mixed or there are more patterns than ports, S1 if no port has
/// the name, A1 if an earlier pattern means the same port. `Memory` if memory runs out.
pub fn pattern_ports(
    alloc: Global,
    patterns: &[Pattern],
    ports: &[Port],
) -> Result<Vec<u32>, MemberFault>
    requires { length ports.now ≤ max_ports }
    ensures checked { Checks result
        (asked_broken (each_asked (patterns_tree patterns.now)) (port_views ports.now)) }
    ensures numbers { IfOk result (λ numbers.
        ports_asked (each_asked (patterns_tree patterns.now)) (port_views ports.now)
        ≡ Fine numbers.items) }
{
    let asked = asked_by_patterns(alloc, patterns)?;
    ports_meant(alloc, &asked, ports)
}

/// The number of the output port of each output: by name if the first output has one, and else by place.
///
/// # Errors
///
/// As those of [`pattern_ports`], at the output.
pub fn output_ports(
    alloc: Global,
    outputs: &[Output],
    ports: &[Port],
) -> Result<Vec<u32>, MemberFault>
    requires { length ports.now ≤ max_ports }
    ensures checked { Checks result
        (asked_broken (each_asked (outputs_tree outputs.now)) (port_views ports.now)) }
    ensures numbers { IfOk result (λ numbers.
        ports_asked (each_asked (outputs_tree outputs.now)) (port_views ports.now)
        ≡ Fine numbers.items) }
{
    let asked = asked_by_outputs(alloc, outputs)?;
    ports_meant(alloc, &asked, ports)
}

/// What each pattern asks for.
fn asked_by_patterns<'a>(
    alloc: Global,
    patterns: &'a [Pattern],
) -> Result<Vec<AskedPort<'a>>, AllocError>
    ensures { IfOk result (λ asked. asked_views asked.items
        ≡ each_asked (patterns_tree patterns.now)) }
{
    let mut asked = Vec::new(alloc);
    let mut rest = patterns;
    'patterns: while let Some((first, others)) = rest.split_first() {
        asked.push(asked_for(&first.port, first.at))?;
        rest = others;
    }
    Ok(asked)
}

/// What each output asks for.
fn asked_by_outputs<'a>(
    alloc: Global,
    outputs: &'a [Output],
) -> Result<Vec<AskedPort<'a>>, AllocError>
    ensures { IfOk result (λ asked. asked_views asked.items
        ≡ each_asked (outputs_tree outputs.now)) }
{
    let mut asked = Vec::new(alloc);
    let mut rest = outputs;
    'outputs: while let Some((first, others)) = rest.split_first() {
        asked.push(asked_for(&first.port, first.at))?;
        rest = others;
    }
    Ok(asked)
}

/// What a part with such a port asks for.
fn asked_for<'a>(port: &'a Option<Ident>, at: u32) -> AskedPort<'a>
    ensures { asked_view result
        ≡ record { name = asked_name (optional (option_map ident_tree port.now)); at = at } }
{
    let name = match port {
        Some(port) => Some(port.text.as_str()),
        None => None,
    };
    AskedPort { name, at }
}

/// The ports that are asked for, each once.
fn ports_meant(alloc: Global, asked: &[AskedPort], ports: &[Port]) -> Result<Vec<u32>, MemberFault>
    requires { length ports.now ≤ max_ports }
    ensures checked { Checks result (asked_broken (asked_views asked.now) (port_views ports.now)) }
    ensures numbers { IfOk result (λ numbers.
        ports_asked (asked_views asked.now) (port_views ports.now) ≡ Fine numbers.items) }
{
    let numbers = each_port(alloc, asked, ports)?;
    check_once(&numbers, asked)?;
    Ok(numbers)
}

/// The ports that are asked for.
fn each_port(alloc: Global, asked: &[AskedPort], ports: &[Port]) -> Result<Vec<u32>, MemberFault>
    requires { length ports.now ≤ max_ports }
    ensures { Judges (λ numbers. numbers.items) result
        (ports_asked (asked_views asked.now) (port_views ports.now)) }
{
    let named = is_named(asked);
    let mut numbers = Vec::new(alloc);
    for part in asked {
        let number = port_meant(named, numbers.len(), part, ports)?;
        numbers.push(number)?;
    }
    Ok(numbers)
}

/// Whether the first names its port.
fn is_named(asked: &[AskedPort]) -> bool
    ensures { result ≡ is_named (asked_views asked.now) }
{
    match asked.first() {
        Some(first) => first.name.is_some(),
        None => false,
    }
}

/// The port of a part that stands behind so many others.
fn port_meant(named: bool, k: usize, asked: &AskedPort, ports: &[Port]) -> Result<u32, MemberFault>
    requires { length ports.now ≤ max_ports }
    ensures { Judges (λ number. number) result
        (port_of named k (asked_view asked.now) (asked_view asked.now).name (port_views ports.now)) }
{
    match asked.name {
        Some(name) if named => named_port(name, ports, asked.at),
        None if !named && k < ports.len() => Ok(k as u32),
        _ => Err(MemberFault::broken(Rule::WRONG_PORTS, asked.at)),
    }
}

/// The port of a name.
fn named_port(name: &str, ports: &[Port], at: u32) -> Result<u32, MemberFault>
    requires { length ports.now ≤ max_ports }
    ensures { Judges (λ number. number) result
        (named_port (number_from 0 name.now (port_views ports.now)) at) }
{
    let mut number: u32 = 0;
    let mut rest = ports;
    'ports: while let Some((first, others)) = rest.split_first() {
        if first.name.as_str() == name {
            return Ok(number);
        }
        number += 1;
        rest = others;
    }
    Err(MemberFault::broken(Rule::UNKNOWN_NAME, at))
}

/// Whether each port is asked for once.
fn check_once(numbers: &[u32], asked: &[AskedPort]) -> Result<(), MemberFault>
    requires { length numbers.now ≡ length asked.now }
    ensures { Checks result (numbers_twice numbers.now (asked_views asked.now)) }
{
    for k in 0..numbers.len() {
        if numbers[..k].contains(&numbers[k]) {
            return Err(MemberFault::broken(Rule::PORT_NAMED_TWICE, asked[k].at));
        }
    }
    Ok(())
}
