//! The text of the generator's network.

ghost use Rattle.std.specs.Prelude.{◌≡◌, ◌<◌, ◌+◌, ◌++◌, IfOk};
ghost use Rattle.cmd_gen_network.specs.Texts.{class_of, connections_text, from_text, id_text, instance_text, instances_text, joins_text, network_text, parameter_text, to_text};

use crate::put::{put, put_numbered};
use rvc_base::Memory;
use std::alloc::Global;

/// The beginning of the network and its ports.
const PORTS: &[u8] =
    b"<XDF name='Top'><Port kind='Input' name='In'><Type name='uint'><Entry kind='Expr' name='size'><Expr kind='Literal' literal-kind='Integer' value='8'/></Entry></Type></Port><Port kind='Output' name='Out'><Type name='uint'><Entry kind='Expr' name='size'><Expr kind='Literal' literal-kind='Integer' value='8'/></Entry></Type></Port>";

/// The text of a network of so many instances in a row, from its input to its output.
///
/// # Errors
///
/// `Memory` if memory runs out.
pub fn network_text(alloc: Global, instances: u32) -> Result<Vec<u8>, Memory>
    requires some { 0 < instances }
    ensures { IfOk result (λ text. text.items ≡ network_text instances) }
{
    let mut text = Vec::new(alloc);
    put(PORTS, &mut text)?;
    put_instances(instances, &mut text)?;
    put_connections(instances, &mut text)?;
    put(b" dst='' dst-port='Out'/></XDF>", &mut text)?;
    Ok(text)
}

/// Puts the first so many instances behind what stands in `out`.
fn put_instances(instances: u32, out: &mut Vec<u8>) -> Result<(), Memory>
    ensures { IfOk result (λ _. out.new.items ≡ out.old.items ++ instances_text instances) }
{
    for k in 0..instances {
        put_instance(k, out)?;
    }
    Ok(())
}

/// Puts instance k behind what stands in `out`.
fn put_instance(k: u32, out: &mut Vec<u8>) -> Result<(), Memory>
    ensures { IfOk result (λ _. out.new.items ≡ out.old.items ++ instance_text k) }
{
    put_id(k, out)?;
    put(class_of(k), out)?;
    put_parameter(k, out)?;
    Ok(())
}

/// Puts the beginning of instance k behind what stands in `out`.
fn put_id(k: u32, out: &mut Vec<u8>) -> Result<(), Memory>
    ensures { IfOk result (λ _. out.new.items ≡ out.old.items ++ id_text k) }
{
    put_numbered(b"<Instance id='a", k, b"'><Class name='", out)
}

/// Puts the end of instance k behind what stands in `out`.
fn put_parameter(k: u32, out: &mut Vec<u8>) -> Result<(), Memory>
    ensures { IfOk result (λ _. out.new.items ≡ out.old.items ++ parameter_text k) }
{
    put_numbered(
        b"'/><Parameter name='K'><Expr kind='Literal' literal-kind='Integer' value='",
        k,
        b"'/></Parameter></Instance>",
        out,
    )
}

/// The class of instance k.
fn class_of(k: u32) -> &'static [u8]
    ensures { result.now ≡ class_of k }
{
    if k % 2 == 0 {
        return b"gen.Add";
    }
    b"gen.Flip"
}

/// Puts all connections behind what stands in `out`, but for where the last one ends.
fn put_connections(instances: u32, out: &mut Vec<u8>) -> Result<(), Memory>
    requires some { 0 < instances }
    ensures { IfOk result (λ _. out.new.items ≡ out.old.items ++ connections_text instances) }
{
    put(
        b"<Connection src='' src-port='In' dst='a0' dst-port='In'/>",
        out,
    )?;
    put_joins(instances - 1, out)?;
    put_from(instances - 1, out)?;
    Ok(())
}

/// Puts the first so many connections between two instances behind what stands in `out`.
fn put_joins(joins: u32, out: &mut Vec<u8>) -> Result<(), Memory>
    requires few { joins < 4294967295 }
    ensures { IfOk result (λ _. out.new.items ≡ out.old.items ++ joins_text joins) }
{
    for k in 0..joins {
        put_join(k, out)?;
    }
    Ok(())
}

/// Puts the connection from instance k to the next one behind what stands in `out`.
fn put_join(k: u32, out: &mut Vec<u8>) -> Result<(), Memory>
    requires few { k < 4294967295 }
    ensures { IfOk result (λ _. out.new.items ≡ out.old.items ++ (from_text k ++ to_text (k + 1))) }
{
    put_from(k, out)?;
    put_to(k + 1, out)?;
    Ok(())
}

/// Puts where a connection begins that leaves instance k.
fn put_from(k: u32, out: &mut Vec<u8>) -> Result<(), Memory>
    ensures { IfOk result (λ _. out.new.items ≡ out.old.items ++ from_text k) }
{
    put_numbered(b"<Connection src='a", k, b"' src-port='Out'", out)
}

/// Puts where a connection ends that leads to instance k.
fn put_to(k: u32, out: &mut Vec<u8>) -> Result<(), Memory>
    ensures { IfOk result (λ _. out.new.items ≡ out.old.items ++ to_text k) }
{
    put_numbered(b" dst='a", k, b"' dst-port='In'/>", out)
}
