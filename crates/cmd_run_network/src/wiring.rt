//! The wiring of a flat network, with the ports that have files.

ghost use Rattle.std.specs.Prelude.{◌≡◌, IfOk, map};
ghost use Rattle.rvc_words.specs.Words.{port_text};
ghost use Rattle.net_model.specs.Ready.{port_of};
ghost use Rattle.cmd_run_network.specs.Network.{IsWiringBy};

use cmd_ports::named_ports;
use fnl_flatten::Flat;
use net_model::{Port, Wiring};
use network_runner::copy_of;
use rvc_base::Memory;
use rvc_words::PortWord;
use std::alloc::Global;

/// A copy of ports.
fn copy_ports(alloc: Global, ports: &[Port]) -> Result<Vec<Port>, Memory>
    ensures { IfOk result (λ copy. map port_of copy.items ≡ map port_of ports.now) }
{
    let mut copy = Vec::new(alloc);
    let mut rest = ports;
    'ports: while let Some((port, others)) = rest.split_first() {
        let name = String::from_str(alloc, port.name.as_str())?;
        let kind = port.kind;
        copy.push(Port { name, kind })?;
        rest = others;
    }
    Ok(copy)
}

/// A copy of the links and ports of a flat network. A port is open if a word gives it a file.
///
/// # Errors
///
/// `Memory` if memory runs out.
pub fn wiring_of(alloc: Global, flat: &Flat, words: &[PortWord]) -> Result<Wiring, Memory>
    ensures { IfOk result (IsWiringBy flat.now (map port_text words.now)) }
{
    let links = copy_of(alloc, flat.links.as_slice())?;
    let ins = copy_ports(alloc, flat.ins.as_slice())?;
    let outs = copy_ports(alloc, flat.outs.as_slice())?;
    let open_ins = named_ports(alloc, words, flat.ins.as_slice())?;
    let open_outs = named_ports(alloc, words, flat.outs.as_slice())?;
    Ok(Wiring {
        links,
        ins,
        outs,
        open_ins,
        open_outs,
    })
}
