//! How many ports a network has.

ghost use Rattle.std.specs.Prelude.{◌≡◌, length, map};
ghost use Rattle.fnl_bind.specs.Library.{ports_of};
ghost use Rattle.fnl_bind.specs.Scopes.{ports_broken};
ghost use Rattle.fnl_frames.specs.Views.{net_of, port_of};
ghost use Rattle.fnl_scopes.specs.Tested.{Tests};

use crate::fault::ScopeFault;
use fnl_read::{NetFile, NetPort};
use rvc_base::Rule;

/// The most ports of one direction.
const MAX_PORTS: usize = 32;

/// How many ports of one direction there are.
fn count_of(input: bool, ports: &[NetPort]) -> usize
    ensures { result ≡ length (ports_of input (map port_of ports.now)) }
{
    let mut count = 0usize;
    let mut rest = ports;
    'ports: while let Some((first, others)) = rest.split_first() {
        if first.input == input {
            count += 1;
        }
        rest = others;
    }
    count
}

/// That neither direction has too many ports.
pub(crate) fn few_ports(net: &NetFile) -> Result<(), ScopeFault>
    ensures { Tests result (ports_broken (net_of net.now)) }
{
    if count_of(true, &net.ports) > MAX_PORTS || count_of(false, &net.ports) > MAX_PORTS {
        return Err(ScopeFault::Broken {
            rule: Rule::TOO_MANY_PORTS,
            at: net.at,
        });
    }
    Ok(())
}
