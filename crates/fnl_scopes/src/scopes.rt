//! All rules of scope together.
#![tactic(auto, using(crate::proofs::Steps::in_first, crate::proofs::Steps::in_others))]

ghost use Rattle.std.specs.Prelude.{map, string_bytes};
ghost use Rattle.fnl_bind.specs.Scopes.{scope_broken};
ghost use Rattle.fnl_frames.specs.Views.{net_of};
ghost use Rattle.fnl_scopes.specs.Tested.{Tests};

use crate::circles::no_circles;
use crate::fault::ScopeFault;
use crate::named::named_as_asked;
use crate::once::{decls_once, instances_once, ports_once};
use crate::parts::known_names;
use crate::ports::few_ports;
use fnl_read::NetFile;
use std::alloc::Global;

/// Tests the rules of scope in the network of a class that stands in networks of these classes, its own among them.
///
/// # Errors
///
/// `Broken` with a rule that the network breaks and its place: S5 if its name isn't the last component of its class, at
/// the start of its file; N8 if a port, a declaration or an instance stands twice, Z3 if it has too many ports of one
/// direction, S1 if an expression uses a name that isn't declared or a type has a name that there isn't, N3 if an
/// instance is one of the networks in which it stands. `Memory` if memory runs out.
pub fn check_scopes(
    alloc: Global,
    net: &NetFile,
    class: &str,
    above: &[String],
) -> Result<(), ScopeFault>
    ensures { Tests result
        (scope_broken (net_of net.now) class.now (map string_bytes above.now)) }
{
    named_as_asked(net, class)?;
    ports_once(alloc, &net.ports)?;
    let declared = decls_once(alloc, &net.decls)?;
    instances_once(alloc, &net.instances)?;
    few_ports(net)?;
    known_names(net, &declared)?;
    no_circles(&net.instances, above)
}
