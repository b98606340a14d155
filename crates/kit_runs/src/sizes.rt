//! Types of tokens.

ghost use Rattle.std.specs.Prelude.{◌≡◌};
ghost use Rattle.kit_runs.specs.Links.{are_ports_sized, is_size};

use net_model::Port;
use rvc_base::{MAX_SIZE, Scalar};

/// Whether a type has a size that a type may have.
pub(crate) fn is_size(kind: Scalar) -> bool
    ensures { result ≡ is_size kind }
{
    match kind {
        Scalar::Bool => true,
        Scalar::Int(size) => 1 <= size && size <= MAX_SIZE,
        Scalar::Uint(size) => 1 <= size && size <= MAX_SIZE,
    }
}

/// Whether each port has a type of such a size.
pub(crate) fn are_ports_sized(ports: &[Port]) -> bool
    ensures { result ≡ are_ports_sized ports.now }
{
    let mut rest = ports;
    'ports: while let Some((first, others)) = rest.split_first() {
        if !is_size(first.kind) {
            return false;
        }
        rest = others;
    }
    true
}
