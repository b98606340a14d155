//! Kinds of what patterns take and outputs give.

ghost use Rattle.std.specs.Prelude.{◌≡◌, IfOk};
ghost use Rattle.cal_model.specs.Selection.{kind_of_port};
ghost use Rattle.cal_model.specs.Sound.{kind_of_tokens};
ghost use Rattle.cal_model.specs.Value.{kind_of_scalar};
ghost use Rattle.cal_model.specs.View.{kind_view};
ghost use Rattle.check_member.specs.Asking.{port_views};

use cal_model::{Kind, Port};
use rvc_base::{Memory, Scalar};
use std::alloc::Global;

/// The type of a port; that of truth values if there is no such port.
pub(crate) fn type_of_port(ports: &[Port], number: u32) -> Scalar
    ensures { result ≡ kind_of_port (port_views ports.now) number }
{
    match ports.get(number as usize) {
        Some(port) => port.kind,
        None => Scalar::Bool,
    }
}

/// The kind of tokens of a type, repeated so often.
pub(crate) fn kind_of_tokens(alloc: Global, t: Scalar, repeat: Option<u32>) -> Result<Kind, Memory>
    ensures { IfOk result (λ k. kind_view k ≡ kind_of_tokens t repeat) }
{
    let single = kind_of_scalar(t);
    match repeat {
        Some(times) => Ok(Kind::List(times, Box::new(alloc, single)?)),
        None => Ok(single),
    }
}

/// The kind of the values of a single type.
fn kind_of_scalar(t: Scalar) -> Kind
    ensures { kind_view result ≡ kind_of_scalar t }
{
    match t {
        Scalar::Bool => Kind::Bool,
        Scalar::Int(_) => Kind::Num,
        Scalar::Uint(_) => Kind::Num,
    }
}
