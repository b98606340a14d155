//! Connections with the sizes that they ask for.
#![tactic(auto, using(crate::proofs::Faults::breaks_first, crate::proofs::Faults::fine_first, crate::proofs::Faults::refuses_in_first, crate::proofs::Faults::refuses_in_others))]

ghost use Rattle.std.specs.Prelude.{◌≡◌, map};
ghost use Rattle.cal_ast.specs.View.{expr_tree};
ghost use Rattle.cal_model.specs.Kinding.{Fine, kind};
ghost use Rattle.cal_model.specs.Value.{NumKind};
ghost use Rattle.cal_model.specs.View.{value_view};
ghost use Rattle.const_env.specs.Held.{names_in};
ghost use Rattle.const_env.specs.Judging.{Judges};
ghost use Rattle.fnl_bind.specs.Values.{size_judged, size_of_value};
ghost use Rattle.fnl_frames.specs.Views.{connection_of, size_of};
ghost use Rattle.fnl_values.specs.Judging.{IsLargest, Sizes, SizesAll};
ghost use Rattle.fnl_values.specs.Steady.{IsSteady};

use crate::constant::outcome;
use cal_model::{Kind, Value, constants_are_values};
use const_eval::{Env, KindFault, kind_const};
use fnl_read::{NetConnection, NetSize};
use fnl_tree::Wire;
use rvc_base::Rule;
use std::alloc::Global;

/// The largest size that a connection may ask for, in tokens.
const MAX_SIZE_ASKED: u32 = 1_048_576;

/// A size that isn't allowed.
fn wrong_size(at: u32) -> KindFault
    ensures { result ≡ KindFault.Broken Rule.WRONG_BUFFER_SIZE at }
{
    KindFault::Broken {
        rule: Rule::WRONG_BUFFER_SIZE,
        at,
    }
}

/// The size that a value is, which an element at an offset asks for.
fn size_of_value(value: &Value, at: u32) -> Result<u32, KindFault>
    ensures { Judges (λ n. n) result (size_of_value (value_view value.now) at) }
{
    match value {
        Value::Num(number) => {
            if *number >= 1 && *number <= i128::from(MAX_SIZE_ASKED) {
                return Ok(*number as u32);
            }
            Err(wrong_size(at))
        }
        // No number, which a size of a number's kind never is.
        Value::Bool(_) => Ok(0),
        Value::List(_) => Ok(0),
    }
}

/// A size that a connection asks for, which is of a number's kind.
fn number_asked(alloc: Global, env: &Env, asked: &NetSize) -> Result<u32, KindFault>
    requires steady { IsSteady env.now }
    requires number { kind (expr_tree asked.now.value) (names_in env.now) ≡ Fine NumKind }
    ensures { Judges (λ n. n) result (size_judged (size_of asked.now) (names_in env.now)) }
{
    constants_are_values();
    let value = outcome(alloc, env, &asked.value)?;
    size_of_value(&value, asked.at)
}

/// A size that a connection asks for.
fn size(alloc: Global, env: &Env, asked: &NetSize) -> Result<u32, KindFault>
    requires { IsSteady env.now }
    ensures { Judges (λ n. n) result (size_judged (size_of asked.now) (names_in env.now)) }
{
    match kind_const(alloc, env, &asked.value)? {
        Kind::Num => number_asked(alloc, env, asked),
        Kind::Bool => Err(wrong_size(asked.at)),
        Kind::List(_, _) => Err(wrong_size(asked.at)),
    }
}

/// The largest of the sizes that a connection asks for, or 0.
fn largest(alloc: Global, env: &Env, sizes: &[NetSize]) -> Result<u32, KindFault>
    requires { IsSteady env.now }
    ensures { IsLargest result (map size_of sizes.now) (names_in env.now) }
{
    let mut found = 0u32;
    let mut rest = sizes;
    'sizes: while let Some((first, others)) = rest.split_first() {
        let next = size(alloc, env, first)?;
        found = found.max(next);
        rest = others;
    }
    Ok(found)
}

/// A connection with its size.
fn wire(alloc: Global, env: &Env, c: &NetConnection) -> Result<Wire, KindFault>
    requires { IsSteady env.now }
    ensures { Sizes result (connection_of c.now) (names_in env.now) }
{
    let size = largest(alloc, env, &c.sizes)?;
    let src = c.src.clone()?;
    let src_port = c.src_port.clone()?;
    let dst = c.dst.clone()?;
    let dst_port = c.dst_port.clone()?;
    Ok(Wire {
        src,
        src_port,
        dst,
        dst_port,
        size,
        at: c.at,
    })
}

/// All connections with their sizes.
pub(crate) fn wires(
    alloc: Global,
    env: &Env,
    connections: &[NetConnection],
) -> Result<Vec<Wire>, KindFault>
    requires { IsSteady env.now }
    ensures { SizesAll result (map connection_of connections.now) (names_in env.now) }
{
    let mut wires = Vec::new(alloc);
    let mut rest = connections;
    'connections: while let Some((first, others)) = rest.split_first() {
        wires.push(wire(alloc, env, first)?)?;
        rest = others;
    }
    Ok(wires)
}
