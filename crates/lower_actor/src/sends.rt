//! Where a firing leaves what it sends, port by port.

ghost use Rattle.std.specs.Prelude.{◌≡◌, IfOk, map};
ghost use Rattle.std.specs.List.{range_with_len};
ghost use Rattle.cal_model.specs.View.{output_view};
ghost use Rattle.action_lower.specs.FiringCode.{first_on};

use cal_model::BoundOutput;
use std::alloc::{AllocError, Global};

/// For each of so many output ports the first of the cells that hold what is sent there, and 0 if nothing is.
pub(crate) fn sends_of(
    alloc: Global,
    outputs: &[BoundOutput],
    firsts: &[u32],
    ports: u32,
) -> Result<Vec<u32>, AllocError>
    ensures { IfOk result (λ sends. sends.items
        ≡ map (first_on (map output_view outputs.now) firsts.now) (range_with_len 0 ports)) }
{
    let mut sends = Vec::new(alloc);
    for port in 0..ports {
        sends.push(first_on(outputs, firsts, port))?;
    }
    Ok(sends)
}

/// The first cell of the output on a port, and 0 if there is none.
fn first_on(outputs: &[BoundOutput], firsts: &[u32], port: u32) -> u32
    ensures { result ≡ first_on (map output_view outputs.now) firsts.now port }
{
    let Some((output, others)) = outputs.split_first() else {
        return 0;
    };
    let Some((first, later)) = firsts.split_first() else {
        return 0;
    };
    if output.port == port {
        return *first;
    }
    first_on(others, later, port)
}
