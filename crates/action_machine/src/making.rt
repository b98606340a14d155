//! Cells for code.

ghost use Rattle.std.specs.Prelude.{◌≡◌, ◌+◌, ◌*◌, ◌^◌, ◌<◌, IfOk, length};
ghost use Rattle.action_machine.specs.Kept.{AreZeros, IsMadeFor};

use crate::kept::Cells;
use code_ir::Admitted;
use rvc_base::{Memory, Num};
use std::alloc::{AllocError, Global};

/// So many zeros.
fn zeros(alloc: Global, n: usize) -> Result<Vec<Num>, AllocError>
    ensures { IfOk result (λ v. AreZeros n v.items) }
{
    let mut zeros = Vec::new(alloc);
    for _k in 0..n {
        zeros.push(0)?;
    }
    Ok(zeros)
}

/// Room for so many open calls.
fn no_calls(alloc: Global, n: usize) -> Result<Vec<usize>, AllocError>
    ensures { IfOk result (λ v. length v.items ≡ n) }
{
    let mut frames = Vec::new(alloc);
    for _k in 0..n {
        frames.push(0)?;
    }
    Ok(frames)
}

/// Room for the operands of the body of an entry, and of each routine.
fn room(most: u32, routines: usize) -> usize
    requires { routines < 2 ^ 32 }
    ensures { result ≡ most * (routines + 1) }
{
    most as usize * (routines + 1)
}

/// Cells for this code, each of which holds 0.
///
/// # Errors
///
/// `Memory` if memory runs out.
pub fn cells(alloc: Global, code: &Admitted) -> Result<Cells, Memory>
    ensures zeros { IfOk result (λ cells. AreZeros code.now.cells cells.numbers) }
    ensures made { IfOk result (IsMadeFor code.now) }
{
    let routines = code.routines().len();
    let room = room(code.most_operands(), routines);
    let Ok(numbers) = zeros(alloc, code.cells() as usize) else {
        return Err(Memory)
    };
    let Ok(stack) = zeros(alloc, room) else {
        return Err(Memory)
    };
    let Ok(frames) = no_calls(alloc, routines) else {
        return Err(Memory)
    };
    Ok(Cells {
        numbers,
        stack,
        frames,
        turns: 0,
    })
}
