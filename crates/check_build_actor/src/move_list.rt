//! The moves of a schedule.

ghost use Rattle.std.specs.Prelude.{◌≡◌, IfOk, map};
ghost use Rattle.cal_model.specs.View.{move_view};
ghost use Rattle.check_member.specs.Parts.{move_of_step};

use cal_model::BoundMove;
use rvc_base::Memory;
use schedule_fsm::Step;
use std::alloc::Global;

/// The steps of a schedule as moves of its actor, in their order.
///
/// # Errors
///
/// `Memory` if memory runs out.
pub fn moves(alloc: Global, steps: &[Step]) -> Result<Vec<BoundMove>, Memory>
    ensures { IfOk result (λ moves. map move_view moves.items ≡ map move_of_step steps.now) }
{
    let mut moves = Vec::new(alloc);
    let mut rest = steps;
    'steps: while let Some((first, others)) = rest.split_first() {
        moves.push(BoundMove {
            from: first.from,
            action: first.action,
            to: first.to,
        })?;
        rest = others;
    }
    Ok(moves)
}
