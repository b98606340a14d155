//! Cells that make their bursts, claimed by a crew.

ghost use Rattle.std.specs.Prelude.{◌≡◌, ◌+◌, ◌≤◌, ◌<◌, ◌^◌, None, vec_len, IfOk, OnOk, IfErr};
ghost use Rattle.std.specs.List.{All};
ghost use Rattle.claimed_bursts.specs.Crews.{HaveArrived};
ghost use Rattle.claimed_bursts.specs.Tasks.{EachMakesBurst};

use crate::crew::Crew;
use crate::task::BurstTask;
use crate::working::work_all;
use claim_board::NoBoard;
use net_model::Firing;
use rvc_io::Gate;
use std::alloc::Global;
use std::thread::Threads;

/// Lets the cells of all tasks make their bursts, each once, as [`work_all`] works pieces.
///
/// # Errors
///
/// `NoBoard` if memory runs out. Then nobody started, and it holds the tasks as they were (`no_board`).
pub fn burst_tasks<'a, R: Threads + Sync, A: Firing + Send, G: Gate>(
    rt: &R,
    gate: &G,
    alloc: Global,
    crew: Crew,
    threads: u32,
    tasks: Vec<BurstTask<'a, A>>,
) -> Result<Vec<BurstTask<'a, A>>, NoBoard<BurstTask<'a, A>>>
    requires some { 1 ≤ crew.count }
    requires numbers { crew.first + crew.count < 2 ^ 32 }
    requires unmade { All (λ t. t.end ≡ None) tasks.items }
    requires few { vec_len tasks < 2 ^ 32 }
    ensures bursts { IfOk result (λ done. EachMakesBurst A.cell tasks.entry.items
        done.items) }
    ensures arrived { OnOk result (HaveArrived (G.arrived gate.now) crew) }
    ensures no_board { IfErr result (λ e. e.pieces.items ≡ tasks.entry.items) }
{
    work_all(rt, gate, alloc, crew, threads, tasks)
}
