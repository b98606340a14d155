//! The firings of a round, and what closes it.

ghost use Rattle.std.specs.Prelude.{◌≡◌, ◌≤◌, ◌<◌, ◌+◌, ◌==◌, None, false, true, length, map};
ghost use Rattle.net_state.specs.Held.{seen};
ghost use Rattle.net_state.specs.Moving.{SameActors};
ghost use Rattle.net_state.specs.Surveyed.{AreUntrapped};
ghost use Rattle.net_state.specs.Working.{IsAtRest};
ghost use Rattle.net_state.specs.Sharing.{AreFresh};
ghost use Rattle.network_runner.specs.Arriving.{WorkersArrive, stage_by};
ghost use Rattle.network_runner.specs.Closing.{GrowsBy};
ghost use Rattle.network_runner.specs.Rounding.{CanGrow, ClosedBy, CountsTo, IfGoing, IsNoFault, MakesRound, MayClose, is_trap};

use crate::closing::close_idle;
use crate::spending::end_spent;
use firing_effort::Effort;
use net_model::Firing;
use net_state::NetState;
use round_plan::Policy;
use round_runner::{Bursts, Crew, RoundEnd, RunEnd, Trapped, burst_each, choose, count_marks};
use rvc_io::Gate;
use std::thread::Threads;

/// By what the firings of a round are made.
#[derive(Clone, Copy, Debug, PartialEq, Eq)]
pub struct Turn {
    /// The number of the round, counted from 1.
    pub round: u64,
    /// Whether the round before fired nothing.
    pub idle: bool,
    /// How many firings are left of the budget.
    pub left: u64,
    /// How often an instance may fire: 1 to 65,536.
    pub burst: u32,
    /// The greatest capacity to which a link may grow at a stall; 0 if none may grow.
    pub grow: u32,
}

/// What a round made.
#[derive(Clone, Copy, Debug, PartialEq, Eq)]
pub struct RoundMade {
    pub answer: RoundEnd,
    /// How many firings there were, also if a trap ended the run.
    pub fired: u64,
}

/// A round once its delivery was made: nothing fires if the budget is spent or no instance is there, and else the
/// instances that the policy picks, on so many workers. `gate` is told of each of them that works, as it starts.
pub fn make_firings<R: Threads + Sync, A: Firing + Effort + Send, P: Policy, G: Gate>(
    rt: &R,
    gate: &G,
    workers: u32,
    net: &mut NetState<A>,
    policy: &mut P,
    marks: &mut [bool],
    turn: &Turn,
) -> RoundMade
    requires next { 0 < length marks.old → turn.now.round ≡ P.rounds policy.old + 1 }
    requires same_instances { 0 < P.rounds policy.old → length marks.old ≡ P.instances policy.old }
    requires bursts { 1 ≤ turn.now.burst }
    requires most { turn.now.burst ≤ 65536 }
    requires as_many { length marks.old ≡ length net.old.cells }
    requires few { length marks.old ≤ 1024 }
    requires fresh { AreFresh turn.now.burst (map A.cell net.old.cells) }
    requires rest { IsAtRest (seen A.cell net.old) }
    requires queues { CanGrow turn.now.grow (seen A.cell net.old) }
    ensures makes { MakesRound (P.kind policy.old) turn.now result.answer result.fired
        (seen A.cell net.old) (seen A.cell net.new) }
    ensures within { result.fired ≤ turn.now.left }
    ensures counted { CountsTo result.answer result.fired }
    ensures no_fault { IsNoFault result.answer }
    ensures not_idle_again { result.answer ≡ RoundEnd.Idle → turn.now.idle ≡ false }
    ensures grows { GrowsBy result.answer turn.now.grow net.old.capacities net.new.capacities }
    ensures untrapped { IfGoing result.answer (AreUntrapped (map A.cell net.new.cells)) }
    ensures arrive { WorkersArrive (G.arrived gate.now) (P.kind policy.old) workers
        (length marks.old) (stage_by turn.now) }

    // What stays.
    ensures kind { P.kind policy.new ≡ P.kind policy.old }
    ensures asked { IfGoing result.answer (P.rounds policy.new ≡ turn.now.round) }
    ensures instances { IfGoing result.answer (P.instances policy.new ≡ length marks.old) }
    ensures same_actors { SameActors (map A.cell net.old.cells) (map A.cell net.new.cells) }
    ensures links { net.new.links ≡ net.old.links }
    ensures still_as_many { length marks.new ≡ length marks.old }
{
    if turn.left == 0 {
        return RoundMade {
            answer: RoundEnd::End(end_spent(net, turn.grow)),
            fired: 0,
        };
    }
    if marks.is_empty() {
        return RoundMade {
            answer: close_idle(net, None, turn.grow),
            fired: 0,
        };
    }
    fire_round(rt, gate, workers, net, policy, marks, turn)
}

/// Lets the instances fire that the policy picks, on so many workers, and closes the round. Its delivery was made, and
/// some firings are left of the budget. `marks` says then which instances were picked. `gate` is told of each worker that
/// works, as it starts.
pub fn fire_round<R: Threads + Sync, A: Firing + Effort + Send, P: Policy, G: Gate>(
    rt: &R,
    gate: &G,
    workers: u32,
    net: &mut NetState<A>,
    policy: &mut P,
    marks: &mut [bool],
    turn: &Turn,
) -> RoundMade
    requires next { turn.now.round ≡ P.rounds policy.old + 1 }
    requires some { 0 < length marks.old }
    requires same_instances { 0 < P.rounds policy.old → length marks.old ≡ P.instances policy.old }
    requires bursts { 1 ≤ turn.now.burst }
    requires most { turn.now.burst ≤ 65536 }
    requires left { 0 < turn.now.left }
    requires as_many { length marks.old ≡ length net.old.cells }
    requires few { length marks.old ≤ 1024 }
    requires fresh { AreFresh turn.now.burst (map A.cell net.old.cells) }
    requires rest { IsAtRest (seen A.cell net.old) }
    requires queues { CanGrow turn.now.grow (seen A.cell net.old) }
    ensures makes { MakesRound (P.kind policy.old) turn.now result.answer result.fired
        (seen A.cell net.old) (seen A.cell net.new) }
    ensures within { result.fired ≤ turn.now.left }
    ensures counted { CountsTo result.answer result.fired }
    ensures no_fault { IsNoFault result.answer }
    ensures not_idle_again { result.answer ≡ RoundEnd.Idle → turn.now.idle ≡ false }
    ensures grows { GrowsBy result.answer turn.now.grow net.old.capacities net.new.capacities }
    ensures untrapped { is_trap result.answer ≡ false → AreUntrapped (map A.cell net.new.cells) }
    ensures arrive { WorkersArrive (G.arrived gate.now) (P.kind policy.old) workers
        (length marks.old) (stage_by turn.now) }

    // What stays.
    ensures kind { P.kind policy.new ≡ P.kind policy.old }
    ensures rounds { P.rounds policy.new ≡ turn.now.round }
    ensures instances { P.instances policy.new ≡ length marks.old }
    ensures same_actors { SameActors (map A.cell net.old.cells) (map A.cell net.new.cells) }
    ensures links { net.new.links ≡ net.old.links }
    ensures still_as_many { length marks.new ≡ length marks.old }
{
    choose(policy, turn.round, turn.idle, marks);
    let crew = Crew {
        round: turn.round,
        first: 0,
        count: workers,
    };
    let made = burst_each(rt, gate, crew, net, marks, turn.burst, turn.left);
    let all = count_marks(marks) as usize == marks.len();
    let answer = close(net, &made, all, turn.grow);
    RoundMade {
        answer,
        fired: made.fired,
    }
}

/// Closes a round by what came of its bursts. `all` says whether all instances were picked.
fn close<A: Firing>(net: &mut NetState<A>, made: &Bursts, all: bool, grow: u32) -> RoundEnd
    requires idle { made.now.trap ≡ None → made.now.fired ≡ 0 → all ≡ true
        → MayClose grow made.now.lacks (seen A.cell net.old) }
    ensures closed { ClosedBy made.now.trap made.now.fired made.now.lacks all grow result
        (seen A.cell net.old) (seen A.cell net.new) }
    ensures counted { CountsTo result made.now.fired }
    ensures no_fault { IsNoFault result }
    ensures not_all { result ≡ RoundEnd.Idle → all ≡ false }
    ensures grows { GrowsBy result grow net.old.capacities net.new.capacities }
    ensures no_trap { is_trap result ≡ false → made.now.trap ≡ None }
    ensures cells { net.new.cells ≡ net.old.cells }
    ensures links { net.new.links ≡ net.old.links }
{
    if let Some(Trapped { inst, action, trap }) = made.trap {
        return RoundEnd::End(RunEnd::Trapped { inst, action, trap });
    }
    if made.fired > 0 {
        return RoundEnd::Fired(made.fired);
    }
    if !all {
        return RoundEnd::Idle;
    }
    close_idle(net, made.lacks, grow)
}
