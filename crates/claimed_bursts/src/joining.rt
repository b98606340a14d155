//! The workers of a crew, in halves that join.

ghost use Rattle.std.specs.Prelude.{◌≡◌, ◌+◌, ◌≤◌, ◌<◌, ◌^◌, length};
ghost use Rattle.std.specs.List.{All};
ghost use Rattle.std.specs.Thread.{IsSend, IsSync};
ghost use Rattle.claimed_bursts.specs.Crews.{HaveArrived};

use crate::crew::Crew;
use crate::source::Source;
use rvc_io::Gate;
use std::thread::{Threads, join_mut};

/// Lets a crew work until nothing is left. Each worker has its right to draw.
///
/// The workers are cut in halves, and one half goes to a thread of its own, if one can be had.
#[cycle(crews)]
pub(crate) fn work_part<R: Threads + Sync, Q: Send, S: Source<Q> + Sync, G: Gate>(
    rt: &R,
    gate: &G,
    crew: Crew,
    threads: u32,
    source: &S,
    rights: &mut [Q],
)
    requires numbers { crew.first + crew.count < 2 ^ 32 }
    requires each { length rights.old ≡ crew.count }
    requires may_draw { All (S.may_draw source.now) rights.old }
    ensures ended { All (S.has_ended source.now) rights.new }
    ensures arrived { HaveArrived (G.arrived gate.now) crew }
{
    if threads < 2 || crew.count < 2 {
        work_in_turn(gate, crew, source, rights);
        return;
    }
    work_halves(rt, gate, crew, threads, source, rights);
}

/// The same for two workers or more, by two threads or more.
#[cycle(crews)]
fn work_halves<R: Threads + Sync, Q: Send, S: Source<Q> + Sync, G: Gate>(
    rt: &R,
    gate: &G,
    crew: Crew,
    threads: u32,
    source: &S,
    rights: &mut [Q],
)
    requires some { 2 ≤ crew.count }
    requires numbers { crew.first + crew.count < 2 ^ 32 }
    requires each { length rights.old ≡ crew.count }
    requires may_draw { All (S.may_draw source.now) rights.old }
    ensures ended { All (S.has_ended source.now) rights.new }
    ensures arrived { HaveArrived (G.arrived gate.now) crew }
{
    let (low_crew, high_crew) = crew.halves();
    let low_threads = threads / 2;
    let high_threads = threads - low_threads;
    let (low, high) = rights.split_at_mut(low_crew.count as usize);
    work_both(
        rt,
        gate,
        source,
        low_crew,
        low_threads,
        low,
        high_crew,
        high_threads,
        high,
    );
}

/// Lets two crews work at once.
#[cycle(crews)]
fn work_both<R: Threads + Sync, Q: Send, S: Source<Q> + Sync, G: Gate>(
    rt: &R,
    gate: &G,
    source: &S,
    low_crew: Crew,
    low_threads: u32,
    low: &mut [Q],
    high_crew: Crew,
    high_threads: u32,
    high: &mut [Q],
)
    requires some { (1 ≤ low_crew.count) × (1 ≤ high_crew.count) }
    requires low_numbers { low_crew.first + low_crew.count < 2 ^ 32 }
    requires high_numbers { high_crew.first + high_crew.count < 2 ^ 32 }
    requires low_each { length low.old ≡ low_crew.count }
    requires high_each { length high.old ≡ high_crew.count }
    requires low_may { All (S.may_draw source.now) low.old }
    requires high_may { All (S.may_draw source.now) high.old }
    ensures low_ended { All (S.has_ended source.now) low.new }
    ensures high_ended { All (S.has_ended source.now) high.new }
    ensures low_arrived { HaveArrived (G.arrived gate.now) low_crew }
    ensures high_arrived { HaveArrived (G.arrived gate.now) high_crew }
{
    join_mut(
        rt,
        &mut ||
            requires { IsSync R.row × IsSync G.row × IsSync S.row × IsSend Q.row
                × (high_crew.first + high_crew.count < 2 ^ 32)
                × (length high.now ≡ high_crew.count)
                × All (S.may_draw source.now) high.now }
            ensures { All (S.has_ended source.entry.now) high.exit.now
                × HaveArrived (G.arrived gate.entry.now) high_crew }
        { work_part(rt, gate, high_crew, high_threads, source, high) },
        &mut ||
            requires { IsSync R.row × IsSync G.row × IsSync S.row × IsSend Q.row
                × (low_crew.first + low_crew.count < 2 ^ 32)
                × (length low.now ≡ low_crew.count)
                × All (S.may_draw source.now) low.now }
            ensures { All (S.has_ended source.entry.now) low.exit.now
                × HaveArrived (G.arrived gate.entry.now) low_crew }
        { work_part(rt, gate, low_crew, low_threads, source, low) },
    );
}

/// Lets the workers of a crew work one after another.
fn work_in_turn<Q, S: Source<Q>, G: Gate>(gate: &G, crew: Crew, source: &S, rights: &mut [Q])
    requires numbers { crew.first + crew.count < 2 ^ 32 }
    requires each { length rights.old ≡ crew.count }
    requires may_draw { All (S.may_draw source.now) rights.old }
    ensures ended { All (S.has_ended source.now) rights.new }
    ensures arrived { HaveArrived (G.arrived gate.now) crew }
{
    for k in 0..crew.count {
        gate.arrive(crew.round, crew.first + k);
        source.draw_all(&mut rights[k as usize]);
    }
}
