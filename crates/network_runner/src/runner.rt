//! Runs of a network: rounds, from its cells as they are given to an end.

ghost use Rattle.std.specs.Prelude.{◌≡◌, ◌⊎◌, ◌+◌, ◌≤◌, ℕ, true, IfErr, IfNone, IfOk, None, OnErr, OnOk, Some, map};
ghost use Rattle.rvc_io.specs.Channels.{Appends, WriteFails, WritesOnly};
ghost use Rattle.channel_writer.specs.Held.{AppendsFront};
ghost use Rattle.round_runner.specs.declared.TheConstants.{TRACE_CHANNEL};
ghost use Rattle.rvc_io.specs.Feeds.{ReadFails};
ghost use Rattle.net_state.specs.Held.{seen};
ghost use Rattle.net_state.specs.Working.{IsAtRest};
ghost use Rattle.round_runner.specs.declared.outcome.RunEnd.{RunEnd as HowEnded};
ghost use Rattle.round_runner.specs.Running.{FeedsFit};
ghost use Rattle.network_runner.specs.Arriving.{ArriveBy, RoundArrives, RunArrives};
ghost use Rattle.network_runner.specs.Asking.{Advances, Begins, CanRun, ChannelsFit, EndLeaves, FaultIsTrue, FiringsTo, IsChannel, IsFeed, IsSameRun, IsUntouched, RoundLeaves, WritesWithin, end_of, seen_run};
ghost use Rattle.network_runner.specs.Filling.{SameOpen};
ghost use Rattle.network_runner.specs.Noting.{NotesFront, NotesRound};
ghost use Rattle.network_runner.specs.Rounding.{IsNoFault};
ghost use Rattle.network_runner.specs.Stepping.{DeliversRun, FiresRun, IsOutChannel, KeepsOthers, PutsAll, PutsBy, PutsFronts, RoundLeavesSoFar, SameButEnd, SendsFront, SendsOut, StopsRun, WritesFront, WritesRound, with_buffers};

use crate::counting::{count_arrived, count_sent};
use crate::delivering::deliver_all;
use crate::feeding::ReadFault;
use crate::firing::{Turn, make_firings};
use crate::making::{
    copy_of, no_counts, no_marks, nothing_came, outlets_of, readers_of, writers_of,
};
use crate::noting::note_round;
use crate::putting::flush_all;
use crate::sending::{Outlet, WriteFault, send_all};
use channel_writer::ChannelWriter;
use firing_effort::Effort;
use net_model::{Counts, Firing, Link, Port, Wiring};
use net_state::{Filled, NetState};
use port_files::TokenFeed;
use round_plan::Policy;
use round_runner::{Plan, RoundEnd, RunEnd, TRACE_CHANNEL};
use rvc_base::{MAX_BUDGET, Memory};
use rvc_io::{Drains, Failed, Feeds, Gate};
use std::alloc::Global;
use std::marker::Model;
use std::thread::Threads;

/// A network that is ready to run, with all the memory that its run takes.
///
/// Contracts see it as a `Running`: the network at work, what reads its feeds, by what its rounds are made, what is
/// buffered for each channel, the numbers of the run, and its end once it has come.
#[derive(Drop)]
pub struct Runner<A: Firing, P: Policy> {
    net: NetState<A>,
    cells: u32,
    links: Vec<Link>,
    ins: Vec<Port>,
    open_ins: Vec<bool>,
    outlets: Vec<Outlet>,
    readers: Vec<Option<TokenFeed>>,
    came: Vec<Filled>,
    writers: Vec<ChannelWriter>,
    trace: ChannelWriter,
    policy: P,
    marks: Vec<bool>,
    plan: Plan,
    idle: bool,
    counts: Counts,
    ended: Option<RunEnd>,
}

impl<A: Firing, P: Policy> Model for Runner<A, P> {
    ghost use Rattle.std.specs.Prelude.{◌≡◌, None, length};
    ghost use Rattle.round_runner.specs.Running.{Running};
    ghost use Rattle.network_runner.specs.Asking.{seen_run};
    ghost use Rattle.network_runner.specs.Keeping.{GoesOn, HasParts, running_of};

    ghost Value = { Running A };

    ghost view = { λ r. running_of r.net r.ins.items r.open_ins.items r.outlets.items r.readers.items
        (P.kind r.policy) r.plan r.idle r.trace r.writers.items r.counts r.ended };

    ghost invariant = { λ r. HasParts (running_of r.net r.ins.items r.open_ins.items r.outlets.items r.readers.items
        (P.kind r.policy) r.plan r.idle r.trace r.writers.items r.counts r.ended)
        r.links.items r.outlets.items (length r.came.items) (length r.writers.items) r.cells
        × (r.ended ≡ None → GoesOn (seen_run A.cell
        (running_of r.net r.ins.items r.open_ins.items r.outlets.items r.readers.items
        (P.kind r.policy) r.plan r.idle r.trace r.writers.items r.counts r.ended))
        (length r.marks.items) (P.rounds r.policy) (P.instances r.policy)) };
}

impl<A: Firing + Send, P: Policy> Runner<A, P> {
    /// A runner of these cells, joined so, whose rounds are made by this plan and this policy. The run starts from the
    /// cells as they are given. All its memory is taken here.
    ///
    /// The cells and their wiring make a network that is ready to be run, and the policy wasn't asked yet.
    ///
    /// # Errors
    ///
    /// `Memory` if memory runs out.
    pub fn new(
        alloc: Global,
        cells: Vec<A>,
        wiring: Wiring,
        plan: Plan,
        policy: P,
    ) -> Result<Runner<A, P>, Memory>
        requires can_run { CanRun (map A.cell cells.items) wiring plan }
        requires not_asked { P.rounds policy ≡ 0 }
        ensures begins { IfOk result (λ r. Begins (map A.cell cells.items) wiring plan (P.kind policy)
            (seen_run A.cell r)) }
    {
        let Wiring {
            links,
            ins,
            outs,
            open_ins,
            open_outs,
        } = wiring;
        let outlets = outlets_of(alloc, &outs, &open_outs)?;
        let readers = readers_of(alloc, &links, &ins, &open_ins)?;
        let writers = writers_of(alloc, outs.len())?;
        let trace = ChannelWriter::new(alloc)?;
        let counts = no_counts(alloc, links.len(), outs.len())?;
        let came = nothing_came(alloc, links.len())?;
        let marks = no_marks(alloc, cells.len())?;
        let copy = copy_of(alloc, &links)?;
        let count = cells.len() as u32;
        let net = NetState::new(alloc, cells, links)?;
        Ok(Runner {
            net,
            cells: count,
            links: copy,
            ins,
            open_ins,
            outlets,
            readers,
            came,
            writers,
            trace,
            policy,
            marks,
            plan,
            idle: false,
            counts,
            ended: None,
        })
    }

    /// The numbers of the run so far.
    pub fn counts(&self) -> &Counts
        ensures { result.now ≡ self.now.counts }
    {
        &self.counts
    }
}

impl<A: Firing + Effort + Send, P: Policy> Runner<A, P> {
    /// Makes one round, which an end may cut short, with at most `left` firings, and says what came of it. After an end
    /// each further call answers that end and touches nothing.
    ///
    /// The feeds and channels that the wiring needs are open, and are the same ones in each call. `rt` is for the threads
    /// of more workers than one: what a round leaves doesn't depend on how many there are. `gate` is told of each worker
    /// that works in the round as it starts (`arrive`): of as many as instances are picked, if each of these may fire once at
    /// least, and else of worker 0 alone.
    ///
    /// # Errors
    ///
    /// The run ends in `ReadFault` if a feed couldn't be read, and in `WriteFault` if a channel couldn't be written: the
    /// failure was counted (`faults`).
    pub fn round<R: Threads + Sync, F: Feeds, D: Drains, G: Gate>(
        &mut self,
        rt: &R,
        left: u64,
        feeds: &mut F,
        drains: &mut D,
        gate: &G,
    ) -> RoundEnd
        requires feeds { FeedsFit self.old (F.feeds feeds.old) }
        requires channels { ChannelsFit self.old (D.channels drains.old) }
        requires budget { self.old.counts.firings + left ≤ MAX_BUDGET }

        // What the round leaves, by its answer.
        ensures leaves { RoundLeaves A.cell F.feeds D.channels self.old self.new feeds.old feeds.new
            drains.old drains.new left result }
        ensures faults { self.old.ended ≡ None → FaultIsTrue A.cell F.feeds D.channels self.old
            self.new feeds.old feeds.new drains.old drains.new (end_of result) }
        ensures firings { self.old.ended ≡ None → FiringsTo result self.old.counts.firings
            self.new.counts.firings }
        ensures within { self.new.counts.firings ≤ self.old.counts.firings + left }
        ensures ended { self.old.ended ≡ None → self.new.ended ≡ end_of result }
        ensures advances { IfNone (end_of result) (Advances self.old self.new) }

        // Who works.
        ensures arrive { self.old.ended ≡ None
            → ArriveBy (G.arrived gate.now) result left self.old self.new }

        // After an end.
        ensures same_end { (how : HowEnded) → self.old.ended ≡ Some how → result ≡ RoundEnd.End how }
        ensures untouched { (how : HowEnded) → self.old.ended ≡ Some how → IsUntouched A.cell F.feeds
            D.channels self.old self.new feeds.old feeds.new drains.old drains.new }

        // What stays.
        ensures same_run { IsSameRun (seen_run A.cell self.old) (seen_run A.cell self.new) }
        ensures feeds_fit { FeedsFit self.new (F.feeds feeds.new) }
        ensures same_feeds { SameOpen (F.feeds feeds.old) (F.feeds feeds.new) }
        ensures others { WritesWithin self.old (D.channels drains.old) (D.channels drains.new) }
    {
        if let Some(end) = self.ended {
            return RoundEnd::End(end);
        }
        let answer = self.make_round(rt, left, feeds, drains, gate);
        self.finish(answer, drains)
    }

    /// Makes rounds until one ends the run, with at most `budget` firings, and says how it ended. After an end each
    /// further call answers that end and touches nothing.
    ///
    /// The feeds and channels that the wiring needs are open, and are the same ones in each call. `rt` is for the threads
    /// of more workers than one, as in a round. `gate` is told in each round of each worker that works as it starts
    /// (`arrive`).
    ///
    /// # Errors
    ///
    /// The run ends in `ReadFault` if a feed couldn't be read, and in `WriteFault` if a channel couldn't be written: the
    /// failure was counted (`faults`). After a `ReadFault` the lines of all rounds that were made are written: the delivery
    /// behind the last of them is the one that has to pull from this feed (`leaves`).
    pub fn run<R: Threads + Sync, F: Feeds, D: Drains, G: Gate>(
        &mut self,
        rt: &R,
        budget: u64,
        feeds: &mut F,
        drains: &mut D,
        gate: &G,
    ) -> RunEnd
        requires feeds { FeedsFit self.old (F.feeds feeds.old) }
        requires channels { ChannelsFit self.old (D.channels drains.old) }
        requires budget { self.old.counts.firings + budget ≤ MAX_BUDGET }

        // What the run leaves, by its end.
        ensures leaves { EndLeaves A.cell F.feeds D.channels self.old self.new feeds.old feeds.new
            drains.old drains.new budget result }
        ensures faults { self.old.ended ≡ None → FaultIsTrue A.cell F.feeds D.channels self.old
            self.new feeds.old feeds.new drains.old drains.new (Some result) }
        ensures within { self.new.counts.firings ≤ self.old.counts.firings + budget }
        ensures ended { self.new.ended ≡ Some result }

        // Who works.
        ensures arrive { self.old.ended ≡ None
            → RunArrives (G.arrived gate.now) self.old self.new budget }

        // After an end.
        ensures same_end { (how : HowEnded) → self.old.ended ≡ Some how → result ≡ how }
        ensures untouched { (how : HowEnded) → self.old.ended ≡ Some how → IsUntouched A.cell F.feeds
            D.channels self.old self.new feeds.old feeds.new drains.old drains.new }

        // What stays.
        ensures same_run { IsSameRun (seen_run A.cell self.old) (seen_run A.cell self.new) }
        ensures feeds_fit { FeedsFit self.new (F.feeds feeds.new) }
        ensures same_feeds { SameOpen (F.feeds feeds.old) (F.feeds feeds.new) }
        ensures others { WritesWithin self.old (D.channels drains.old) (D.channels drains.new) }
    {
        let mut left = budget;
        'rounds: loop {
            match self.round(rt, left, feeds, drains, gate) {
                RoundEnd::Fired(count) => left -= count,
                RoundEnd::Idle
                | RoundEnd::Grew {
                    link: _,
                    capacity: _,
                } => {}
                RoundEnd::End(end) => return end,
            }
        }
    }

    /// A round but for what is put of what is buffered: what came of it, or the fault that cut it short.
    fn make_round<R: Threads + Sync, F: Feeds, D: Drains, G: Gate>(
        &mut self,
        rt: &R,
        left: u64,
        feeds: &mut F,
        drains: &mut D,
        gate: &G,
    ) -> RoundEnd
        requires going { self.old.ended ≡ None }
        requires feeds { FeedsFit self.old (F.feeds feeds.old) }
        requires channels { ChannelsFit self.old (D.channels drains.old) }
        requires budget { self.old.counts.firings + left ≤ MAX_BUDGET }
        ensures leaves { RoundLeavesSoFar A.cell F.feeds D.channels self.old self.new feeds.old
            feeds.new drains.old drains.new left result }
        ensures faults { FaultIsTrue A.cell F.feeds D.channels self.old self.new feeds.old feeds.new
            drains.old drains.new (end_of result) }
        ensures firings { FiringsTo result self.old.counts.firings self.new.counts.firings }
        ensures within { self.new.counts.firings ≤ self.old.counts.firings + left }
        ensures ended { IfNone (end_of result) (self.new.ended ≡ None) }
        ensures advances { IfNone (end_of result) (Advances self.old self.new) }
        ensures arrive { ArriveBy (G.arrived gate.now) result left self.old self.new }
        ensures same_run { IsSameRun (seen_run A.cell self.old) (seen_run A.cell self.new) }
        ensures feeds_fit { FeedsFit self.new (F.feeds feeds.new) }
        ensures same_feeds { SameOpen (F.feeds feeds.old) (F.feeds feeds.new) }
        ensures others { WritesWithin self.old (D.channels drains.old) (D.channels drains.new) }
    {
        if let Err(ReadFault { feed }) = self.deliver(feeds) {
            return RoundEnd::End(RunEnd::ReadFault { feed });
        }
        let answer = self.fire(rt, left, gate);
        if let Err(WriteFault { channel }) = self.write(answer, drains) {
            return RoundEnd::End(RunEnd::WriteFault { channel });
        }
        answer
    }

    /// What a round sent to outputs goes out, and its lines are written.
    fn write<D: Drains>(&mut self, answer: RoundEnd, drains: &mut D) -> Result<(), WriteFault>
        requires channels { ChannelsFit self.old (D.channels drains.old) }
        ensures written { OnOk result (WritesRound answer (seen_run A.cell self.old)
            (seen_run A.cell self.new) (D.channels drains.old) (D.channels drains.new)) }
        ensures broken { OnErr result (WritesFront answer (seen_run A.cell self.old)
            (D.channels drains.old) (D.channels drains.new)) }
        ensures failed { OnErr result (WriteFails D.channels drains.old drains.new) }
        ensures channel { IfErr result (λ fault. IsChannel self.old fault.channel) }
        ensures others { WritesWithin self.old (D.channels drains.old) (D.channels drains.new) }
        ensures same { self.new ≡ with_buffers self.old self.new.trace self.new.buffers }
    {
        self.send(drains)?;
        let Ok(()) = self.note(answer, drains) else {
            return Err(WriteFault {
                channel: TRACE_CHANNEL,
            });
        };
        Ok(())
    }

    /// What was sent to outputs goes out.
    fn send<D: Drains>(&mut self, drains: &mut D) -> Result<(), WriteFault>
        requires channels { ChannelsFit self.old (D.channels drains.old) }
        ensures sends { OnOk result (SendsOut (seen_run A.cell self.old) (seen_run A.cell self.new)
            (D.channels drains.old) (D.channels drains.new)) }
        ensures fronts { OnErr result (SendsFront (seen_run A.cell self.old)
            (D.channels drains.old) (D.channels drains.new)) }
        ensures failed { OnErr result (WriteFails D.channels drains.old drains.new) }
        ensures channel { IfErr result (λ fault. IsOutChannel self.old fault.channel) }
        ensures only { (D.channels drains.old).tells ≡ true → (D.channels drains.new).held 1
            ≡ (D.channels drains.old).held 1 }
        ensures others { WritesWithin self.old (D.channels drains.old) (D.channels drains.new) }
        ensures same { self.new ≡ with_buffers self.old self.new.trace self.new.buffers }
        ensures same_trace { self.new.trace ≡ self.old.trace }
    {
        send_all(
            &self.net,
            &self.links,
            &self.outlets,
            &mut self.writers,
            drains,
        )
    }

    /// A delivery, which is counted.
    fn deliver<F: Feeds>(&mut self, feeds: &mut F) -> Result<(), ReadFault>
        requires going { self.old.ended ≡ None }
        requires feeds { FeedsFit self.old (F.feeds feeds.old) }
        ensures delivers { OnOk result (DeliversRun (seen_run A.cell self.old)
            (seen_run A.cell self.new) (F.feeds feeds.old) (F.feeds feeds.new)) }
        ensures failed { OnErr result (ReadFails F.feeds feeds.old feeds.new) }
        ensures feed { IfErr result (λ fault. IsFeed self.old fault.feed) }
        ensures stops { IfErr result (λ fault. StopsRun (seen_run A.cell self.old) fault.feed
            (F.feeds feeds.old) (F.feeds feeds.new)) }
        ensures not_counted { OnErr result (self.new.counts ≡ self.old.counts) }
        ensures same_capacities { self.new.held.capacities ≡ self.old.held.capacities }
        ensures same_firings { self.new.counts.firings ≡ self.old.counts.firings }
        ensures same_run { IsSameRun (seen_run A.cell self.old) (seen_run A.cell self.new) }
        ensures same_others { KeepsOthers self.old self.new }
        ensures feeds_fit { FeedsFit self.new (F.feeds feeds.new) }
        ensures same_feeds { SameOpen (F.feeds feeds.old) (F.feeds feeds.new) }
    {
        deliver_all(
            &mut self.net,
            &self.links,
            &mut self.readers,
            feeds,
            &mut self.came,
        )?;
        count_arrived(&self.came, &mut self.counts.arrived, &mut self.counts.rests);
        Ok(())
    }

    /// The firings of a round and what closes it, which are counted.
    fn fire<R: Threads + Sync, G: Gate>(&mut self, rt: &R, left: u64, gate: &G) -> RoundEnd
        requires going { self.old.ended ≡ None }
        requires rest { IsAtRest (seen A.cell self.old.held) }
        requires budget { self.old.counts.firings + left ≤ MAX_BUDGET }
        ensures fires { FiresRun left result (seen_run A.cell self.old) (seen_run A.cell self.new) }
        ensures ended { self.new.ended ≡ end_of result }
        ensures advances { IfNone (end_of result) (Advances self.old self.new) }
        ensures arrive { RoundArrives (G.arrived gate.now) self.old left }
        ensures no_fault { IsNoFault result }
        ensures same_run { IsSameRun (seen_run A.cell self.old) (seen_run A.cell self.new) }
        ensures same_trace { self.new.trace ≡ self.old.trace }
        ensures same_buffers { self.new.buffers ≡ self.old.buffers }
        ensures same_readings { self.new.readings ≡ self.old.readings }
    {
        self.counts.rounds += 1;
        let turn = Turn {
            round: self.counts.rounds,
            idle: self.idle,
            left,
            burst: self.plan.burst,
            grow: self.plan.grow,
        };
        let made = make_firings(
            rt,
            gate,
            self.plan.workers,
            &mut self.net,
            &mut self.policy,
            &mut self.marks,
            &turn,
        );
        self.idle = made.fired == 0;
        self.counts.firings += made.fired;
        count_sent(&self.net, &self.links, &mut self.counts.sent);
        self.ended = end_of(made.answer);
        made.answer
    }

    /// The lines of a round.
    fn note<D: Drains>(&mut self, answer: RoundEnd, drains: &mut D) -> Result<(), Failed>
        requires channels { ChannelsFit self.old (D.channels drains.old) }
        ensures written { NotesRound A.cell D.channels self.old.held.cells answer drains.old
            drains.new self.old.trace self.new.trace result }
        ensures front { NotesFront A.cell D.channels self.old.held.cells answer drains.old
            drains.new self.old.trace result }
        ensures failed { OnErr result (WriteFails D.channels drains.old drains.new) }
        ensures elsewhere { WritesOnly D.channels drains.old drains.new 1 }
        ensures same { self.new ≡ with_buffers self.old self.new.trace self.new.buffers }
        ensures same_outs { self.new.buffers ≡ self.old.buffers }
    {
        note_round(&self.net, self.cells, answer, &mut self.trace, drains)
    }

    /// Puts what is buffered if a round ended the run, unless a write failed.
    fn finish<D: Drains>(&mut self, answer: RoundEnd, drains: &mut D) -> RoundEnd
        requires going { IfNone (end_of answer) (self.old.ended ≡ None) }
        requires channels { ChannelsFit self.old (D.channels drains.old) }
        ensures puts { PutsBy answer result self.old (D.channels drains.old) (D.channels drains.new) }
        ensures fault { (channel : ℕ) → result ≡ RoundEnd.End (RunEnd.WriteFault channel)
            → (answer ≡ result) ⊎ (WriteFails D.channels drains.old drains.new
            × IsChannel self.old channel) }
        ensures others { WritesWithin self.old (D.channels drains.old) (D.channels drains.new) }
        ensures ended { self.new.ended ≡ end_of result }
        ensures same { SameButEnd self.old self.new }
        ensures going_on { IfNone (end_of answer) ((result ≡ answer) × (self.new ≡ self.old)
            × (drains.new ≡ drains.old)) }
    {
        let RoundEnd::End(end) = answer else {
            return answer;
        };
        let end = self.put_end(end, drains);
        self.ended = Some(end);
        RoundEnd::End(end)
    }

    /// Puts what is buffered, unless a write failed, and says how the run ended then.
    fn put_end<D: Drains>(&mut self, end: RunEnd, drains: &mut D) -> RunEnd
        requires channels { ChannelsFit self.old (D.channels drains.old) }
        ensures puts { PutsBy (RoundEnd.End end) (RoundEnd.End result) self.old
            (D.channels drains.old) (D.channels drains.new) }
        ensures fault { (channel : ℕ) → result ≡ RunEnd.WriteFault channel
            → (end ≡ result) ⊎ (WriteFails D.channels drains.old drains.new
            × IsChannel self.old channel) }
        ensures others { WritesWithin self.old (D.channels drains.old) (D.channels drains.new) }
        ensures same { self.new ≡ with_buffers self.old self.new.trace self.new.buffers }
    {
        if let RunEnd::WriteFault { channel: _ } = end {
            return end;
        }
        match self.put_rest(drains) {
            Ok(()) => end,
            Err(WriteFault { channel }) => RunEnd::WriteFault { channel },
        }
    }

    /// Puts what is buffered.
    fn put_rest<D: Drains>(&mut self, drains: &mut D) -> Result<(), WriteFault>
        requires channels { ChannelsFit self.old (D.channels drains.old) }
        ensures puts { OnOk result (PutsAll self.old (D.channels drains.old) (D.channels drains.new)) }
        ensures fronts { OnErr result (PutsFronts self.old (D.channels drains.old)
            (D.channels drains.new)) }
        ensures failed { OnErr result (WriteFails D.channels drains.old drains.new) }
        ensures channel { IfErr result (λ fault. IsChannel self.old fault.channel) }
        ensures others { WritesWithin self.old (D.channels drains.old) (D.channels drains.new) }
        ensures same { self.new ≡ with_buffers self.old self.new.trace self.new.buffers }
    {
        flush_all(&self.outlets, &mut self.writers, drains)?;
        put_trace(&mut self.trace, drains)
    }
}

/// The end that a round answers.
fn end_of(answer: RoundEnd) -> Option<RunEnd>
    ensures { result ≡ end_of answer }
{
    match answer {
        RoundEnd::End(end) => Some(end),
        RoundEnd::Fired(_)
        | RoundEnd::Idle
        | RoundEnd::Grew {
            link: _,
            capacity: _,
        } => None,
    }
}

/// Puts what is buffered for the trace.
fn put_trace<D: Drains>(trace: &mut ChannelWriter, drains: &mut D) -> Result<(), WriteFault>
    requires open { (D.channels drains.old).is_open TRACE_CHANNEL ≡ true }
    ensures all { OnOk result (Appends 1 (D.channels drains.old) (D.channels drains.new) trace.old) }
    ensures front { OnErr result (AppendsFront 1 (D.channels drains.old) (D.channels drains.new)
        trace.old) }
    ensures failed { OnErr result (WriteFails D.channels drains.old drains.new) }
    ensures channel { IfErr result (λ fault. fault.channel ≡ 1) }
    ensures elsewhere { WritesOnly D.channels drains.old drains.new 1 }
{
    match trace.flush(drains, TRACE_CHANNEL) {
        Ok(()) => Ok(()),
        Err(_) => Err(WriteFault {
            channel: TRACE_CHANNEL,
        }),
    }
}
