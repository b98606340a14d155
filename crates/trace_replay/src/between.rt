//! A network between two lines of its trace.

ghost use Rattle.std.specs.Prelude.{◌≡◌, ◌+◌, ◌≤◌, true, false, IfOk, is_some, length, map};
ghost use Rattle.rvc_io.specs.Feeds.{ReadFails};
ghost use Rattle.net_model.specs.Limits.{max_links};
ghost use Rattle.trace_text.specs.declared.line.Line.TheVariants as line;
ghost use Rattle.trace_replay.specs.Between.{EndCounts, IfFails, IsReadyToGo, LineCounts, LineEnds, LineFails, LineGoes, OnEnds, OnFeedFails, OnGoes, is_still_end, IfFeedFails};
ghost use Rattle.trace_replay.specs.declared.came.Came.TheVariants as came;
ghost use Rattle.trace_replay.specs.declared.why.Why.TheVariants as why;
ghost use Rattle.trace_replay.specs.Feeding.{PullsInputs, IsFeedRead};
ghost use Rattle.net_state.specs.Held.{CanWork};
ghost use Rattle.trace_replay.specs.Opening.{IsOpenedOn};
ghost use Rattle.trace_replay.specs.Counting.{AreFewCounted};
ghost use Rattle.trace_replay.specs.Replaying.{HaveInputPorts};
ghost use Rattle.trace_replay.specs.Judging.{is_end};

use crate::came::Came;
use crate::counting::{catch_up, count_delivery, count_firing};
use crate::ending::ends_so;
use crate::growing::grow_fed;
use crate::growth::Growth;
use crate::holding::{TakenBack, deliver_held, nothing_taken};
use crate::trying::{fire, traps};
use crate::why::Why;
use net_model::{Counts, Firing, Link, Wiring};
use net_state::{Filled, NetState};
use network_runner::{copy_of, no_counts, nothing_came, readers_of};
use port_files::TokenFeed;
use rvc_base::{Memory, Trap};
use rvc_io::Feeds;
use std::alloc::Global;
use trace_text::Line;

/// A network whose trace is read, between two lines.
#[derive(Drop)]
pub(crate) struct Replay<A: Firing> {
    state: NetState<A>,
    links: Vec<Link>,
    /// For each link what reads its feed, if it has one.
    readers: Vec<Option<TokenFeed>>,
    /// What was taken back from links that begin outside, until the next delivery.
    taken: TakenBack,
    /// What came over each link at the last delivery.
    came: Vec<Filled>,
    /// The numbers of the lines so far. What was sent to outputs since the last delivery is still to be counted.
    numbers: Counts,
    /// How many cells there are.
    count: u32,
    /// The greatest capacity to which a link may grow; 0 if none may.
    grow: u32,
    /// For each link room to note how many tokens waited after the last delivery, while the growth of a link is judged.
    noted: Vec<u32>,
}

impl<A: Firing> Replay<A> {
    /// A network of these cells and this wiring, at the start of its trace. All memory is taken here.
    ///
    /// # Errors
    ///
    /// `Memory` if memory runs out.
    pub(crate) fn new(
        alloc: Global,
        cells: Vec<A>,
        wiring: Wiring,
        grow: u32,
    ) -> Result<Replay<A>, Memory>
        requires can_work { CanWork (map A.cell cells.items) wiring.links.items }
        requires inputs { HaveInputPorts wiring }
        ensures { IfOk result (IsOpenedOn A.cell cells.items wiring grow) }
    {
        let count = cells.len() as u32;
        let readers = readers_of(alloc, &wiring.links, &wiring.ins, &wiring.open_ins)?;
        let taken = nothing_taken(alloc, &wiring.links)?;
        let came = nothing_came(alloc, wiring.links.len())?;
        let numbers = no_counts(alloc, wiring.links.len(), wiring.outs.len())?;
        let noted = vec![in alloc; 0u32; wiring.links.len()]?;
        let links = copy_of(alloc, &wiring.links)?;
        let state = NetState::new(alloc, cells, wiring.links)?;
        Ok(Replay {
            state,
            links,
            readers,
            taken,
            came,
            numbers,
            count,
            grow,
            noted,
        })
    }

    /// The first line of its trace.
    pub(crate) fn first_line(&self) -> Line
        requires few { length self.now.links.items ≤ max_links }
        ensures { result ≡ line.Header self.now.count (length self.now.links.items) self.now.grow }
    {
        Line::Header {
            instances: self.count,
            links: self.links.len() as u32,
            grow: self.grow,
        }
    }

    /// The numbers of its lines.
    pub(crate) fn into_numbers(self) -> Counts
        ensures { result ≡ self.numbers }
    {
        let Replay {
            state: _,
            links: _,
            readers: _,
            taken: _,
            came: _,
            numbers,
            count: _,
            grow: _,
            noted: _,
        } = self;
        numbers
    }

    /// A line that says that an action fires.
    fn fire<F: Feeds>(&mut self, inst: u32, action: u16, feeds: &F) -> Came
        requires count { self.old.count ≡ length self.old.state.cells }
        requires ready { IsReadyToGo A.cell F.feeds self.old feeds.now }
        requires few { AreFewCounted self.old.numbers }
        ensures goes { LineGoes A.cell F.feeds result (line.Fire inst action) self.old feeds.now self.new
            feeds.now }
        ensures counts { LineCounts A.cell F.feeds result (line.Fire inst action) self.old feeds.now
            self.new }
        ensures firings { OnGoes result (self.new.numbers.firings ≤ self.old.numbers.firings + 1) }
        ensures rounds { OnGoes result (self.new.numbers.rounds ≤ self.old.numbers.rounds + 1) }
        ensures still_ready { OnGoes result (IsReadyToGo A.cell F.feeds self.new feeds.now) }
        ensures fails { LineFails A.cell F.feeds result (line.Fire inst action) self.old feeds.now }
        ensures no_end { OnEnds result ⊥ }
        ensures no_fault { OnFeedFails result ⊥ }
        ensures feed { IfFeedFails result (IsFeedRead self.old.links.items (map is_some self.old.readers.items)) }
        ensures noted { OnGoes result (length self.new.noted.items ≡ length self.old.noted.items) }
        ensures still_count { OnGoes result (self.new.count ≡ length self.new.state.cells) }
        ensures grow { self.new.grow ≡ self.old.grow }
        ensures links { self.new.links ≡ self.old.links }
        ensures still_read { OnGoes result (map is_some self.new.readers.items
            ≡ map is_some self.old.readers.items) }
    {
        match fire(&mut self.state, self.count, inst, action) {
            None => {
                count_firing(&mut self.numbers);
                Came::Goes
            }
            Some(why) => Came::Fails(why),
        }
    }

    /// A line that says that an action traps.
    fn trap<F: Feeds>(&mut self, inst: u32, action: u16, cause: Trap, feeds: &F) -> Came
        requires count { self.old.count ≡ length self.old.state.cells }
        requires ready { IsReadyToGo A.cell F.feeds self.old feeds.now }
        requires few { AreFewCounted self.old.numbers }
        ensures ends { LineEnds A.cell F.feeds result (line.Trap inst action cause) self.old feeds.now }
        ensures counts { EndCounts A.cell F.feeds result (line.Trap inst action cause) self.old feeds.now
            self.new }
        ensures fails { LineFails A.cell F.feeds result (line.Trap inst action cause) self.old feeds.now }
        ensures no_step { OnGoes result ⊥ }
        ensures no_fault { OnFeedFails result ⊥ }
        ensures feed { IfFeedFails result (IsFeedRead self.old.links.items (map is_some self.old.readers.items)) }
    {
        catch_up(&self.state, &self.links, &mut self.numbers);
        if traps(&mut self.state, self.count, inst, action, cause) {
            return Came::Ends;
        }
        Came::Fails(Why::Trap)
    }

    /// A delivery.
    fn deliver<F: Feeds>(&mut self, feeds: &mut F) -> Came
        requires ready { IsReadyToGo A.cell F.feeds self.old feeds.old }
        requires count { self.old.count ≡ length self.old.state.cells }
        requires few { AreFewCounted self.old.numbers }
        ensures goes { LineGoes A.cell F.feeds result line.Deliver self.old feeds.old self.new
            feeds.new }
        ensures counts { LineCounts A.cell F.feeds result line.Deliver self.old feeds.old self.new }
        ensures firings { OnGoes result (self.new.numbers.firings ≤ self.old.numbers.firings + 1) }
        ensures rounds { OnGoes result (self.new.numbers.rounds ≤ self.old.numbers.rounds + 1) }
        ensures still_ready { OnGoes result (IsReadyToGo A.cell F.feeds self.new feeds.new) }
        ensures no_end { OnEnds result ⊥ }
        ensures no_failure { IfFails result (λ _. ⊥) }
        ensures failed { OnFeedFails result (ReadFails F.feeds feeds.old feeds.new) }
        ensures feed { IfFeedFails result (IsFeedRead self.old.links.items (map is_some self.old.readers.items)) }
        ensures noted { OnGoes result (length self.new.noted.items ≡ length self.old.noted.items) }
        ensures still_count { OnGoes result (self.new.count ≡ length self.new.state.cells) }
        ensures grow { self.new.grow ≡ self.old.grow }
        ensures links { self.new.links ≡ self.old.links }
        ensures still_read { OnGoes result (map is_some self.new.readers.items
            ≡ map is_some self.old.readers.items) }
        ensures elsewhere { PullsInputs (F.feeds feeds.old) (F.feeds feeds.new) }
    {
        catch_up(&self.state, &self.links, &mut self.numbers);
        match deliver_held(
            &mut self.state,
            &self.links,
            &mut self.readers,
            &mut self.taken,
            feeds,
            &mut self.came,
        ) {
            Ok(()) => {
                count_delivery(&self.came, &mut self.numbers);
                Came::Goes
            }
            Err(fault) => Came::FeedFails(fault.feed),
        }
    }

    /// A line that says that a link grows.
    fn grow<F: Feeds>(&mut self, link: u32, capacity: u32, feeds: &mut F) -> Came
        requires ready { IsReadyToGo A.cell F.feeds self.old feeds.old }
        requires count { self.old.count ≡ length self.old.state.cells }
        requires noted { length self.old.noted.items ≡ length self.old.links.items }
        ensures goes { LineGoes A.cell F.feeds result (line.Grow link capacity) self.old feeds.old self.new
            feeds.new }
        ensures counts { LineCounts A.cell F.feeds result (line.Grow link capacity) self.old feeds.old
            self.new }
        ensures numbers { self.new.numbers ≡ self.old.numbers }
        ensures still_ready { OnGoes result (IsReadyToGo A.cell F.feeds self.new feeds.new) }
        ensures fails { LineFails A.cell F.feeds result (line.Grow link capacity) self.old feeds.old }
        ensures no_end { OnEnds result ⊥ }
        ensures failed { OnFeedFails result (ReadFails F.feeds feeds.old feeds.new) }
        ensures feed { IfFeedFails result (IsFeedRead self.old.links.items (map is_some self.old.readers.items)) }
        ensures noted { OnGoes result (length self.new.noted.items ≡ length self.old.noted.items) }
        ensures still_count { OnGoes result (self.new.count ≡ length self.new.state.cells) }
        ensures grow { self.new.grow ≡ self.old.grow }
        ensures links { self.new.links ≡ self.old.links }
        ensures still_read { OnGoes result (map is_some self.new.readers.items
            ≡ map is_some self.old.readers.items) }
        ensures elsewhere { PullsInputs (F.feeds feeds.old) (F.feeds feeds.new) }
    {
        match grow_fed(
            &mut self.state,
            &self.links,
            &mut self.readers,
            &mut self.taken,
            &mut self.came,
            &mut self.noted,
            self.grow,
            link,
            capacity,
            feeds,
        ) {
            Growth::Grown => Came::Goes,
            Growth::Untrue => Came::Fails(Why::End),
            Growth::Unread(feed) => Came::FeedFails(feed),
        }
    }

    /// An end line but that of a trap.
    fn end<F: Feeds>(&mut self, line: &Line, feeds: &mut F) -> Came
        requires ready { IsReadyToGo A.cell F.feeds self.old feeds.old }
        requires still { is_still_end line.now ≡ true }
        requires few { AreFewCounted self.old.numbers }
        ensures ends { LineEnds A.cell F.feeds result line.now self.old feeds.old }
        ensures counts { EndCounts A.cell F.feeds result line.now self.old feeds.old self.new }
        ensures fails { LineFails A.cell F.feeds result line.now self.old feeds.old }
        ensures no_step { OnGoes result ⊥ }
        ensures failed { OnFeedFails result (ReadFails F.feeds feeds.old feeds.new) }
        ensures feed { IfFeedFails result (IsFeedRead self.old.links.items (map is_some self.old.readers.items)) }
        ensures elsewhere { PullsInputs (F.feeds feeds.old) (F.feeds feeds.new) }
    {
        catch_up(&self.state, &self.links, &mut self.numbers);
        match ends_so(
            &mut self.state,
            &self.links,
            &mut self.readers,
            &mut self.taken,
            &mut self.came,
            self.grow,
            line,
            feeds,
        ) {
            Ok(so) => came_of_end(so),
            Err(feed) => Came::FeedFails(feed),
        }
    }

    /// What comes of a line.
    pub(crate) fn come<F: Feeds>(&mut self, line: &Line, feeds: &mut F) -> Came
        requires ready { IsReadyToGo A.cell F.feeds self.old feeds.old }
        requires count { self.old.count ≡ length self.old.state.cells }
        requires few { AreFewCounted self.old.numbers }
        requires noted { length self.old.noted.items ≡ length self.old.links.items }
        ensures goes { LineGoes A.cell F.feeds result line.now self.old feeds.old self.new
            feeds.new }
        ensures counts { LineCounts A.cell F.feeds result line.now self.old feeds.old self.new }
        ensures counts_all { EndCounts A.cell F.feeds result line.now self.old feeds.old self.new }
        ensures firings { OnGoes result (self.new.numbers.firings ≤ self.old.numbers.firings + 1) }
        ensures rounds { OnGoes result (self.new.numbers.rounds ≤ self.old.numbers.rounds + 1) }
        ensures still_ready { OnGoes result (IsReadyToGo A.cell F.feeds self.new feeds.new) }
        ensures ends { LineEnds A.cell F.feeds result line.now self.old feeds.old }
        ensures fails { LineFails A.cell F.feeds result line.now self.old feeds.old }
        ensures goes_on { OnGoes result (is_end line.now ≡ false) }
        ensures is_end { OnEnds result (is_end line.now ≡ true) }
        ensures noted { OnGoes result (length self.new.noted.items ≡ length self.old.noted.items) }
        ensures failed { OnFeedFails result (ReadFails F.feeds feeds.old feeds.new) }
        ensures feed { IfFeedFails result (IsFeedRead self.old.links.items (map is_some self.old.readers.items)) }
        ensures still_count { OnGoes result (self.new.count ≡ length self.new.state.cells) }
        ensures grow { OnGoes result (self.new.grow ≡ self.old.grow) }
        ensures links { OnGoes result (self.new.links ≡ self.old.links) }
        ensures still_read { OnGoes result (map is_some self.new.readers.items
            ≡ map is_some self.old.readers.items) }
        ensures elsewhere { PullsInputs (F.feeds feeds.old) (F.feeds feeds.new) }
    {
        match *line {
            Line::Fire { inst, action } => self.fire(inst, action, feeds),
            Line::Deliver => self.deliver(feeds),
            Line::Grow { link, capacity } => self.grow(link, capacity, feeds),
            Line::Trap { inst, action, trap } => self.trap(inst, action, trap, feeds),
            Line::Quiet => self.end(line, feeds),
            Line::Stall {
                inst: _,
                action: _,
                link: _,
            } => self.end(line, feeds),
            Line::Budget => self.end(line, feeds),
            Line::Header {
                instances: _,
                links: _,
                grow: _,
            } => Came::Fails(Why::Header),
            Line::Inst { inst: _ } => Came::Fails(Why::Header),
        }
    }
}

/// What comes of an end line, by whether it is true.
fn came_of_end(so: bool) -> Came
    ensures ends { so ≡ true → result ≡ came.Ends }
    ensures fails { so ≡ false → result ≡ came.Fails why.End }
{
    if so {
        return Came::Ends;
    }
    Came::Fails(Why::End)
}
