//! Tokens of input links that were taken back while the growth of a link was judged, until they arrive.
//!
//! To judge a growth, what is left of the feeds counts as arrived, so links are filled for it ([`deliver_held`]). What came
//! so is taken back again ([`take_back_all`]), since the run goes on without it: it arrives at the next delivery. Until
//! then it lies on a stack for each input link, in the reader's type, the token that comes next on top.

ghost use Rattle.std.specs.Prelude.{◌≡◌, ◌≤◌, ◌+◌, true, false, [], IfErr, IfOk, OnErr, OnOk, Some, is_some, length, map, slice_get, slice_index_or};
ghost use Rattle.rvc_io.specs.Feeds.{ReadFails};
ghost use Rattle.net_model.specs.Limits.{max_links};
ghost use Rattle.net_model.specs.Network.{is_input as begins_outside};
ghost use Rattle.net_state.specs.Filling.{IsInputLink};
ghost use Rattle.net_state.specs.Held.{HoldFew, seen};
ghost use Rattle.net_state.specs.Moving.{SameActors, SameMarks};
ghost use Rattle.net_state.specs.TakingBack.{waits_on};
ghost use Rattle.network_runner.specs.Filling.{IsFeedOf, ReadersFit, SameOpen};
ghost use Rattle.trace_replay.specs.Holding.{AreEmpty, AreFresh, CountsOnePut, CountsPut, DeliversHeld, FitStacks, FitTaken, HaveRooms, PutsEach, PutsOne, TakesEach, TakesOne, came_counts, counts_of, rooms_of, stacked, tokens_of_stacks};

use crate::ending::is_input;
use net_model::{Firing, Link};
use net_state::{Filled, NetState};
use network_runner::{ReadFault, deliver_all};
use port_files::TokenFeed;
use rvc_base::{LinkId, Memory};
use rvc_io::Feeds;
use std::alloc::Global;
use token_ring::Ring;

/// Tokens that were taken back, until they arrive.
#[derive(Drop)]
pub(crate) struct TakenBack {
    /// For each link a stack of them, the one that comes next on top.
    pub(crate) stacks: Vec<Ring>,
    /// For each link room to note how many were put back.
    pub(crate) put: Vec<u32>,
    /// Whether a stack may have any.
    pub(crate) any: bool,
}

/// Empty stacks, one for each link: for as many tokens as an input link can hold, which never grows.
///
/// # Errors
///
/// `Memory` if memory runs out.
pub(crate) fn nothing_taken(alloc: Global, links: &[Link]) -> Result<TakenBack, Memory>
    ensures fresh { IfOk result (AreFresh links.now) }
    ensures none { IfOk result (λ taken. taken.any ≡ false) }
{
    let stacks = empty_stacks(alloc, links)?;
    let put = vec![in alloc; 0u32; links.len()]?;
    Ok(TakenBack {
        stacks,
        put,
        any: false,
    })
}

/// An empty stack for each link.
fn empty_stacks(alloc: Global, links: &[Link]) -> Result<Vec<Ring>, Memory>
    ensures count { IfOk result (λ stacks. length stacks.items ≡ length links.now) }
    ensures empty { IfOk result (λ stacks. AreEmpty (tokens_of_stacks stacks.items)) }
    ensures rooms { IfOk result (λ stacks. HaveRooms links.now (rooms_of stacks.items)) }
{
    let mut stacks = Vec::with_capacity(alloc, links.len())?;
    for l in 0..links.len() {
        let stack = stack_for(alloc, &links[l])?;
        stacks.push(stack)?;
    }
    Ok(stacks)
}

/// An empty stack for what a link can hold, if it begins outside.
fn stack_for(alloc: Global, link: &Link) -> Result<Ring, Memory>
    ensures empty { IfOk result (λ stack. stack.tokens ≡ []) }
    ensures holds { IfOk result (λ stack. begins_outside link.now ≡ true → link.now.capacity ≤ stack.capacity) }
{
    if is_input(link) && link.capacity > 0 {
        return Ring::new(alloc, link.capacity);
    }
    Ring::new(alloc, 1)
}

/// Puts back on a link all that its stack has, and says how many tokens that were.
fn put_back_one<A: Firing>(state: &mut NetState<A>, link: LinkId, stack: &mut Ring) -> u32
    requires input { 1 ≤ length stack.old.tokens → IsInputLink (slice_get state.old.links link.0) }
    requires room { 1 ≤ length stack.old.tokens
        → waits_on (seen A.cell state.old) link.0 + length stack.old.tokens
        ≤ slice_index_or state.old.capacities link.0 0 }
    ensures puts { PutsOne link.0 stack.old.tokens (seen A.cell state.old) (seen A.cell state.new) }
    ensures count { result ≡ length stack.old.tokens }
    ensures emptied { stack.new.tokens ≡ [] }
    ensures as_much { stack.new.capacity ≡ stack.old.capacity }
{
    let count = stack.len();
    if count == 0 {
        return 0;
    }
    state.put_back_all(link, stack);
    count
}

/// Puts back all that the stacks have. `put` says for each link how many tokens that were.
fn put_back_each<A: Firing>(state: &mut NetState<A>, stacks: &mut [Ring], put: &mut [u32])
    requires fit { FitStacks (seen A.cell state.old) stacks.old }
    requires few { length stacks.old ≤ max_links }
    requires as_many { length put.old ≡ length stacks.old }
    ensures puts { PutsEach stacks.old (seen A.cell state.old) (seen A.cell state.new) }
    ensures emptied { AreEmpty (tokens_of_stacks stacks.new) }
    ensures as_much { rooms_of stacks.new ≡ rooms_of stacks.old }
    ensures put { put.new ≡ counts_of stacks.old }
{
    for l in 0..stacks.len() {
        put[l] = put_back_one(state, LinkId(l as u32), &mut stacks[l]);
    }
}

/// Puts back all that was taken back, and notes for each link how many tokens that were.
fn put_back<A: Firing>(state: &mut NetState<A>, taken: &mut TakenBack)
    requires fit { FitTaken (seen A.cell state.old) taken.old }
    requires few { length state.old.links ≤ max_links }
    ensures puts { PutsEach taken.old.stacks.items (seen A.cell state.old) (seen A.cell state.new) }
    ensures put { taken.new.put.items ≡ counts_of taken.old.stacks.items }
    ensures emptied { AreEmpty (stacked taken.new) }
    ensures still_fit { FitTaken (seen A.cell state.new) taken.new }
{
    put_back_each(state, &mut taken.stacks, &mut taken.put);
    taken.any = false;
}

/// What came over a link, with what was put back there.
fn with_put(filled: Filled, put: u32) -> Filled
    ensures { CountsOnePut put filled result }
{
    Filled {
        tokens: filled.tokens.saturating_add(put),
        rest: filled.rest,
    }
}

/// Counts what was put back with what came.
fn count_put(came: &mut [Filled], put: &[u32])
    requires as_many { length put.now ≡ length came.old }
    ensures { CountsPut put.now came.old came.new }
{
    for l in 0..put.len() {
        came[l] = with_put(came[l], put[l]);
    }
}

/// Makes a delivery, over which what was taken back comes first. `came` counts that too.
///
/// # Errors
///
/// `ReadFault` if a feed couldn't be read.
pub(crate) fn deliver_held<A: Firing, F: Feeds>(
    state: &mut NetState<A>,
    links: &[Link],
    readers: &mut [Option<TokenFeed>],
    taken: &mut TakenBack,
    feeds: &mut F,
    came: &mut [Filled],
) -> Result<(), ReadFault>
    requires links { state.old.links ≡ links.now }
    requires few { length links.now ≤ max_links }
    requires few_held { HoldFew state.old.capacities }
    requires readers { ReadersFit links.now readers.old (F.feeds feeds.old) }
    requires taken { FitTaken (seen A.cell state.old) taken.old }
    requires as_many { length came.old ≡ length links.now }
    ensures delivers { OnOk result (DeliversHeld (seen A.cell state.old) (seen A.cell state.new)
        (stacked taken.old) readers.old readers.new (F.feeds feeds.old) (F.feeds feeds.new)
        came.new) }
    ensures emptied { AreEmpty (stacked taken.new) }
    ensures failed { OnErr result (ReadFails F.feeds feeds.old feeds.new) }
    ensures feed { IfErr result (λ fault. IsFeedOf links.now readers.new fault.feed) }

    // What stays.
    ensures still_fit { ReadersFit links.now readers.new (F.feeds feeds.new) }
    ensures still_taken { FitTaken (seen A.cell state.new) taken.new }
    ensures still_there { map is_some readers.new ≡ map is_some readers.old }
    ensures still_as_many { length came.new ≡ length came.old }
    ensures same_open { SameOpen (F.feeds feeds.old) (F.feeds feeds.new) }
    ensures same_actors { SameActors (map A.cell state.old.cells) (map A.cell state.new.cells) }
    ensures same_marks { SameMarks (map A.cell state.old.cells) (map A.cell state.new.cells) }
    ensures links { state.new.links ≡ state.old.links }
    ensures capacities { state.new.capacities ≡ state.old.capacities }
{
    if !taken.any {
        return deliver_all(state, links, readers, feeds, came);
    }
    put_back(state, taken);
    match deliver_all(state, links, readers, feeds, came) {
        Ok(()) => {}
        Err(fault) => return Err(fault),
    }
    count_put(came, &taken.put);
    Ok(())
}

/// Takes back the tokens that came last over a link that begins outside, so many, onto its stack. In each state that stands
/// no more came than waits there.
fn take_back_one<A: Firing>(
    state: &mut NetState<A>,
    id: LinkId,
    link: &Link,
    tokens: u32,
    stack: &mut Ring,
)
    requires there { slice_get state.old.links id.0 ≡ Some link.now }
    requires empty { stack.old.tokens ≡ [] }
    requires holds { begins_outside link.now ≡ true
        → slice_index_or state.old.capacities id.0 0 ≤ stack.old.capacity }
    ensures takes { TakesOne id.0 tokens link.now (seen A.cell state.old) (seen A.cell state.new)
        stack.new.tokens }
    ensures room { 1 ≤ length stack.new.tokens
        → waits_on (seen A.cell state.new) id.0 + length stack.new.tokens
        ≤ slice_index_or state.new.capacities id.0 0 }
    ensures outside { begins_outside link.now ≡ false → stack.new.tokens ≡ [] }
    ensures as_much { stack.new.capacity ≡ stack.old.capacity }
{
    if !is_input(link) {
        return;
    }
    let count = tokens.min(state.waiting(id));
    state.take_back_all(id, count, stack);
}

/// Takes back what came over each input link, onto its stack, which is empty.
fn take_back_each<A: Firing>(
    state: &mut NetState<A>,
    links: &[Link],
    came: &[Filled],
    stacks: &mut [Ring],
)
    requires links { state.old.links ≡ links.now }
    requires few { length links.now ≤ max_links }
    requires fit { FitStacks (seen A.cell state.old) stacks.old }
    requires empty { AreEmpty (tokens_of_stacks stacks.old) }
    requires as_many { length came.now ≡ length links.now }
    ensures takes { TakesEach (came_counts came.now) (seen A.cell state.old)
        (seen A.cell state.new) stacks.new }
    ensures still_fit { FitStacks (seen A.cell state.new) stacks.new }
{
    let mut l = links.len();
    'links: while l > 0 {
        l -= 1;
        take_back_one(
            state,
            LinkId(l as u32),
            &links[l],
            came[l].tokens,
            &mut stacks[l],
        );
    }
}

/// Takes back what came over each input link. Nothing was taken back before.
pub(crate) fn take_back_all<A: Firing>(
    state: &mut NetState<A>,
    links: &[Link],
    came: &[Filled],
    taken: &mut TakenBack,
)
    requires links { state.old.links ≡ links.now }
    requires few { length links.now ≤ max_links }
    requires fit { FitTaken (seen A.cell state.old) taken.old }
    requires empty { AreEmpty (stacked taken.old) }
    requires as_many { length came.now ≡ length links.now }
    ensures takes { TakesEach (came_counts came.now) (seen A.cell state.old)
        (seen A.cell state.new) taken.new.stacks.items }
    ensures still_fit { FitTaken (seen A.cell state.new) taken.new }
{
    take_back_each(state, links, came, &mut taken.stacks);
    taken.any = true;
}
