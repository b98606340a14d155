//! Lines that say that a link grows.

ghost use Rattle.std.specs.Prelude.{◌≡◌, ◌≤◌, true, false, Some, is_some, length, map, slice_get};
ghost use Rattle.rvc_io.specs.Feeds.{ReadFails};
ghost use Rattle.net_model.specs.Limits.{max_links};
ghost use Rattle.net_state.specs.Held.{HoldFew, seen};
ghost use Rattle.net_state.specs.Moving.{SameActors, SameMarks};
ghost use Rattle.net_state.specs.Surveyed.{AreUntrapped};
ghost use Rattle.net_state.specs.Working.{IsAtRest};
ghost use Rattle.network_runner.specs.Filling.{ReadersFit};
ghost use Rattle.trace_replay.specs.Ending.{CanGrow, GrewAt, GrewNotAt, GrowsNotSo, GrowsSo, HoldEnough, IsInner, SameOnInputs};
ghost use Rattle.trace_replay.specs.Feeding.{IsFeedRead, PullsInputs};
ghost use Rattle.trace_replay.specs.Holding.{FitTaken};
ghost use Rattle.trace_replay.specs.Growing.{GrowsOn, IfUnread, StillFitsOn};

use crate::ending::{is_input, is_settled, may_grow};
use crate::growth::Growth;
use crate::holding::{TakenBack, deliver_held, take_back_all};
use crate::states::StatesOf;
use net_model::{End, Firing, Link, stalled_in_one_place};
use net_state::{Filled, NetState, Outlook};
use port_files::TokenFeed;
use rvc_base::LinkId;
use rvc_io::Feeds;

/// Whether a link leads from a cell to a cell.
fn is_inner(link: &Link) -> bool
    ensures yes { result ≡ true → IsInner (Some link.now) }
    ensures no { result ≡ false → IsInner (Some link.now) → ⊥ }
{
    if is_input(link) {
        return false;
    }
    match link.to {
        End::Leaf { inst: _, port: _ } => true,
        End::Net { port: _ } => false,
    }
}

/// Whether a link is there, and leads from a cell to a cell.
fn is_inner_at(links: &[Link], link: LinkId) -> bool
    ensures yes { result ≡ true → IsInner (slice_get links.now link.0) }
    ensures no { result ≡ false → IsInner (slice_get links.now link.0) → ⊥ }
{
    let at = link.0 as usize;
    if at >= links.len() {
        return false;
    }
    is_inner(&links[at])
}

/// Lets a link grow, if it is inner, may grow and this is its capacity then.
fn grow_at<A: Firing>(
    state: &mut NetState<A>,
    links: &[Link],
    grow: u32,
    link: LinkId,
    capacity: u32,
) -> bool
    requires links { state.old.links ≡ links.now }
    requires queues { CanGrow grow (map A.cell state.old.cells) links.now }
    ensures yes { result ≡ true → GrewAt grow link.0 capacity (seen A.cell state.old) (seen A.cell state.new) }
    ensures no { result ≡ false → GrewNotAt grow link.0 capacity (seen A.cell state.old) }
    ensures enough { HoldEnough links.now state.old.capacities → HoldEnough links.now state.new.capacities }
    ensures inputs { SameOnInputs links.now state.old.capacities state.new.capacities }
    ensures few { HoldFew state.old.capacities → HoldFew state.new.capacities }
    ensures cells { state.new.cells ≡ state.old.cells }
    ensures links { state.new.links ≡ state.old.links }
    ensures waited { state.new.waited ≡ state.old.waited }
{
    if !is_inner_at(links, link) {
        return false;
    }
    if !may_grow(state, links, link, grow) {
        return false;
    }
    state.grow(link, grow) == capacity
}

/// Lets a link grow as a line says, if the network is stalled there and the link grows so. It is at rest, and each feed
/// came as far as it may.
pub(crate) fn grow_so<A: Firing>(
    state: &mut NetState<A>,
    links: &[Link],
    grow: u32,
    link: u32,
    capacity: u32,
) -> bool
    requires links { state.old.links ≡ links.now }
    requires queues { CanGrow grow (map A.cell state.old.cells) links.now }
    requires enough { HoldEnough links.now state.old.capacities }
    requires few { HoldFew state.old.capacities }
    requires untrapped { AreUntrapped (map A.cell state.old.cells) }
    requires rest { IsAtRest (seen A.cell state.old) }
    ensures yes { result ≡ true → GrowsSo grow link capacity (seen A.cell state.old)
        (seen A.cell state.new) }
    ensures no { result ≡ false → GrowsNotSo grow link capacity (seen A.cell state.old) }
    ensures enough { HoldEnough links.now state.new.capacities }
    ensures inputs { SameOnInputs links.now state.old.capacities state.new.capacities }
    ensures few { HoldFew state.new.capacities }
    ensures rests { IsAtRest (seen A.cell state.new) }
    ensures same_actors { SameActors (map A.cell state.old.cells) (map A.cell state.new.cells) }
    ensures same_marks { SameMarks (map A.cell state.old.cells) (map A.cell state.new.cells) }
    ensures links { state.new.links ≡ state.old.links }
{
    stalled_in_one_place::<StatesOf<A>>();
    match state.outlook() {
        Outlook::Stalled {
            inst: _,
            action: _,
            link: at,
        } => at.0 == link && grow_at(state, links, grow, at, capacity),
        Outlook::Quiet => false,
        Outlook::Going => false,
    }
}

/// Lets a link grow as a line says, if the network is stalled there and the link grows so, with all that is left of the
/// feeds counted as arrived. So links are filled for it. What came so is taken back then, since the run goes on without
/// it, and the rooms are those of the last delivery again, which `noted` holds meanwhile.
pub(crate) fn grow_fed<A: Firing, F: Feeds>(
    state: &mut NetState<A>,
    links: &[Link],
    readers: &mut [Option<TokenFeed>],
    taken: &mut TakenBack,
    came: &mut [Filled],
    noted: &mut [u32],
    grow: u32,
    link: u32,
    capacity: u32,
    feeds: &mut F,
) -> Growth
    requires links { state.old.links ≡ links.now }
    requires few { length links.now ≤ max_links }
    requires queues { CanGrow grow (map A.cell state.old.cells) links.now }
    requires enough { HoldEnough links.now state.old.capacities }
    requires few_held { HoldFew state.old.capacities }
    requires untrapped { AreUntrapped (map A.cell state.old.cells) }
    requires readers { ReadersFit links.now readers.old (F.feeds feeds.old) }
    requires taken { FitTaken (seen A.cell state.old) taken.old }
    requires as_many { length came.old ≡ length links.now }
    requires as_many_noted { length noted.old ≡ length links.now }
    ensures growth { GrowsOn A.cell F.feeds grow link capacity state.old taken.old readers.old
        feeds.old state.new taken.new readers.new feeds.new result }
    ensures still_fits { StillFitsOn A.cell F.feeds links.now state.old state.new taken.new
        readers.new feeds.new result }
    ensures failed { IfUnread result (λ _. ReadFails F.feeds feeds.old feeds.new) }
    ensures feed { IfUnread result (IsFeedRead links.now (map is_some readers.old)) }
    ensures still_there { map is_some readers.new ≡ map is_some readers.old }
    ensures elsewhere { PullsInputs (F.feeds feeds.old) (F.feeds feeds.new) }
{
    if !is_settled(state, links) {
        return Growth::Untrue;
    }
    state.note_waited(noted);
    match deliver_held(state, links, readers, taken, feeds, came) {
        Ok(()) => {}
        Err(fault) => return Growth::Unread(fault.feed),
    }
    if !grow_so(state, links, grow, link, capacity) {
        return Growth::Untrue;
    }
    take_back_all(state, links, came, taken);
    state.reopen(noted);
    Growth::Grown
}
