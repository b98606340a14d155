//! End lines but those of traps: what is true of the network.

ghost use Rattle.std.specs.Prelude.{◌≡◌, ◌<◌, ◌≤◌, true, false, IfOk, OnErr, Some, is_some, length, map, slice_get, slice_index_or, IfErr};
ghost use Rattle.rvc_io.specs.Feeds.{ReadFails};
ghost use Rattle.trace_text.specs.declared.line.Line.TheVariants.{Budget, Stall};
ghost use Rattle.net_model.specs.Network.{is_input as begins_outside};
ghost use Rattle.net_model.specs.Limits.{max_links};
ghost use Rattle.net_state.specs.Held.{HoldFew, seen};
ghost use Rattle.net_state.specs.Surveyed.{AreSettled, AreUntrapped};
ghost use Rattle.net_state.specs.Working.{IsAtRest};
ghost use Rattle.trace_replay.specs.Ending.{AreUnsettled, EndsNotOn, EndsOn, IsEndOf, IsOut, MayGrow};
ghost use Rattle.network_runner.specs.Filling.{ReadersFit};
ghost use Rattle.trace_replay.specs.Holding.{FitTaken};
ghost use Rattle.trace_replay.specs.Feeding.{PullsInputs, IsFeedRead};

use crate::head::is_line;
use crate::holding::{TakenBack, deliver_held};
use crate::states::StatesOf;
use net_model::{End, Firing, Link, stalled_in_one_place};
use net_state::{Filled, NetState, Outlook};
use port_files::TokenFeed;
use rvc_base::{ActId, InstId, LinkId};
use rvc_io::Feeds;
use trace_text::Line;

/// Whether a link begins at an input of the network.
pub(crate) fn is_input(link: &Link) -> bool
    ensures { result ≡ begins_outside link.now }
{
    match link.from {
        End::Leaf { inst: _, port: _ } => false,
        End::Net { port: _ } => true,
    }
}

/// Whether all that was sent on a link has arrived, if it begins inside.
fn is_out<A: Firing>(state: &NetState<A>, l: u32, link: &Link) -> bool
    requires there { slice_get state.now.links l ≡ Some link.now }
    ensures yes { result ≡ true → IsOut l link.now (seen A.cell state.now) }
    ensures no { result ≡ false → AreUnsettled (seen A.cell state.now) }
{
    if is_input(link) {
        return true;
    }
    state.sent(LinkId(l)) == 0
}

/// Whether all that was sent on inner and output links has arrived.
pub(crate) fn is_settled<A: Firing>(state: &NetState<A>, links: &[Link]) -> bool
    requires links { state.now.links ≡ links.now }
    requires few { length links.now ≤ max_links }
    ensures yes { result ≡ true → AreSettled (seen A.cell state.now) }
    ensures no { result ≡ false → AreUnsettled (seen A.cell state.now) }
{
    let mut l = 0u32;
    'links: while (l as usize) < links.len() {
        if !is_out(state, l, &links[l as usize]) {
            return false;
        }
        l += 1;
    }
    true
}

/// Whether a link can hold less than this now, if it is there.
pub(crate) fn may_grow<A: Firing>(
    state: &NetState<A>,
    links: &[Link],
    link: LinkId,
    grow: u32,
) -> bool
    requires links { state.now.links ≡ links.now }
    ensures yes { result ≡ true → MayGrow grow (seen A.cell state.now) link.0 }
    ensures there { result ≡ true → link.0 < length links.now }
    ensures no { result ≡ false → link.0 < length links.now
        → grow ≤ slice_index_or state.now.capacities link.0 0 }
{
    (link.0 as usize) < links.len() && state.capacity(link) < grow
}

/// The end line that is true of a network at rest.
fn end_line<A: Firing>(state: &mut NetState<A>, links: &[Link], grow: u32) -> Line
    requires links { state.old.links ≡ links.now }
    requires untrapped { AreUntrapped (map A.cell state.old.cells) }
    requires rest { IsAtRest (seen A.cell state.old) }
    ensures { IsEndOf grow (seen A.cell state.old) result }
{
    stalled_in_one_place::<StatesOf<A>>();
    match state.outlook() {
        Outlook::Quiet => Line::Quiet,
        Outlook::Stalled { inst, action, link } => {
            let goes_on = may_grow(state, links, link, grow);
            stall_line(goes_on, inst, action, link)
        }
        Outlook::Going => Line::Budget,
    }
}

/// The end line of a network that is stalled, by whether the link may grow.
fn stall_line(goes_on: bool, inst: InstId, action: ActId, link: LinkId) -> Line
    ensures on { goes_on ≡ true → result ≡ Budget }
    ensures stuck { goes_on ≡ false → result ≡ Stall inst.0 action.0 link.0 }
{
    if goes_on {
        return Line::Budget;
    }
    Line::Stall {
        inst: inst.0,
        action: action.0,
        link: link.0,
    }
}

/// Whether an end line is true. What is left of the feeds counts as arrived, so links are filled for it; the run ends
/// with it, whatever it says.
///
/// # Errors
///
/// The number of a feed if bytes couldn't be pulled from it.
pub(crate) fn ends_so<A: Firing, F: Feeds>(
    state: &mut NetState<A>,
    links: &[Link],
    readers: &mut [Option<TokenFeed>],
    taken: &mut TakenBack,
    came: &mut [Filled],
    grow: u32,
    line: &Line,
    feeds: &mut F,
) -> Result<bool, u32>
    requires links { state.old.links ≡ links.now }
    requires few { length links.now ≤ max_links }
    requires untrapped { AreUntrapped (map A.cell state.old.cells) }
    requires few_held { HoldFew state.old.capacities }
    requires readers { ReadersFit links.now readers.old (F.feeds feeds.old) }
    requires taken { FitTaken (seen A.cell state.old) taken.old }
    requires as_many { length came.old ≡ length links.now }
    ensures yes { IfOk result (λ so. so ≡ true
        → EndsOn A.cell F.feeds grow line.now state.old taken.old readers.old feeds.old) }
    ensures no { IfOk result (λ so. so ≡ false
        → EndsNotOn A.cell F.feeds grow line.now state.old taken.old readers.old feeds.old) }
    ensures failed { OnErr result (ReadFails F.feeds feeds.old feeds.new) }
    ensures feed { IfErr result (IsFeedRead links.now (map is_some readers.old)) }
    ensures elsewhere { PullsInputs (F.feeds feeds.old) (F.feeds feeds.new) }
{
    if !is_settled(state, links) {
        return Ok(false);
    }
    match deliver_held(state, links, readers, taken, feeds, came) {
        Ok(()) => {}
        Err(fault) => return Err(fault.feed),
    }
    stalled_in_one_place::<StatesOf<A>>();
    let end = end_line(state, links, grow);
    Ok(is_line(line, &end))
}
