//! What goes through links and out of a network, counted.

ghost use Rattle.std.specs.Prelude.{◌≡◌, ◌≤◌, Some, length, map, slice_get};
ghost use Rattle.net_model.specs.Limits.{max_links};
ghost use Rattle.net_state.specs.Moving.{carried};
ghost use Rattle.network_runner.specs.Counting.{EndsAt, IsToPort, arrived_with, capped_sum, rests_with, sent_at, sent_with, told_or};

use net_model::{End, Firing, Link};
use net_state::{Filled, NetState};
use rvc_base::LinkId;

/// Adds for each link the tokens that came over it, and sets what is left of its feed once its end was read.
pub fn count_arrived(came: &[Filled], arrived: &mut [u64], rests: &mut [u8])
    requires arrived { length arrived.old ≡ length came.now }
    requires rests { length rests.old ≡ length came.now }
    ensures arrived { arrived.new ≡ arrived_with came.now arrived.old }
    ensures rests { rests.new ≡ rests_with came.now rests.old }
{
    for l in 0..came.len() {
        arrived[l] = capped_sum(arrived[l], came[l].tokens);
        rests[l] = told_or(came[l].rest, rests[l]);
    }
}

/// Adds for each output what was sent there and hasn't left.
pub fn count_sent<A: Firing>(net: &NetState<A>, links: &[Link], sent: &mut [u64])
    requires links { links.now ≡ net.now.links }
    requires few { length links.now ≤ max_links }
    requires ports { IsToPort links.now (length sent.old) }
    ensures sent { sent.new ≡ sent_with (map A.cell net.now.cells) links.now sent.old }
{
    for l in 0..links.len() {
        count_link(net, LinkId(l as u32), &links[l], sent);
    }
}

/// The same of one link.
fn count_link<A: Firing>(net: &NetState<A>, l: LinkId, link: &Link, sent: &mut [u64])
    requires there { slice_get net.now.links l.0 ≡ Some link.now }
    requires port { EndsAt link.now (length sent.old) link.now.to }
    ensures sent { sent.new ≡ sent_at sent.old (length (carried (map A.cell net.now.cells) link.now))
        link.now.to }
{
    let End::Net { port } = link.to else {
        return;
    };
    let p = port as usize;
    sent[p] = capped_sum(sent[p], net.sent(l));
}

/// A number to which another one is added; it stays at the greatest one.
fn capped_sum(a: u64, b: u32) -> u64
    ensures { result ≡ capped_sum a b }
{
    if b == 0 {
        return a;
    }
    a.saturating_add(u64::from(b))
}

/// What is told, or else what was told before.
fn told_or(told: Option<u8>, before: u8) -> u8
    ensures { result ≡ told_or told before }
{
    match told {
        Some(rest) => rest,
        None => before,
    }
}
