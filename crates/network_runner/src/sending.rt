//! What was sent to outputs of the network goes out to their channels.

ghost use Rattle.std.specs.Prelude.{◌≡◌, ◌≤◌, ◌<◌, IfErr, OnErr, Some, length, slice_get};
ghost use Rattle.rvc_io.specs.Channels.{WriteFails};
ghost use Rattle.network_runner.specs.Sending.{BreaksAll, BreaksLink, IsChannelOf, OutletsFit, SendsAll, SendsLink, SendsOnly};

use channel_writer::ChannelWriter;
use net_model::{End, Firing, Link};
use net_state::NetState;
use round_runner::{FIRST_OUTPUT, send_along};
use rvc_base::{LinkId, Scalar};
use rvc_io::Drains;

/// An output of the network: the type of its tokens, and whether it has a channel.
#[derive(Clone, Copy, Debug, PartialEq, Eq)]
pub struct Outlet {
    pub kind: Scalar,
    pub is_open: bool,
}

/// A channel couldn't be written.
#[derive(Clone, Copy, Debug, PartialEq, Eq)]
pub struct WriteFault {
    pub channel: u32,
}

/// Writes what was sent to outputs of the network and hasn't left, as their types hold it. What goes to an output
/// without channel is lost.
///
/// The channels of outputs are numbered from [`FIRST_OUTPUT`] on, in the order of ports.
///
/// # Errors
///
/// `WriteFault` if a write failed (`failed`), on the channel of an output that has one (`channel`): each channel got a
/// prefix of what was buffered for it and of its bytes (`fronts`).
pub fn send_all<A: Firing, D: Drains>(
    net: &NetState<A>,
    links: &[Link],
    outlets: &[Outlet],
    writers: &mut [ChannelWriter],
    drains: &mut D,
) -> Result<(), WriteFault>
    requires links { links.now ≡ net.now.links }
    requires few { length links.now ≤ 4096 }
    requires outlets { OutletsFit links.now outlets.now (D.channels drains.old) }
    requires as_many { length writers.old ≡ length outlets.now }
    ensures sends { SendsAll A.cell D.channels outlets.now net.now.cells links.now drains.old
        drains.new writers.old writers.new result }
    ensures fronts { BreaksAll A.cell D.channels outlets.now net.now.cells links.now drains.old
        drains.new writers.old result }
    ensures failed { OnErr result (WriteFails D.channels drains.old drains.new) }
    ensures channel { IfErr result (λ fault. IsChannelOf outlets.now fault.channel) }
    ensures only { SendsOnly outlets.now (D.channels drains.old) (D.channels drains.new) }
    ensures still_as_many { length writers.new ≡ length writers.old }
{
    for l in 0..links.len() {
        send_link(net, LinkId(l as u32), &links[l], outlets, writers, drains)?;
    }
    Ok(())
}

/// The same of one link.
fn send_link<A: Firing, D: Drains>(
    net: &NetState<A>,
    l: LinkId,
    link: &Link,
    outlets: &[Outlet],
    writers: &mut [ChannelWriter],
    drains: &mut D,
) -> Result<(), WriteFault>
    requires there { slice_get net.now.links l.0 ≡ Some link.now }
    requires outlets { OutletsFit net.now.links outlets.now (D.channels drains.old) }
    requires as_many { length writers.old ≡ length outlets.now }
    ensures sends { SendsLink A.cell D.channels outlets.now net.now.cells link.now drains.old
        drains.new writers.old writers.new result }
    ensures fronts { BreaksLink A.cell D.channels outlets.now net.now.cells link.now drains.old
        drains.new writers.old result }
    ensures failed { OnErr result (WriteFails D.channels drains.old drains.new) }
    ensures channel { IfErr result (λ fault. IsChannelOf outlets.now fault.channel) }
    ensures only { SendsOnly outlets.now (D.channels drains.old) (D.channels drains.new) }
    ensures still_as_many { length writers.new ≡ length writers.old }
{
    let End::Net { port } = link.to else {
        return Ok(());
    };
    let p = port as usize;
    if !outlets[p].is_open {
        return Ok(());
    }
    let channel = FIRST_OUTPUT + port;
    match send_along(net, l, outlets[p].kind, channel, &mut writers[p], drains) {
        Ok(_) => Ok(()),
        Err(_) => Err(WriteFault { channel }),
    }
}
