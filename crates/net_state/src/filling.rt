//! An input link is filled from its feed.

ghost use Rattle.std.specs.Prelude.{◌≡◌, ◌<◌, ◌+◌, true, length, map, OnErr};
ghost use Rattle.rvc_base.specs.Storing.{IsSize};
ghost use Rattle.rvc_io.specs.Feeds.{PullsOnly, ReadFails};
ghost use Rattle.port_files.specs.Coming.{EndIsTrue};
ghost use Rattle.net_state.specs.Fed.{DueAt, DueOn, Fed, FedOn, FilledOn, FilledUp, IsReadBy, KeepsRest};
ghost use Rattle.net_state.specs.Filling.{AtPort};
ghost use Rattle.net_state.specs.Moving.{HasRoomUpTo, IsInput};

use crate::places::{held_at, store_at};
use net_model::{End, Firing, Link};
use port_files::{Next, TokenFeed};
use rvc_base::{InstId, Scalar};
use rvc_io::{Failed, Feeds};

/// What a link was filled with.
#[derive(Clone, Copy, Debug, PartialEq, Eq)]
pub struct Filled {
    /// How many tokens came.
    pub tokens: u32,
    /// If the feed's end was read: how many bytes are left there, which are no token.
    pub rest: Option<u8>,
}

/// Where tokens go that come from a feed: a port, its type, and how many tokens may wait there.
#[derive(Clone, Copy)]
pub(crate) struct Inlet {
    pub inst: InstId,
    pub port: u32,
    pub kind: Scalar,
    pub capacity: u32,
}

/// Lets tokens of a feed come before a port until it holds its capacity, or to the feed's end.
///
/// Nothing is pulled if the port holds its capacity.
pub(crate) fn fill_port<A: Firing, F: Feeds>(
    cells: &mut [A],
    inlet: &Inlet,
    tokens: &mut TokenFeed,
    feed: u32,
    feeds: &mut F,
) -> Result<Filled, Failed>
    requires size { IsSize inlet.now.kind }
    requires there { inlet.now.inst.0 < length cells.old }
    requires input { IsInput (map A.cell cells.old) inlet.now.inst.0 inlet.now.port }
    requires room { HasRoomUpTo (map A.cell cells.old) inlet.now.inst.0 inlet.now.port
        inlet.now.capacity }
    requires open { (F.feeds feeds.old).is_open feed ≡ true }
    requires same_feed { EndIsTrue tokens.old ((F.feeds feeds.old).left feed) }
    ensures took { Fed A.cell F.feeds inlet.now feed cells.old cells.new tokens.old tokens.new
        feeds.old feeds.new result }
    ensures filled { FilledUp A.cell F.feeds inlet.now feed tokens.old.kind cells.new tokens.new
        feeds.new result }
    ensures within { HasRoomUpTo (map A.cell cells.new) inlet.now.inst.0 inlet.now.port
        inlet.now.capacity }
    ensures failed { OnErr result (ReadFails F.feeds feeds.old feeds.new) }
    ensures due { DueAt A.cell F.feeds inlet.now cells.new tokens.new result }
    ensures kind { tokens.new.kind ≡ tokens.old.kind }
    ensures same_rest { KeepsRest F.feeds feed tokens.old tokens.new feeds.old feeds.new }
    ensures still_same_feed { EndIsTrue tokens.new ((F.feeds feeds.new).left feed) }
    ensures elsewhere { PullsOnly F.feeds feeds.old feeds.new feed }
{
    let mut count = 0u32;
    while held_at(cells, inlet.inst, inlet.port) < inlet.capacity {
        match tokens.next(feed, feeds) {
            Next::Token(token) => store_at(cells, inlet.inst, inlet.port, inlet.kind, token),
            Next::End { rest } => {
                return Ok(Filled {
                    tokens: count,
                    rest: Some(rest),
                });
            }
            Next::Failed => return Err(Failed),
        }
        count += 1;
    }
    Ok(Filled {
        tokens: count,
        rest: None,
    })
}

/// Fills a link that ends at a cell from its feed.
pub(crate) fn fill_link<A: Firing, F: Feeds>(
    cells: &mut [A],
    link: &Link,
    capacity: u32,
    tokens: &mut TokenFeed,
    feed: u32,
    feeds: &mut F,
) -> Result<Filled, Failed>
    requires size { IsSize link.now.kind }
    requires reader { IsReadBy (map A.cell cells.old) capacity link.now }
    requires open { (F.feeds feeds.old).is_open feed ≡ true }
    requires same_feed { EndIsTrue tokens.old ((F.feeds feeds.old).left feed) }
    ensures took { FedOn A.cell F.feeds link.now feed cells.old cells.new tokens.old tokens.new
        feeds.old feeds.new result }
    ensures filled { FilledOn A.cell F.feeds link.now capacity feed tokens.old.kind cells.new
        tokens.new feeds.new result }
    ensures within { AtPort link.now
        (λ that j q. HasRoomUpTo (map A.cell cells.new) j q capacity) link.now.to }
    ensures failed { OnErr result (ReadFails F.feeds feeds.old feeds.new) }
    ensures due { DueOn A.cell F.feeds link.now capacity cells.new tokens.new result }
    ensures kind { tokens.new.kind ≡ tokens.old.kind }
    ensures same_rest { KeepsRest F.feeds feed tokens.old tokens.new feeds.old feeds.new }
    ensures still_same_feed { EndIsTrue tokens.new ((F.feeds feeds.new).left feed) }
    ensures elsewhere { PullsOnly F.feeds feeds.old feeds.new feed }
{
    let End::Leaf { inst, port } = link.to else {
        unreachable!();
    };
    let inlet = Inlet {
        inst,
        port,
        kind: link.kind,
        capacity,
    };
    fill_port(cells, &inlet, tokens, feed, feeds)
}
