//! Input links are filled from their feeds.

ghost use Rattle.std.specs.Prelude.{◌≡◌, ◌≤◌, ◌<◌, true, IfErr, IfNone, IfSome, OnErr, is_some, length, map, slice_get};
ghost use Rattle.rvc_io.specs.Feeds.{PullsOnly, ReadFails};
ghost use Rattle.port_files.specs.Coming.{EndIsTrue};
ghost use Rattle.net_state.specs.Filling.{IsInputLink};
ghost use Rattle.net_state.specs.Held.{seen};
ghost use Rattle.net_state.specs.Moving.{SameActors, SameMarks};
ghost use Rattle.network_runner.specs.Filling.{FailsLink, FillsAll, FillsLink, IsFeedOf, ReadersFit, SameOpen, StopsOpened, kind_read, next_feed};

use net_model::{End, Firing, Link};
use net_state::{Filled, NetState};
use port_files::TokenFeed;
use round_runner::FIRST_INPUT;
use rvc_base::LinkId;
use rvc_io::{Failed, Feeds};

/// A feed couldn't be read.
#[derive(Clone, Copy, Debug, PartialEq, Eq)]
pub struct ReadFault {
    pub feed: u32,
}

/// Fills each input link that is fed from its feed, up to its present capacity or to the feed's end. `came` says
/// what came over each link.
///
/// The feeds of input links are numbered from [`FIRST_INPUT`] on, in link order.
///
/// # Errors
///
/// `ReadFault` if a feed couldn't be read (`failed`): that of a link that has a reader (`feed`), and from which this delivery
/// has to pull (`stops`).
pub fn fill_all<A: Firing, F: Feeds>(
    net: &mut NetState<A>,
    links: &[Link],
    readers: &mut [Option<TokenFeed>],
    feeds: &mut F,
    came: &mut [Filled],
) -> Result<(), ReadFault>
    requires links { links.now ≡ net.old.links }
    requires few { length links.now ≤ 4096 }
    requires readers { ReadersFit links.now readers.old (F.feeds feeds.old) }
    requires as_many { length came.old ≡ length links.now }
    ensures fills { FillsAll A.cell F.feeds net.old net.new readers.old readers.new feeds.old
        feeds.new came.new result }
    ensures failed { OnErr result (ReadFails F.feeds feeds.old feeds.new) }
    ensures feed { IfErr result (λ fault. IsFeedOf links.now readers.new fault.feed) }
    ensures stops { IfErr result (λ fault. StopsOpened links.now readers.old fault.feed
        (seen A.cell net.old) (F.feeds feeds.old) (F.feeds feeds.new)) }
    ensures still_fit { ReadersFit links.now readers.new (F.feeds feeds.new) }

    // What stays.
    ensures still_there { map is_some readers.new ≡ map is_some readers.old }
    ensures same_kinds { map kind_read readers.new ≡ map kind_read readers.old }
    ensures still_as_many { length came.new ≡ length came.old }
    ensures same_open { SameOpen (F.feeds feeds.old) (F.feeds feeds.new) }
    ensures same_actors { SameActors (map A.cell net.old.cells) (map A.cell net.new.cells) }
    ensures same_marks { SameMarks (map A.cell net.old.cells) (map A.cell net.new.cells) }
    ensures links { net.new.links ≡ net.old.links }
    ensures capacities { net.new.capacities ≡ net.old.capacities }
    ensures waited { net.new.waited ≡ net.old.waited }
{
    let mut feed = FIRST_INPUT;
    for l in 0..links.len() {
        match fill_one(net, LinkId(l as u32), &mut readers[l], feed, feeds) {
            Ok(filled) => came[l] = filled,
            Err(_) => return Err(ReadFault { feed }),
        }
        feed = next_feed(feed, &links[l]);
    }
    Ok(())
}

/// The number of the next feed, behind that of a link.
fn next_feed(feed: u32, link: &Link) -> u32
    requires few { feed ≤ 4096 }
    ensures { result ≡ next_feed feed link.now }
{
    match link.from {
        End::Leaf { inst: _, port: _ } => feed,
        End::Net { port: _ } => feed + 1,
    }
}

/// Fills one link from its feed, if it has a reader.
fn fill_one<A: Firing, F: Feeds>(
    net: &mut NetState<A>,
    link: LinkId,
    reader: &mut Option<TokenFeed>,
    feed: u32,
    feeds: &mut F,
) -> Result<Filled, Failed>
    requires input { IfSome reader.old (λ reading. IsInputLink (slice_get net.old.links link.0)) }
    requires open { IfSome reader.old (λ reading. (F.feeds feeds.old).is_open feed ≡ true) }
    requires same_feed { IfSome reader.old (λ reading.
        EndIsTrue reading ((F.feeds feeds.old).left feed)) }
    ensures fills { FillsLink A.cell F.feeds link.0 feed net.old net.new reader.old reader.new
        feeds.old feeds.new result }
    ensures failed { OnErr result (ReadFails F.feeds feeds.old feeds.new) }
    ensures read { OnErr result (is_some reader.old ≡ true) }
    ensures due { FailsLink A.cell F.feeds link.0 feed net.old reader.old feeds.old feeds.new
        result }
    ensures still_same_feed { IfSome reader.new (λ reading.
        EndIsTrue reading ((F.feeds feeds.new).left feed)) }

    // What stays.
    ensures still_there { is_some reader.new ≡ is_some reader.old }
    ensures same_kind { kind_read reader.new ≡ kind_read reader.old }
    ensures unread { IfNone reader.old (F.feeds feeds.new ≡ F.feeds feeds.old) }
    ensures elsewhere { PullsOnly F.feeds feeds.old feeds.new feed }
    ensures same_actors { SameActors (map A.cell net.old.cells) (map A.cell net.new.cells) }
    ensures same_marks { SameMarks (map A.cell net.old.cells) (map A.cell net.new.cells) }
    ensures links { net.new.links ≡ net.old.links }
    ensures capacities { net.new.capacities ≡ net.old.capacities }
    ensures waited { net.new.waited ≡ net.old.waited }
{
    let Some(tokens) = reader else {
        return Ok(Filled {
            tokens: 0,
            rest: None,
        });
    };
    net.fill(link, tokens, feed, feeds)
}
