//! Deliveries.

ghost use Rattle.std.specs.Prelude.{◌≡◌, ◌≤◌, IfErr, OnErr, is_some, length, map};
ghost use Rattle.rvc_io.specs.Feeds.{ReadFails};
ghost use Rattle.net_state.specs.Held.{seen};
ghost use Rattle.net_state.specs.Moving.{SameActors, SameMarks};
ghost use Rattle.network_runner.specs.Delivering.{DeliversAll};
ghost use Rattle.network_runner.specs.Filling.{IsFeedOf, ReadersFit, SameOpen, StopsDelivery, kind_read};

use crate::feeding::{ReadFault, fill_all};
use net_model::{Firing, Link};
use net_state::{Filled, NetState};
use port_files::TokenFeed;
use rvc_io::Feeds;

/// Makes a delivery: all that was sent inside arrives, and each input link is filled from its feed, up to its present
/// capacity or to the feed's end. `came` says what came over each input link.
///
/// # Errors
///
/// `ReadFault` if a feed couldn't be read (`failed`): that of a link that has a reader (`feed`), and from which this delivery
/// has to pull (`stops`).
pub fn deliver_all<A: Firing, F: Feeds>(
    net: &mut NetState<A>,
    links: &[Link],
    readers: &mut [Option<TokenFeed>],
    feeds: &mut F,
    came: &mut [Filled],
) -> Result<(), ReadFault>
    requires links { links.now ≡ net.old.links }
    requires few { length links.now ≤ 4096 }
    requires readers { ReadersFit links.now readers.old (F.feeds feeds.old) }
    requires as_many { length came.old ≡ length links.now }
    ensures delivers { DeliversAll A.cell F.feeds net.old net.new readers.old readers.new feeds.old
        feeds.new came.new result }
    ensures failed { OnErr result (ReadFails F.feeds feeds.old feeds.new) }
    ensures feed { IfErr result (λ fault. IsFeedOf links.now readers.new fault.feed) }
    ensures stops { IfErr result (λ fault. StopsDelivery links.now readers.old fault.feed
        (seen A.cell net.old) (F.feeds feeds.old) (F.feeds feeds.new)) }
    ensures still_fit { ReadersFit links.now readers.new (F.feeds feeds.new) }

    // What stays.
    ensures still_there { map is_some readers.new ≡ map is_some readers.old }
    ensures same_kinds { map kind_read readers.new ≡ map kind_read readers.old }
    ensures still_as_many { length came.new ≡ length came.old }
    ensures same_open { SameOpen (F.feeds feeds.old) (F.feeds feeds.new) }
    ensures same_actors { SameActors (map A.cell net.old.cells) (map A.cell net.new.cells) }
    ensures same_marks { SameMarks (map A.cell net.old.cells) (map A.cell net.new.cells) }
    ensures links { net.new.links ≡ net.old.links }
    ensures capacities { net.new.capacities ≡ net.old.capacities }
{
    net.deliver();
    fill_all(net, links, readers, feeds, came)
}
