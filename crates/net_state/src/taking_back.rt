//! A token that came over an input link is taken back, and put back later.

ghost use Rattle.std.specs.Prelude.{◌≤◌, ◌<◌, ◌∷◌, [], length, map};
ghost use Rattle.net_model.specs.Ready.{waiting_at};
ghost use Rattle.net_state.specs.Filling.{AtPort};
ghost use Rattle.net_state.specs.Moving.{EachGains, HasRoomBefore, IsInput, only_to};

use crate::places::{put_at, take_back_at};
use net_model::{End, Firing, Link};
use rvc_base::Num;

/// Takes back the token that came last to the end of a link that ends at a cell.
pub(crate) fn take_back_along<A: Firing>(cells: &mut [A], link: &Link) -> Num
    requires reader { AtPort link.now (λ that j q. IsInput (map A.cell cells.old) j q) link.now.to }
    requires some { 1 ≤ length (waiting_at (map A.cell cells.old) link.now.to) }
    ensures { AtPort link.now (λ that j q. EachGains (only_to j q (result ∷ []))
        (map A.cell cells.new) (map A.cell cells.old)) link.now.to }
{
    let End::Leaf { inst, port } = link.to else {
        unreachable!();
    };
    take_back_at(cells, inst, port)
}

/// Puts a token behind those at the end of a link that ends at a cell.
pub(crate) fn put_back_along<A: Firing>(cells: &mut [A], link: &Link, token: Num)
    requires reader { AtPort link.now (λ that j q. IsInput (map A.cell cells.old) j q
        × HasRoomBefore (map A.cell cells.old) j q 1) link.now.to }
    ensures { AtPort link.now (λ that j q. EachGains (only_to j q (token ∷ []))
        (map A.cell cells.old) (map A.cell cells.new)) link.now.to }
{
    let End::Leaf { inst, port } = link.to else {
        unreachable!();
    };
    put_at(cells, inst, port, token);
}
