//! Tokens on their way from an output to an input.

ghost use Rattle.std.specs.Prelude.{◌≡◌, ◌<◌, [], ◌∷◌, length, map, slice_get, Some};
ghost use Rattle.rvc_base.specs.Storing.{IsSize};
ghost use Rattle.net_state.specs.Moving.{AreApart, CanCarry, CanCarryAll, Carries, CarriesAlong, HasRoomBefore, IsOutput, IsWriter, carried, sent_by};

use crate::places::{sent_on, sent_token, store_at};
use net_model::{End, Firing, Link};
use rvc_base::{InstId, Num, Scalar, conv};

/// Moves all that was sent on output port `out` of one cell behind what waits before input port `port` of
/// another, or of the same. Each token is stored in the reader's type. The outbox is left as it is.
pub(crate) fn carry<A: Firing>(
    cells: &mut [A],
    from: InstId,
    out: u32,
    to: InstId,
    port: u32,
    kind: Scalar,
)
    requires size { IsSize kind }
    requires from_there { from.0 < length cells.old }
    requires to_there { to.0 < length cells.old }
    requires from_output { IsOutput (map A.cell cells.old) from.0 out }
    requires room { HasRoomBefore (map A.cell cells.old) to.0 port
        (length (sent_by (map A.cell cells.old) from.0 out)) }
    ensures gains { Carries from.0 out to.0 port kind (map A.cell cells.old)
        (map A.cell cells.new) }
{
    let count = sent_on(cells, from, out);
    for k in 0..count {
        let token = sent_token(cells, from, out, k);
        store_at(cells, to, port, kind, token);
    }
}

/// Moves what was sent on a link between two cells to its reader. Of other links nothing moves.
fn follow<A: Firing>(cells: &mut [A], link: &Link)
    requires { CanCarry (map A.cell cells.old) link.now }
    ensures gains { CarriesAlong (link.now ∷ []) (map A.cell cells.old) (map A.cell cells.new) }
{
    if let End::Leaf {
        inst: from,
        port: out,
    } = link.from
    {
        if let End::Leaf { inst: to, port } = link.to {
            carry(cells, from, out, to, port, link.kind);
        }
    }
}

/// Moves what was sent on each link between two cells to its reader. The outboxes are left as they are.
pub(crate) fn carry_all<A: Firing>(cells: &mut [A], links: &[Link])
    requires can_carry { CanCarryAll (map A.cell cells.old) links.now }
    requires apart { AreApart links.now }
    ensures gains { CarriesAlong links.now (map A.cell cells.old) (map A.cell cells.new) }
{
    let count = links.len();
    for k in 0..count {
        follow(cells, &links[count - 1 - k]);
    }
}

/// How many tokens were sent on a link and haven't arrived, if it begins at a cell.
pub(crate) fn sent_along<A: Firing>(cells: &[A], link: &Link) -> u32
    requires writer { IsWriter (map A.cell cells.now) link.now.from }
    ensures { result ≡ length (carried (map A.cell cells.now) link.now) }
{
    match link.from {
        End::Leaf { inst, port } => sent_on(cells, inst, port),
        End::Net { port: _ } => 0,
    }
}

/// The token at place `k` of these, as the link's reader stores it.
pub(crate) fn token_along<A: Firing>(cells: &[A], link: &Link, k: u32) -> Num
    requires size { IsSize link.now.kind }
    requires writer { IsWriter (map A.cell cells.now) link.now.from }
    requires among { k < length (carried (map A.cell cells.now) link.now) }
    ensures { slice_get (carried (map A.cell cells.now) link.now) k ≡ Some result }
{
    match link.from {
        End::Leaf { inst, port } => conv(link.kind, sent_token(cells, inst, port, k)),
        End::Net { port: _ } => unreachable!(),
    }
}
