//! One cell among others, by its place.

ghost use Rattle.std.specs.Prelude.{◌≡◌, ◌≤◌, ◌<◌, [], ◌∷◌, length, map, slice_get, Some};
ghost use Rattle.rvc_base.specs.Storing.{IsSize, conv};
ghost use Rattle.net_model.specs.Ready.{tokens_of};
ghost use Rattle.net_state.specs.Working.{HasAction, gives_of};
ghost use Rattle.net_state.specs.Moving.{ClearsAt, EachClears, EachGains, HasRoomBefore, IsInput, IsOutput, only_to, sent_of};

use net_model::Firing;
use rvc_base::{ActId, InstId, Num, Scalar, conv};

/// How many tokens were sent on an output port of a cell and haven't left yet.
pub(crate) fn sent_on<A: Firing>(cells: &[A], inst: InstId, port: u32) -> u32
    requires there { inst.0 < length cells.now }
    requires output { IsOutput (map A.cell cells.now) inst.0 port }
    ensures { result ≡ length (sent_of (slice_get (map A.cell cells.now) inst.0) port) }
{
    cells[inst.0 as usize].sent(port)
}

/// The token at place `k` of these.
pub(crate) fn sent_token<A: Firing>(cells: &[A], inst: InstId, port: u32, k: u32) -> Num
    requires there { inst.0 < length cells.now }
    requires output { IsOutput (map A.cell cells.now) inst.0 port }
    requires among { k < length (sent_of (slice_get (map A.cell cells.now) inst.0) port) }
    ensures { slice_get (sent_of (slice_get (map A.cell cells.now) inst.0) port) k ≡ Some result }
{
    cells[inst.0 as usize].sent_at(port, k)
}

/// Stores a token in a type, and puts it behind those before an input port of a cell.
pub(crate) fn store_at<A: Firing>(
    cells: &mut [A],
    inst: InstId,
    port: u32,
    kind: Scalar,
    token: Num,
)
    requires size { IsSize kind }
    requires there { inst.0 < length cells.old }
    requires room { HasRoomBefore (map A.cell cells.old) inst.0 port 1 }
    ensures { EachGains (only_to inst.0 port (conv kind token ∷ [])) (map A.cell cells.old)
        (map A.cell cells.new) }
{
    cells[inst.0 as usize].accept(port, conv(kind, token));
}

/// Takes back the token that came last before an input port of a cell.
pub(crate) fn take_back_at<A: Firing>(cells: &mut [A], inst: InstId, port: u32) -> Num
    requires there { inst.0 < length cells.old }
    requires input { IsInput (map A.cell cells.old) inst.0 port }
    requires some { 1 ≤ length (tokens_of (slice_get (map A.cell cells.old) inst.0) port) }
    ensures { EachGains (only_to inst.0 port (result ∷ [])) (map A.cell cells.new)
        (map A.cell cells.old) }
{
    cells[inst.0 as usize].take_back(port)
}

/// Puts a token behind those before an input port of a cell, as it is.
pub(crate) fn put_at<A: Firing>(cells: &mut [A], inst: InstId, port: u32, token: Num)
    requires there { inst.0 < length cells.old }
    requires room { HasRoomBefore (map A.cell cells.old) inst.0 port 1 }
    ensures { EachGains (only_to inst.0 port (token ∷ [])) (map A.cell cells.old)
        (map A.cell cells.new) }
{
    cells[inst.0 as usize].accept(port, token);
}

/// How many tokens wait before an input port of a cell.
pub(crate) fn held_at<A: Firing>(cells: &[A], inst: InstId, port: u32) -> u32
    requires there { inst.0 < length cells.now }
    requires input { IsInput (map A.cell cells.now) inst.0 port }
    ensures { result ≡ length (tokens_of (slice_get (map A.cell cells.now) inst.0) port) }
{
    cells[inst.0 as usize].held(port)
}

/// How many tokens an action of a cell gives on an output port.
pub(crate) fn give_at<A: Firing>(cells: &[A], inst: InstId, action: ActId, port: u32) -> u32
    requires there { inst.0 < length cells.now }
    requires action { HasAction (map A.cell cells.now) inst.0 action.0 }
    requires output { IsOutput (map A.cell cells.now) inst.0 port }
    ensures { result ≡ gives_of (slice_get (map A.cell cells.now) inst.0) action.0 port }
{
    cells[inst.0 as usize].give(action, port)
}

/// Empties the outboxes and the journal of one cell.
fn clear_at<A: Firing>(cells: &mut [A], i: usize)
    requires { i < length cells.old }
    ensures { ClearsAt i (map A.cell cells.old) (map A.cell cells.new) }
{
    cells[i].clear();
}

/// Empties the outboxes and the journals of all cells.
pub(crate) fn clear_all<A: Firing>(cells: &mut [A])
    ensures { EachClears (map A.cell cells.old) (map A.cell cells.new) }
{
    for i in 0..cells.len() {
        clear_at(cells, i);
    }
}
