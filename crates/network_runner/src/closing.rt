//! What closes a round.

ghost use Rattle.std.specs.Prelude.{◌≡◌, None, false, map};
ghost use Rattle.net_state.specs.Held.{seen};
ghost use Rattle.net_state.specs.Working.{IsAtRest};
ghost use Rattle.network_runner.specs.Closing.{ClosesAllIdle, GrowsBy, MayGrow};
ghost use Rattle.network_runner.specs.Rounding.{CountsTo, IsNoFault, is_trap};
ghost use Rattle.round_runner.specs.Bursting.{NamesIts};

use net_model::Firing;
use net_state::NetState;
use round_runner::{Lacking, RoundEnd, RunEnd};

/// Closes a round for which all instances were picked and which fired nothing: the run ends quiet if no instance
/// lacks room, else it is stalled. Then the link on which the lowest such instance lacks room grows, or, where it has
/// grown as far as it may, the run ends.
pub fn close_idle<A: Firing>(net: &mut NetState<A>, lacks: Option<Lacking>, grow: u32) -> RoundEnd
    requires rest { IsAtRest (seen A.cell net.old) }
    requires named { NamesIts (map A.cell net.old.cells) lacks }
    requires queues { MayGrow grow (seen A.cell net.old) }
    ensures closes { ClosesAllIdle grow lacks result (seen A.cell net.old) (seen A.cell net.new) }
    ensures grows { GrowsBy result grow net.old.capacities net.new.capacities }
    ensures ended { CountsTo result 0 }
    ensures no_trap { is_trap result ≡ false }
    ensures no_fault { IsNoFault result }
    ensures never_idle { result ≡ RoundEnd.Idle → ⊥ }
    ensures quiet { lacks ≡ None → result ≡ RoundEnd.End RunEnd.Quiet }
    ensures cells { net.new.cells ≡ net.old.cells }
    ensures links { net.new.links ≡ net.old.links }
    ensures waited { net.new.waited ≡ net.old.waited }
{
    let Some(Lacking { inst, action }) = lacks else {
        return RoundEnd::End(RunEnd::Quiet);
    };
    // An action that lacks room lacks it on some link.
    let Some(link) = net.lacking(inst, action) else {
        return RoundEnd::End(RunEnd::Quiet);
    };
    if net.capacity(link) >= grow {
        return RoundEnd::End(RunEnd::Stalled { inst, action, link });
    }
    let capacity = net.grow(link, grow);
    RoundEnd::Grew { link, capacity }
}
