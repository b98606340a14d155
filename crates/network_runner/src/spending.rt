//! What ends a run whose budget is spent.

ghost use Rattle.std.specs.Prelude.{◌≡◌, false, map};
ghost use Rattle.net_state.specs.Held.{seen};
ghost use Rattle.net_state.specs.Moving.{SameActors};
ghost use Rattle.net_state.specs.Surveyed.{AreUntrapped};
ghost use Rattle.net_state.specs.Working.{IsAtRest};
ghost use Rattle.round_runner.specs.declared.outcome.RoundEnd.{RoundEnd};
ghost use Rattle.network_runner.specs.Rounding.{IsNoFault, is_trap};
ghost use Rattle.network_runner.specs.Spending.{EndsSpent};

use net_model::Firing;
use net_state::{NetState, Outlook};
use round_runner::RunEnd;

/// Says how a run ends whose budget is spent, once the delivery of its last round was made: quiet, stuck, or by its
/// budget. Nothing fires any more.
pub fn end_spent<A: Firing>(net: &mut NetState<A>, grow: u32) -> RunEnd
    requires untrapped { AreUntrapped (map A.cell net.old.cells) }
    requires rest { IsAtRest (seen A.cell net.old) }
    ensures ends { EndsSpent grow result (seen A.cell net.old) (seen A.cell net.new) }
    ensures no_trap { is_trap (RoundEnd.End result) ≡ false }
    ensures no_fault { IsNoFault (RoundEnd.End result) }
    ensures same_actors { SameActors (map A.cell net.old.cells) (map A.cell net.new.cells) }
    ensures links { net.new.links ≡ net.old.links }
    ensures capacities { net.new.capacities ≡ net.old.capacities }
    ensures waited { net.new.waited ≡ net.old.waited }
{
    match net.outlook() {
        Outlook::Quiet => RunEnd::Quiet,
        Outlook::Going => RunEnd::Budget,
        Outlook::Stalled { inst, action, link } => {
            if net.capacity(link) >= grow {
                return RunEnd::Stalled { inst, action, link };
            }
            RunEnd::Budget
        }
    }
}
