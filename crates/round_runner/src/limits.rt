//! How often an instance may fire in a round.

ghost use Rattle.std.specs.Prelude.{◌≡◌, ◌≤◌, ◌<◌, ◌-◌};
ghost use Rattle.net_model.specs.Paced.{limit_of};
ghost use Rattle.rvc_base.specs.Shares.{allowed_together};

use round_plan::split_budget;

/// How often the `k`-th of the picked instances may fire, counted from 0, if `left` firings are left of the budget.
/// If fewer are left than instances are picked, they are given out one instance after another: the lower ones fired
/// `fired` of them.
pub fn limit_for(burst: u32, left: u64, picks: u32, k: u32, fired: u64) -> u32
    requires bursts { 1 ≤ burst }
    requires among { k < picks }
    requires spent { fired ≤ left }
    ensures limit { result ≡ limit_of burst left picks k fired }
    ensures within { result ≤ burst }
    ensures some { fired < left → 1 ≤ result }
    ensures together { picks ≤ left → allowed_together left picks burst ≤ left }
{
    if u64::from(picks) <= left {
        split_budget(left, picks, burst, k)
    } else {
        (left - fired).min(u64::from(burst)) as u32
    }
}
