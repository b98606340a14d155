//! How often each picked instance may fire in a round.

ghost use Rattle.std.specs.Prelude.{◌≡◌, ◌≤◌, ◌<◌};
ghost use Rattle.rvc_base.specs.Shares.{allowed, allowed_together};

/// How often the `k`-th of the picked instances may fire, counted from 0, if `left` firings are
/// left of the budget: its share of them, and at most `burst`.
///
/// Together the picked instances may fire at most `left` times.
pub fn split_budget(left: u64, picked: u32, burst: u32, k: u32) -> u32
    requires some { 1 ≤ picked }
    requires bursts { 1 ≤ burst }
    requires enough { picked ≤ left }
    requires among { k < picked }
    ensures allowed { result ≡ allowed left picked burst k }
    ensures least { 1 ≤ result }
    ensures together { allowed_together left picked burst ≤ left }
{
    let picked = u64::from(picked);
    let more = if u64::from(k) < left % picked { 1 } else { 0 };
    let share = left / picked + more;
    share.min(u64::from(burst)) as u32
}
