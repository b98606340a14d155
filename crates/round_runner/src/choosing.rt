//! Which instances a round picks.

ghost use Rattle.std.specs.Prelude.{◌≡◌, ◌+◌, ◌≤◌, ◌<◌, ◌^◌, true, length};
ghost use Rattle.net_model.specs.Paced.{count_picked, none_of};
ghost use Rattle.round_runner.specs.Choosing.{marked};

use round_plan::Policy;

/// Marks the instances of a round: those that the policy picks, or all if it picks none or if the round before
/// fired nothing (`idle`). Rounds are numbered from 1.
pub fn choose<P: Policy>(policy: &mut P, round: u64, idle: bool, marks: &mut [bool])
    requires next { round ≡ P.rounds policy.old + 1 }
    requires some { 0 < length marks.old }
    requires same_instances { 0 < P.rounds policy.old → length marks.old ≡ P.instances policy.old }
    ensures marks { marks.new ≡ marked (P.kind policy.old) (length marks.old) round idle }
    ensures kind { P.kind policy.new ≡ P.kind policy.old }
    ensures rounds { P.rounds policy.new ≡ round }
    ensures instances { P.instances policy.new ≡ length marks.old }
{
    policy.pick(round, marks);
    if idle || picks_none(marks) {
        marks.fill(true);
    }
}

/// Whether no instance is marked.
fn picks_none(marks: &[bool]) -> bool
    ensures { result ≡ none_of marks.now }
{
    for k in 0..marks.len() {
        if marks[k] {
            return false;
        }
    }
    true
}

/// How many instances are marked.
pub fn count_marks(marks: &[bool]) -> u32
    requires few { length marks.now < 2 ^ 32 }
    ensures count { result ≡ count_picked marks.now }
    ensures most { result ≤ length marks.now }
{
    let mut count = 0u32;
    for k in 0..marks.len() {
        if marks[k] {
            count += 1;
        }
    }
    count
}
