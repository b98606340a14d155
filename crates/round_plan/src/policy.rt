//! What picks the instances of a round.

ghost use Rattle.std.specs.Prelude.{◌≡◌, ◌+◌, ◌<◌, ℕ, length};
ghost use Rattle.rvc_base.specs.declared.round_kind.RoundKind.{RoundKind};
ghost use Rattle.rvc_base.specs.Picks.{picks};

/// Picks the instances of each round. It is asked round by round, for the same instances.
pub trait Policy: Drop {
    /// Its kind.
    ghost kind: { Self → RoundKind };
    /// How many rounds it was asked.
    ghost rounds: { Self → ℕ };
    /// For how many instances it was asked, if it was.
    ghost instances: { Self → ℕ };

    /// Marks in `picked` the instances that it picks in `round`; rounds are numbered from 1.
    fn pick(&mut self, round: u64, picked: &mut [bool])
        requires next { round ≡ rounds self.old + 1 }
        requires some { 0 < length picked.old }
        requires same_instances { 0 < rounds self.old → length picked.old ≡ instances self.old }
        ensures picks { picked.new ≡ picks (kind self.old) (length picked.old) round }
        ensures kind { kind self.new ≡ kind self.old }
        ensures rounds { rounds self.new ≡ round }
        ensures instances { instances self.new ≡ length picked.old };
}
