//! The policy that picks by a pseudo-random sequence.

ghost use Rattle.std.specs.Prelude.{◌≡◌, ◌+◌, ◌<◌, length, map};
ghost use Rattle.std.specs.List.{range_with_len};
ghost use Rattle.rvc_base.specs.declared.round_kind.RoundKind.{RoundKind};
ghost use Rattle.rvc_base.specs.Picks.{picks, number_after, number_at, has_highest_bit};
ghost use Rattle.round_plan.specs.Asked.{Asked};

use crate::policy::Policy;
use std::marker::Model;

/// Picks those instances for which the next number of a pseudo-random sequence has its highest bit 1.
///
/// The sequence starts from a seed; x is followed by x * 6364136223846793005 + 1442695040888963407
/// modulo 2 to the power of 64.
#[derive(Debug, Drop)]
pub struct SeedPolicy {
    seed: u64,
    last: u64,
    rounds: u64,
    instances: usize,
}

impl Model for SeedPolicy {
    ghost use Rattle.std.specs.Prelude.{◌≡◌, ◌*◌};
    ghost use Rattle.rvc_base.specs.declared.round_kind.RoundKind.TheVariants.{Seed};
    ghost use Rattle.rvc_base.specs.Picks.{number_at};
    ghost use Rattle.round_plan.specs.Asked.{Asked};

    ghost Value = { Asked };

    ghost view = { λ p. record { kind = Seed p.seed; rounds = p.rounds; instances = p.instances } };

    ghost invariant = { λ p. p.last ≡ number_at p.seed (p.rounds * p.instances) };
}

impl SeedPolicy {
    /// A policy that wasn't asked yet, whose sequence starts from `seed`.
    pub fn new(seed: u64) -> SeedPolicy
        ensures kind { result.kind ≡ RoundKind.Seed seed }
        ensures rounds { result.rounds ≡ 0 }
    {
        SeedPolicy {
            seed,
            last: seed,
            rounds: 0,
            instances: 0,
        }
    }
}

impl Policy for SeedPolicy {
    ghost kind = { λ p. p.kind };

    ghost rounds = { λ p. p.rounds };

    ghost instances = { λ p. p.instances };

    fn pick(&mut self, round: u64, picked: &mut [bool]) {
        self.last = mark_by_sequence(self.last, picked);
        self.rounds = round;
        self.instances = picked.len();
    }
}

/// Marks the instances for which the numbers after `last` have their highest bit 1, and gives the
/// last of these numbers.
fn mark_by_sequence(last: u64, picked: &mut [bool]) -> u64
    ensures last { result ≡ number_at last (length picked.old) }
    ensures marks { picked.new ≡ map
        (λ k. has_highest_bit (number_at last (k + 1))) (range_with_len 0 (length picked.old)) }
{
    let mut number = last;
    for k in 0..picked.len() {
        number = next_number(number);
        picked[k] = number >= 1 << 63;
    }
    number
}

/// The number after x in the sequence.
fn next_number(x: u64) -> u64
    ensures { result ≡ number_after x }
{
    x.wrapping_mul(6364136223846793005)
        .wrapping_add(1442695040888963407)
}
