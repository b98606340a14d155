//! The policy that picks every instance.

ghost use Rattle.std.specs.Prelude.{◌≡◌, ◌+◌, ◌<◌, length, map, true};
ghost use Rattle.std.specs.List.{range_with_len};
ghost use Rattle.rvc_base.specs.declared.round_kind.RoundKind.{RoundKind};
ghost use Rattle.round_plan.specs.Asked.{Asked};

use crate::policy::Policy;
use std::marker::Model;

/// Picks every instance in each round.
#[derive(Debug, Drop)]
pub struct AllPolicy {
    rounds: u64,
    instances: usize,
}

impl Model for AllPolicy {
    ghost use Rattle.rvc_base.specs.declared.round_kind.RoundKind.TheVariants.{All};
    ghost use Rattle.round_plan.specs.Asked.{Asked};

    ghost Value = { Asked };

    ghost view = { λ p. record { kind = All; rounds = p.rounds; instances = p.instances } };
}

impl AllPolicy {
    /// A policy that wasn't asked yet.
    pub fn new() -> AllPolicy
        ensures kind { result.kind ≡ RoundKind.All }
        ensures rounds { result.rounds ≡ 0 }
    {
        AllPolicy {
            rounds: 0,
            instances: 0,
        }
    }
}

impl Policy for AllPolicy {
    ghost kind = { λ p. p.kind };

    ghost rounds = { λ p. p.rounds };

    ghost instances = { λ p. p.instances };

    fn pick(&mut self, round: u64, picked: &mut [bool]) {
        self.rounds = round;
        self.instances = picked.len();
        mark_all(picked);
    }
}

/// Marks every instance.
fn mark_all(picked: &mut [bool])
    ensures { picked.new ≡ map (λ _. true) (range_with_len 0 (length picked.old)) }
{
    for k in 0..picked.len() {
        picked[k] = true;
    }
}
