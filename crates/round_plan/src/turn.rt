//! The policy that picks one instance a round.

ghost use Rattle.std.specs.Prelude.{◌≡◌, ◌+◌, ◌<◌, length};
ghost use Rattle.rvc_base.specs.declared.round_kind.RoundKind.{RoundKind};
ghost use Rattle.rvc_base.specs.Picks.{picks};
ghost use Rattle.round_plan.specs.Asked.{Asked};

use crate::policy::Policy;
use std::marker::Model;

/// Picks one instance a round, in turn: in round 1 the first.
#[derive(Debug, Drop)]
pub struct TurnPolicy {
    rounds: u64,
    instances: usize,
}

impl Model for TurnPolicy {
    ghost use Rattle.rvc_base.specs.declared.round_kind.RoundKind.TheVariants.{Turn};
    ghost use Rattle.round_plan.specs.Asked.{Asked};

    ghost Value = { Asked };

    ghost view = { λ p. record { kind = Turn; rounds = p.rounds; instances = p.instances } };
}

impl TurnPolicy {
    /// A policy that wasn't asked yet.
    pub fn new() -> TurnPolicy
        ensures kind { result.kind ≡ RoundKind.Turn }
        ensures rounds { result.rounds ≡ 0 }
    {
        TurnPolicy {
            rounds: 0,
            instances: 0,
        }
    }
}

impl Policy for TurnPolicy {
    ghost kind = { λ p. p.kind };

    ghost rounds = { λ p. p.rounds };

    ghost instances = { λ p. p.instances };

    fn pick(&mut self, round: u64, picked: &mut [bool]) {
        self.rounds = round;
        self.instances = picked.len();
        mark_turn(picked, round);
    }
}

/// Marks the instance whose turn it is in this round.
fn mark_turn(picked: &mut [bool], round: u64)
    requires first { 0 < round }
    requires some { 0 < length picked.old }
    ensures { picked.new ≡ picks RoundKind.Turn (length picked.old) round }
{
    let turn = (round - 1) as usize % picked.len();
    for k in 0..picked.len() {
        picked[k] = k == turn;
    }
}
