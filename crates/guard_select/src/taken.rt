//! The tokens that an action takes.

ghost use Rattle.std.specs.Prelude.{◌≡◌};
ghost use Rattle.lowered_actor.specs.Actor.{number_on};
ghost use Rattle.guard_select.specs.Selecting.{first_of};

use code_ir::Tokens;
use rvc_base::Num;

/// The first tokens of each port: as many as an action takes there. It borrows the tokens and copies none.
#[derive(Drop)]
pub struct Taken<'a, T: Tokens> {
    pub tokens: &'a T,
    /// How many it takes from each port; from ports beyond these it takes none.
    pub needs: &'a [u32],
}

/// How many tokens are taken from a port.
#[inline]
fn needed(needs: &[u32], port: u32) -> u32
    ensures { result ≡ number_on needs.now port }
{
    let port = port as usize;
    if port < needs.len() { needs[port] } else { 0 }
}

impl<'a, T: Tokens> Tokens for Taken<'a, T> {
    ghost use Rattle.guard_select.specs.Selecting.{first_of};

    ghost tokens = { λ t. first_of t.needs.now (T.tokens t.tokens.now) };

    #[inline]
    fn count(&self, port: u32) -> u32 {
        let there = self.tokens.count(port);
        let needed = needed(self.needs, port);
        if there < needed { there } else { needed }
    }

    #[inline]
    fn at(&self, port: u32, k: u32) -> Num {
        self.tokens.at(port, k)
    }
}
