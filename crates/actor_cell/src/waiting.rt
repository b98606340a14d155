//! The tokens that wait before an actor.

ghost use Rattle.std.specs.Prelude.{◌≡◌, length};
ghost use Rattle.actor_cell.specs.Queues.{AreTaken, AreThere};

use code_ir::Tokens;
use rvc_base::Num;
use token_ring::Ring;

/// The tokens in the queues before an actor. It borrows the queues and copies none.
#[derive(Drop)]
pub(crate) struct Waiting<'a> {
    pub rings: &'a [Ring],
}

impl<'a> Tokens for Waiting<'a> {
    ghost use Rattle.actor_cell.specs.Queues.{tokens_before};

    ghost tokens = { λ t. tokens_before t.rings.now };

    #[inline]
    fn count(&self, port: u32) -> u32 {
        let port = port as usize;
        if port < self.rings.len() {
            self.rings[port].len()
        } else {
            0
        }
    }

    #[inline]
    fn at(&self, port: u32, k: u32) -> Num {
        self.rings[port as usize].at(k)
    }
}

/// Takes from each queue as many tokens as these numbers say.
pub(crate) fn take_each(rings: &mut [Ring], needs: &[u32])
    requires size { length needs.now ≡ length rings.old }
    requires there { AreThere needs.now rings.old }
    ensures { AreTaken needs.now rings.old rings.new }
{
    for p in 0..rings.len() {
        rings[p].take(needs[p]);
    }
}
