//! Whether an action has its tokens.

ghost use Rattle.std.specs.Prelude.{◌≡◌, ◌<◌, length};
ghost use Rattle.lowered_actor.specs.Meaning.{has_its_tokens};

use code_ir::Tokens;
use lowered_actor::Lowered;

/// Whether there are as many tokens on each port as the action takes there.
#[inline]
pub(crate) fn has_its_tokens<T: Tokens>(actor: &Lowered, a: u16, tokens: &T) -> bool
    requires { a < length actor.now.actions }
    ensures { result ≡ has_its_tokens actor.now (T.tokens tokens.now) a }
{
    // it tells that there is a number for each port
    let _code = actor.code();
    let needs = &actor.action(a).needs;
    for port in 0..actor.ins() {
        if tokens.count(port) < needs[port as usize] {
            return false;
        }
    }
    true
}
