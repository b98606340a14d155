//! The tokens that a run may read.

ghost use Rattle.std.specs.Prelude.{◌≡◌, ◌<◌, ℕ, ℤ, List, Some, length, slice_get};

use rvc_base::Num;

/// The tokens before an actor, by input port, in the order in which they came.
pub trait Tokens {
    ghost tokens: { Self → ℕ → List ℤ };

    /// How many tokens there are on a port.
    fn count(&self, port: u32) -> u32
        ensures { result ≡ length (tokens self.now port) };

    /// Token `k` of a port.
    fn at(&self, port: u32, k: u32) -> Num
        requires { k < length (tokens self.now port) }
        ensures { slice_get (tokens self.now port) k ≡ Some result };
}
