//! A place that each worker passes.

ghost use Rattle.std.specs.Prelude.{ℕ};

/// Is told when a worker starts in a round. What a run leaves doesn't rest on it.
pub trait Gate: Sync {
    /// That this worker was said to start in this round.
    ///
    /// Code over any gate gets it from a call of `arrive` alone. So a clause that ensures it says that the call was made,
    /// though a gate is shared and nothing else is known of it. It doesn't say how often, nor that no other was made.
    ghost arrived: { Self → ℕ → ℕ → Type 0 } = { λ gate round worker. Unit {0} };

    /// `worker` starts in `round`. It returns.
    fn arrive(&self, round: u64, worker: u32)
        ensures arrived { arrived self.now round worker };
}

/// A gate that holds nobody.
#[derive(Clone, Copy, Debug)]
pub struct OpenGate;

impl Gate for OpenGate {
    fn arrive(&self, _round: u64, _worker: u32) {}
}
