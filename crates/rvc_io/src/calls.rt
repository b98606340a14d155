//! The calls of an object in memory, and which of them fail.

ghost use Rattle.std.specs.Prelude.{◌≡◌, true, []};
ghost use Rattle.rvc_io.specs.Calls.{is_listed, after_call, one_more};

use std::marker::Model;

/// How many calls were made and how many failed, with the numbers of those that are to fail.
///
/// Calls are numbered from 1. Both counts stand still at the last value of their type.
#[derive(Drop)]
pub(crate) struct Calls {
    failing: Vec<u64>,
    made: u64,
    faults: u64,
}

impl Model for Calls {
    ghost use Rattle.rvc_io.specs.Calls.{CallCount};

    ghost Value = { CallCount };

    ghost view = { λ c. record { failing = c.failing.items; made = c.made; faults = c.faults } };
}

impl Calls {
    /// No call was made yet; those of these numbers are to fail.
    pub(crate) fn new(failing: Vec<u64>) -> Calls
        ensures { result ≡ record { failing = failing.items; made = 0; faults = 0 } }
    {
        Calls {
            failing,
            made: 0,
            faults: 0,
        }
    }

    /// Whether the next call is listed as one that is to fail.
    pub(crate) fn is_listed(&self) -> bool
        ensures { result ≡ is_listed self.now }
    {
        let number = self.made.saturating_add(1);
        self.failing.iter().any(|listed| *listed == number)
    }

    /// Counts one call more, which failed or not.
    pub(crate) fn count(&mut self, failed: bool)
        ensures { self.new ≡ after_call failed self.old }
    {
        self.made = self.made.saturating_add(1);
        if failed {
            self.faults = self.faults.saturating_add(1);
        }
    }
}
