//! Tokens of an actor at work as slices.
//!
//! Who carries the tokens of a burst from port to port asks for [`FiringSlices`]: what was sent on a port is lent as two
//! slices, and a slice of tokens is put before a port by one call. That is the same as token by token.
#![tactic(auto)]

ghost use Rattle.std.specs.Prelude.{◌≡◌, ◌+◌, ◌≤◌, ◌<◌, ◌++◌, length};
ghost use Rattle.rvc_base.specs.Lawful.{tokens_on};
ghost use Rattle.net_model.specs.Cell.{number_on};
ghost use Rattle.firing_slices.specs.Slices.{AcceptsAll};

use net_model::Firing;
use rvc_base::Num;

/// An actor at work whose tokens come and go as slices.
pub trait FiringSlices: Firing {
    /// The tokens that were sent on an output port and haven't left yet, in two parts: those of the first part were sent
    /// before those of the second.
    fn sent_parts(&self, port: u32) -> (&[Num], &[Num])
        requires port { port < (Self.cell self.now).actor.outs }
        ensures { result.0.now ++ result.1.now ≡ tokens_on (Self.cell self.now).outboxes port };

    /// Puts tokens behind those before an input port, in their order: what `accept` does with one after the other.
    fn accept_all(&mut self, port: u32, tokens: &[Num])
        requires port { port < (Self.cell self.old).actor.ins }
        requires room { length (tokens_on (Self.cell self.old).inboxes port) + length tokens.now
            ≤ number_on (Self.cell self.old).inbox_capacities port }
        ensures accepts { AcceptsAll (Self.cell self.old) port tokens.now (Self.cell self.new) }
    {
        for &token in tokens {
            self.accept(port, token);
        }
    }
}
