//! Bytes that go out, by channel.

ghost use Rattle.std.specs.Prelude.{◌≡◌, ◌≤◌, ◌<◌, ◌∷◌, List, true, false, length, take, OnOk, OnErr, IfOk};
ghost use Rattle.rvc_io.specs.Channels.{Channels, Appends, ChangesOnly, FailsAt, OpensAt, WritesOnly};
ghost use Rattle.rvc_io.specs.Past.{Done, Opened, Passed};

use crate::Failed;

/// Channels that take bytes, by number. Channel 0 is open from the start; each other is opened once.
pub trait Drains {
    /// What is known of the channels.
    ghost channels: { Self → Channels };
    /// What was done so far, the last first: which channels were opened, under which names, and which bytes they took.
    ghost past: { Self → List Done };

    /// Opens `channel` under `name`. It then holds nothing.
    ///
    /// # Errors
    ///
    /// `Failed` if the channel couldn't be opened: the failure is counted, and the channel is as it was (`failed`).
    fn open(&mut self, channel: u32, name: &str) -> Result<(), Failed>
        requires { (channels self.old).is_open channel ≡ false }
        ensures opened { OnOk result (OpensAt channel (channels self.old) (channels self.new)) }
        ensures failed { OnErr result (FailsAt channel (channels self.old) (channels self.new)) }
        ensures elsewhere { ChangesOnly channels self.old self.new channel }
        ensures noted { OnOk result (past self.new ≡ Opened channel name.now ∷ past self.old) }
        ensures unnoted { OnErr result (past self.new ≡ past self.old) };

    /// Puts a prefix of `piece` behind what `channel` holds, and says how many bytes it has.
    ///
    /// # Errors
    ///
    /// `Failed` if no byte could be put: the failure is counted, and the channel is as it was (`failed`).
    fn put(&mut self, channel: u32, piece: &[u8]) -> Result<usize, Failed>
        requires open { (channels self.old).is_open channel ≡ true }
        requires some { 0 < length piece.now }
        ensures least { IfOk result (λ n. 0 < n) }
        ensures most { IfOk result (λ n. n ≤ length piece.now) }
        ensures bytes { IfOk result (λ n. Appends channel (channels self.old) (channels self.new)
            (take n piece.now)) }
        ensures failed { OnErr result (FailsAt channel (channels self.old) (channels self.new)) }
        ensures elsewhere { WritesOnly channels self.old self.new channel }
        ensures noted { IfOk result (λ n. past self.new
            ≡ Passed channel (take n piece.now) ∷ past self.old) }
        ensures unnoted { OnErr result (past self.new ≡ past self.old) };
}
