//! Bytes that come in, by feed.

ghost use Rattle.std.specs.Prelude.{◌≡◌, ◌≤◌, ◌<◌, ◌∷◌, List, true, false, length, take, OnOk, OnErr, IfOk};
ghost use Rattle.rvc_io.specs.Feeds.{Inputs, FailsOn, Moves, OpensOn, OpensOnly, PullsOnly};
ghost use Rattle.rvc_io.specs.Past.{Done, Opened, Passed};

use crate::Failed;

/// Feeds of bytes, by number. Each is opened once, by name, and then pulled to its end.
pub trait Feeds {
    /// What is known of the feeds.
    ghost feeds: { Self → Inputs };
    /// What was done so far, the last first: which feeds were opened, under which names, and which bytes they gave. A pull
    /// that gave no byte came to the end.
    ghost past: { Self → List Done };

    /// Opens `feed` on the bytes under `name`.
    ///
    /// # Errors
    ///
    /// `Failed` if the feed couldn't be opened: the failure is counted, and the feed is as it was (`failed`).
    fn open(&mut self, feed: u32, name: &str) -> Result<(), Failed>
        requires { (feeds self.old).is_open feed ≡ false }
        ensures opened { OnOk result (OpensOn feed name.now (feeds self.old) (feeds self.new)) }
        ensures failed { OnErr result (FailsOn feed (feeds self.old) (feeds self.new)) }
        ensures elsewhere { OpensOnly feeds self.old self.new feed }
        ensures noted { OnOk result (past self.new ≡ Opened feed name.now ∷ past self.old) }
        ensures unnoted { OnErr result (past self.new ≡ past self.old) };

    /// Moves a prefix of what is left on `feed` to the front of `buf`, and says how many bytes it has.
    ///
    /// 0 is the end of input.
    ///
    /// # Errors
    ///
    /// `Failed` if the feed couldn't be read: the failure is counted, and the feed is as it was (`failed`).
    fn pull(&mut self, feed: u32, buf: &mut [u8]) -> Result<usize, Failed>
        requires open { (feeds self.old).is_open feed ≡ true }
        requires room { 0 < length buf.old }
        ensures moved { IfOk result (λ n. n ≤ length buf.old) }
        ensures bytes { IfOk result (λ n. Moves n ((feeds self.old).left feed) buf.old buf.new
            ((feeds self.new).left feed)) }
        ensures failed { OnErr result (FailsOn feed (feeds self.old) (feeds self.new)) }
        ensures elsewhere { PullsOnly feeds self.old self.new feed }
        ensures noted { IfOk result (λ n. past self.new
            ≡ Passed feed (take n buf.new) ∷ past self.old) }
        ensures unnoted { OnErr result (past self.new ≡ past self.old) };
}
