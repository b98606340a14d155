//! Feeds that are files.

ghost use Rattle.std.specs.Prelude.{◌≡◌, ◌≤◌, ◌<◌, ◌∷◌, ℕ, List, [], true, false, length, take, OnOk, OnErr, IfOk, is_err};
ghost use Rattle.rvc_io.specs.Elsewhere.{SameElsewhere};
ghost use Rattle.rvc_io.specs.Feeds.{FailsOn, Moves, OpensOn, OpensOnly, PullsOnly};
ghost use Rattle.rvc_io.specs.Past.{Opened, Passed};
ghost use Rattle.rvc_real.specs.Counting.{counted};
ghost use Rattle.rvc_real.specs.Open.{OpenState, feed_is_open, inputs_of};

use crate::open_files::OpenFiles;
use crate::seen_files::SeenFiles;
use rvc_io::{Act, Failed, Feeds, Past};
use std::alloc::Global;
use std::fs;
use std::fs::OpenFile;
use std::io::Read;
use std::marker::Model;
use std::rt::Files;

/// Feeds that are files. Nothing is told of the bytes that are left on them. A refused growth is a failure too.
#[derive(Drop)]
pub struct FileFeeds<'a, R: Files> {
    rt: R,
    seen: &'a SeenFiles,
    files: OpenFiles<R::File>,
    faults: u64,
    past: Past,
}

impl<'a, R: Files> Model for FileFeeds<'a, R> {
    ghost use Rattle.rvc_real.specs.Open.{OpenState};

    ghost Value = { OpenState };

    ghost view = { λ f. record { flags = f.files; faults = f.faults; past = f.past.acts } };
}

impl<'a, R: Files> FileFeeds<'a, R> {
    /// Feeds of the files that `rt` opens, each of which `seen` is told. None is open yet.
    pub fn new(rt: R, seen: &'a SeenFiles, alloc: Global) -> FileFeeds<'a, R>
        ensures fresh { result ≡ record { flags = []; faults = 0; past = [] } }
        ensures none_open { (feed : ℕ) → feed_is_open result feed ≡ false }
    {
        FileFeeds {
            rt,
            seen,
            files: OpenFiles::new(alloc),
            faults: 0,
            past: Past::new(),
        }
    }

    /// Opens the file `name` as `feed`, and says whether that could be done.
    #[tactic(auto, using(crate::proofs::OpenLemmas::set_here, crate::proofs::OpenLemmas::set_elsewhere))]
    fn open_file(&mut self, feed: u32, name: &str) -> bool
        ensures opened { result ≡ true → feed_is_open self.new feed ≡ true }
        ensures closed { result ≡ false → feed_is_open self.new feed ≡ feed_is_open self.old feed }
        ensures same_open { SameElsewhere (feed_is_open self.old) (feed_is_open self.new) feed }
        ensures faults { self.new.faults ≡ self.old.faults }
        ensures past { self.new.past ≡ self.old.past }
    {
        if self.files.make_room(feed).is_err() {
            return false;
        }
        let Some(file) = open_seen(&self.rt, self.seen, name) else {
            return false;
        };
        self.files.keep(feed, file);
        true
    }
}

impl<'a, R: Files> Feeds for FileFeeds<'a, R> {
    ghost feeds = { inputs_of };

    ghost past = { λ f. f.past };

    fn open(&mut self, feed: u32, name: &str) -> Result<(), Failed>
        requires { feed_is_open self.old feed ≡ false }
        ensures opened { OnOk result (OpensOn feed name.now (inputs_of self.old)
            (inputs_of self.new)) }
        ensures failed { OnErr result (FailsOn feed (inputs_of self.old) (inputs_of self.new)) }
        ensures elsewhere { OpensOnly inputs_of self.old self.new feed }
        ensures noted { OnOk result (self.new.past ≡ Opened feed name.now ∷ self.old.past) }
        ensures unnoted { OnErr result (self.new.past ≡ self.old.past) }

        // Each failure is counted once, and nothing else is.
        ensures counted { self.new.faults ≡ counted (is_err result) self.old.faults }
    {
        if !self.open_file(feed, name) {
            self.faults = self.faults.saturating_add(1);
            return Err(Failed);
        }
        self.past.note(&Act::Opened(feed, name));
        Ok(())
    }

    #[tactic(auto, using(crate::proofs::OpenLemmas::put_back))]
    fn pull(&mut self, feed: u32, buf: &mut [u8]) -> Result<usize, Failed>
        requires open { feed_is_open self.old feed ≡ true }
        requires room { 0 < length buf.old }
        ensures moved { IfOk result (λ n. n ≤ length buf.old) }
        ensures bytes { IfOk result (λ n. Moves n ((inputs_of self.old).left feed) buf.old buf.new
            ((inputs_of self.new).left feed)) }
        ensures failed { OnErr result (FailsOn feed (inputs_of self.old) (inputs_of self.new)) }
        ensures elsewhere { PullsOnly inputs_of self.old self.new feed }
        ensures noted { IfOk result (λ n. self.new.past
            ≡ Passed feed (take n buf.new) ∷ self.old.past) }
        ensures unnoted { OnErr result (self.new.past ≡ self.old.past) }

        // Each failure is counted once, and nothing else is.
        ensures counted { self.new.faults ≡ counted (is_err result) self.old.faults }
    {
        let mut file = self.files.take(feed);
        let moved = file.read(buf);
        self.files.keep(feed, file);
        let Ok(count) = moved else {
            self.faults = self.faults.saturating_add(1);
            return Err(Failed);
        };
        self.past.note(&Act::Passed(feed, &buf[..count]));
        Ok(count)
    }
}

/// Opens the file `name` to read it, and notes which it is.
fn open_seen<R: Files>(rt: &R, seen: &SeenFiles, name: &str) -> Option<R::File> {
    let file = fs::open(rt, name).ok()?;
    let found = file.metadata().ok()?;
    seen.note(&found).ok()?;
    Some(file)
}
