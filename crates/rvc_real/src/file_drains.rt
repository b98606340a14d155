//! Channels that are files, and standard output.

ghost use Rattle.std.specs.Prelude.{◌≡◌, ◌≢◌, ◌≤◌, ◌<◌, ◌++◌, ◌∷◌, ℕ, [], true, false, length, take, OnOk, OnErr, IfOk, is_err};
ghost use Rattle.rvc_io.specs.Channels.{Appends, ChangesOnly, FailsAt, OpensAt, WritesOnly};
ghost use Rattle.rvc_io.specs.Elsewhere.{SameElsewhere};
ghost use Rattle.rvc_io.specs.Past.{Opened, Passed};
ghost use Rattle.rvc_real.specs.Counting.{counted};
ghost use Rattle.rvc_real.specs.Open.{OpenState, channel_is_open, channels_of};

use crate::open_files::OpenFiles;
use crate::seen_files::{SeenFiles, are_one_file};
use rvc_io::{Act, Drains, Failed, Past};
use std::alloc::Global;
use std::fs::{Metadata, OpenFile, OpenOptions};
use std::io::Write;
use std::marker::Model;
use std::rt::Files;
use std::{fs, io};

/// The name of standard output among the files.
const STANDARD_OUTPUT: &str = "/dev/stdout";

/// Channels of which number 0 is standard output and each other is a file. What is told of their bytes are those that
/// they took. A refused growth is a failure too.
///
/// A regular file that the run has seen, or that is its standard output, is opened as no other channel, by whatever name:
/// that is a failure, and the file stays as it is.
#[derive(Drop)]
pub struct FileDrains<'a, R: Files> {
    rt: R,
    seen: &'a SeenFiles,
    files: OpenFiles<R::File>,
    faults: u64,
    past: Past,
}

impl<'a, R: Files> Model for FileDrains<'a, R> {
    ghost use Rattle.rvc_real.specs.Open.{OpenState};

    ghost Value = { OpenState };

    ghost view = { λ d. record { flags = d.files; faults = d.faults; past = d.past.acts } };
}

impl<'a, R: Files + Print> FileDrains<'a, R> {
    /// Channels of the standard output of `rt` and of files that it creates, none of which `seen`
    /// has. Only channel 0 is open.
    pub fn new(rt: R, seen: &'a SeenFiles, alloc: Global) -> FileDrains<'a, R>
        ensures fresh { result ≡ record { flags = []; faults = 0; past = [] } }
        ensures output_open { channel_is_open result 0 ≡ true }
        ensures others_closed { (channel : ℕ) → channel ≢ 0
            → channel_is_open result channel ≡ false }
    {
        FileDrains {
            rt,
            seen,
            files: OpenFiles::new(alloc),
            faults: 0,
            past: Past::new(),
        }
    }

    /// Creates the file `name`, or empties it if it wasn't seen, as `channel`, and says whether that
    /// could be done.
    #[tactic(auto, using(crate::proofs::OpenLemmas::set_here, crate::proofs::OpenLemmas::set_elsewhere))]
    fn create_file(&mut self, channel: u32, name: &str) -> bool
        ensures opened { result ≡ true → channel_is_open self.new channel ≡ true }
        ensures closed { result ≡ false
            → channel_is_open self.new channel ≡ channel_is_open self.old channel }
        ensures same_open { SameElsewhere (channel_is_open self.old) (channel_is_open self.new)
            channel }
        ensures faults { self.new.faults ≡ self.old.faults }
        ensures past { self.new.past ≡ self.old.past }
    {
        if self.files.make_room(channel).is_err() {
            return false;
        }
        let Some(created) = create_unseen(&self.rt, self.seen, name) else {
            return false;
        };
        self.files.keep(channel, created);
        true
    }

    /// Writes bytes from the front of `piece` to `channel`, and says how many.
    #[tactic(auto, using(crate::proofs::OpenLemmas::put_back))]
    fn write_some(&mut self, channel: u32, piece: &[u8]) -> io::Result<usize>
        requires open { channel_is_open self.old channel ≡ true }
        ensures most { IfOk result (λ n. n ≤ length piece.now) }
        ensures same_open { (other : ℕ)
            → channel_is_open self.new other ≡ channel_is_open self.old other }
        ensures faults { self.new.faults ≡ self.old.faults }
        ensures past { self.new.past ≡ self.old.past }
    {
        if channel == 0 {
            return self.rt.write_some(piece);
        }
        let mut file = self.files.take(channel);
        let written = file.write(piece);
        self.files.keep(channel, file);
        written
    }
}

impl<'a, R: Files + Print> Drains for FileDrains<'a, R> {
    ghost channels = { channels_of };

    ghost past = { λ d. d.past };

    fn open(&mut self, channel: u32, name: &str) -> Result<(), Failed>
        requires { channel_is_open self.old channel ≡ false }
        ensures opened { OnOk result (OpensAt channel (channels_of self.old)
            (channels_of self.new)) }
        ensures failed { OnErr result (FailsAt channel (channels_of self.old)
            (channels_of self.new)) }
        ensures elsewhere { ChangesOnly channels_of self.old self.new channel }
        ensures noted { OnOk result (self.new.past ≡ Opened channel name.now ∷ self.old.past) }
        ensures unnoted { OnErr result (self.new.past ≡ self.old.past) }

        // Each failure is counted once, and nothing else is.
        ensures counted { self.new.faults ≡ counted (is_err result) self.old.faults }
    {
        if !self.create_file(channel, name) {
            self.faults = self.faults.saturating_add(1);
            return Err(Failed);
        }
        self.past.note(&Act::Opened(channel, name));
        Ok(())
    }

    /// # Errors
    ///
    /// Those of [`Drains::put`]. `Failed` also if the write takes nothing (`least`).
    fn put(&mut self, channel: u32, piece: &[u8]) -> Result<usize, Failed>
        requires open { channel_is_open self.old channel ≡ true }
        requires some { 0 < length piece.now }
        ensures least { IfOk result (λ n. 0 < n) }
        ensures most { IfOk result (λ n. n ≤ length piece.now) }
        ensures bytes { IfOk result (λ n. Appends channel (channels_of self.old)
            (channels_of self.new) (take n piece.now)) }
        ensures failed { OnErr result (FailsAt channel (channels_of self.old)
            (channels_of self.new)) }
        ensures elsewhere { WritesOnly channels_of self.old self.new channel }
        ensures noted { IfOk result (λ n. self.new.past
            ≡ Passed channel (take n piece.now) ∷ self.old.past) }
        ensures unnoted { OnErr result (self.new.past ≡ self.old.past) }

        // Each failure is counted once, and nothing else is.
        ensures counted { self.new.faults ≡ counted (is_err result) self.old.faults }
    {
        match self.write_some(channel, piece) {
            Ok(count) if count > 0 => {
                self.past.note(&Act::Passed(channel, &piece[..count]));
                Ok(count)
            }
            _ => {
                self.faults = self.faults.saturating_add(1);
                Err(Failed)
            }
        }
    }
}

/// Opens the file `name` to write it, creates it if there is none, and empties it if it wasn't seen.
fn create_unseen<R: Files>(rt: &R, seen: &SeenFiles, name: &str) -> Option<R::File> {
    let file = OpenOptions::new()
        .write(true)
        .create(true)
        .open(rt, name)
        .ok()?;
    let found = file.metadata().ok()?;
    if found.is_file() {
        if seen.has(&found) || is_standard_output(rt, &found) {
            return None;
        }
        file.set_len(0).ok()?;
    }
    seen.note(&found).ok()?;
    Some(file)
}

/// Whether standard output is this file.
fn is_standard_output<R: Files>(rt: &R, found: &Metadata) -> bool {
    match fs::metadata(rt, STANDARD_OUTPUT) {
        Ok(output) => are_one_file(&output, found),
        Err(_) => false,
    }
}
