//! Feeds in memory.

ghost use Rattle.std.specs.Prelude.{◌≡◌, ◌≤◌, ◌<◌, ◌++◌, ◌∷◌, ◌+◌, ℕ, List, [], Bool, IsTrue, true, false, Option, None, Some, IfSome, IfOk, OnOk, OnErr, IsSome, is_some, is_none, is_err, map, length, take, drop, replicate, slice_set, unwrap_or};
ghost use Rattle.rvc_io.specs.Feeds.{FailsOn, Moves, OpensOn, OpensOnly, PullsOnly};
ghost use Rattle.rvc_io.specs.Calls.{CallCount, is_listed, after_call};
ghost use Rattle.rvc_io.specs.Files.{named, are_distinct, under, bytes_at};
ghost use Rattle.rvc_io.specs.MemFeeds.{FeedsState, left_on, feed_is_open, bytes_left, count_left, inputs_of, opening_fails, moved};
ghost use Rattle.rvc_io.specs.Past.{Done, Opened, Passed};

use crate::calls::Calls;
use crate::files::{bytes_at, place_of};
use crate::{Act, Failed, Feeds, Past};
use rvc_base::Memory;
use std::alloc::Global;
use std::marker::Model;

/// How far a file was read: its place among the files, and the offset of the next byte.
#[derive(Clone, Copy, Debug)]
pub(crate) struct Reading {
    place: usize,
    at: usize,
}

/// Feeds of files in memory, of which all is told. The calls whose numbers are listed fail.
#[derive(Drop)]
pub struct MemFeeds {
    files: Vec<(String, Vec<u8>)>,
    step: u32,
    readings: Vec<Option<Reading>>,
    calls: Calls,
    past: Past,
}

impl Model for MemFeeds {
    ghost use Rattle.std.specs.Prelude.{◌<◌, ◌≤◌, List, Option, None, Some, All, length, map};
    ghost use Rattle.rvc_io.specs.Files.{named};
    ghost use Rattle.rvc_io.specs.MemFeeds.{FeedsState, left_of_each, AreWithin};

    ghost Value = { FeedsState };

    ghost view = { λ f. record {
      files = map named f.files.items;
      step = f.step;
      left = left_of_each
          (map named f.files.items) f.readings.items;
      calls = f.calls;
      past = f.past.acts;
    } };

    ghost invariant = { λ f. (0 < f.step) × AreWithin (map named f.files.items) f.readings.items };
}

impl MemFeeds {
    /// Feeds, numbered below `feeds`, of these files, each a name and its bytes. A call moves at
    /// most `step` bytes. `failing` lists the numbers of the calls that are to fail; calls are
    /// numbered from 1, openings included.
    ///
    /// [`crate::names_are_distinct`] tests the condition on the names.
    ///
    /// # Errors
    ///
    /// `Memory` if memory runs out.
    pub fn new(
        alloc: Global,
        files: Vec<(String, Vec<u8>)>,
        failing: Vec<u64>,
        step: u32,
        feeds: u32,
    ) -> Result<MemFeeds, Memory>
        requires distinct { IsTrue (are_distinct (map named files.items)) }
        requires moves { 0 < step }
        ensures files { IfOk result (λ f. f.files ≡ map named files.items) }
        ensures step { IfOk result (λ f. f.step ≡ step) }
        ensures none_open { IfOk result (λ f. f.left ≡ replicate feeds None) }
        ensures calls { IfOk result (λ f. f.calls ≡ record
            { failing = failing.items; made = 0; faults = 0 }) }
        ensures past { IfOk result (λ f. f.past ≡ []) }
    {
        let readings = no_readings(alloc, feeds)?;
        Ok(MemFeeds {
            files,
            step,
            readings,
            calls: Calls::new(failing),
            past: Past::new(),
        })
    }

    /// The place of the file that `feed` is to read, if the next call may open it.
    fn place_to_open(&self, feed: u32, name: &str) -> Option<usize>
        ensures fails { is_none result ≡ opening_fails self.now feed name.now }
        ensures feed { IsSome result → feed < length self.now.left }
        ensures place { IfSome result (λ place. place < length self.now.files) }
        ensures bytes { IfSome result (λ place. under self.now.files name.now
            ≡ Some (bytes_at self.now.files place)) }
    {
        if self.calls.is_listed() || feed as usize >= self.readings.len() {
            return None;
        }
        place_of(&self.files, name)
    }

    /// Keeps how far the file of `feed` was read.
    fn set_reading(&mut self, feed: u32, reading: Reading)
        requires feed { feed < length self.old.left }
        requires place { reading.place < length self.old.files }
        requires at { reading.at ≤ length (bytes_at self.old.files reading.place) }
        ensures left { self.new.left ≡ slice_set self.old.left feed
            (Some (drop reading.at (bytes_at self.old.files reading.place))) }
        ensures files { self.new.files ≡ self.old.files }
        ensures step { self.new.step ≡ self.old.step }
        ensures calls { self.new.calls ≡ self.old.calls }
        ensures past { self.new.past ≡ self.old.past }
    {
        self.readings[feed as usize] = Some(reading);
    }

    /// How far the file of an open feed was read.
    fn reading(&self, feed: u32) -> Reading
        requires { feed_is_open self.now feed ≡ true }
        ensures place { result.place < length self.now.files }
        ensures at { result.at ≤ length (bytes_at self.now.files result.place) }
        ensures left { left_on self.now feed ≡ Some
            (drop result.at (bytes_at self.now.files result.place)) }
        ensures feed { feed < length self.now.left }
    {
        let Some(reading) = self.readings[feed as usize] else {
            unreachable!()
        };
        reading
    }

    /// What is left of the file that is read.
    fn rest(&self, reading: Reading) -> &[u8]
        requires place { reading.place < length self.now.files }
        requires at { reading.at ≤ length (bytes_at self.now.files reading.place) }
        ensures rest { result.now ≡ drop reading.at (bytes_at self.now.files reading.place) }
        ensures fits { reading.at + length result.now ≤ usize.MAX }
    {
        &bytes_at(&self.files, reading.place)[reading.at..]
    }
}

impl Feeds for MemFeeds {
    ghost feeds = { inputs_of };

    ghost past = { λ f. f.past };

    fn open(&mut self, feed: u32, name: &str) -> Result<(), Failed>
        requires { feed_is_open self.old feed ≡ false }
        ensures opened { OnOk result (OpensOn feed name.now (inputs_of self.old)
            (inputs_of self.new)) }
        ensures failed { OnErr result (FailsOn feed (inputs_of self.old) (inputs_of self.new)) }
        ensures elsewhere { OpensOnly inputs_of self.old self.new feed }
        ensures noted { OnOk result (self.new.past ≡ Opened feed name.now ∷ self.old.past) }
        ensures unnoted { OnErr result (self.new.past ≡ self.old.past) }

        // When it fails, and the whole change.
        ensures fails { is_err result ≡ opening_fails self.old feed name.now }
        ensures left { OnOk result (self.new.left ≡ slice_set self.old.left feed
            (under self.old.files name.now)) }
        ensures left_failed { OnErr result (self.new.left ≡ self.old.left) }
        ensures calls { self.new.calls ≡ after_call (is_err result) self.old.calls }
        ensures files { self.new.files ≡ self.old.files }
        ensures step { self.new.step ≡ self.old.step }
    {
        let place = self.place_to_open(feed, name);
        self.calls.count(place.is_none());
        let Some(place) = place else {
            return Err(Failed);
        };
        self.set_reading(feed, Reading { place, at: 0 });
        self.past.note(&Act::Opened(feed, name));
        Ok(())
    }

    fn pull(&mut self, feed: u32, buf: &mut [u8]) -> Result<usize, Failed>
        requires open { feed_is_open self.old feed ≡ true }
        requires room { 0 < length buf.old }
        ensures moved { IfOk result (λ n. n ≤ length buf.old) }
        ensures bytes { IfOk result (λ n. Moves n (left_on self.old feed) buf.old buf.new
            (left_on self.new feed)) }
        ensures failed { OnErr result (FailsOn feed (inputs_of self.old) (inputs_of self.new)) }
        ensures elsewhere { PullsOnly inputs_of self.old self.new feed }
        ensures noted { IfOk result (λ n. self.new.past
            ≡ Passed feed (take n buf.new) ∷ self.old.past) }
        ensures unnoted { OnErr result (self.new.past ≡ self.old.past) }

        // When it fails, how many bytes it moves, and the whole change.
        ensures fails { is_err result ≡ is_listed self.old.calls }
        ensures count { IfOk result (λ n. n ≡ moved self.old.step (length buf.old)
            (count_left self.old feed)) }
        ensures left { IfOk result (λ n. self.new.left
            ≡ slice_set self.old.left feed (Some (drop n (bytes_left self.old feed)))) }
        ensures failed_all { OnErr result (self.new.left ≡ self.old.left) }
        ensures failed_buffer { OnErr result (buf.new ≡ buf.old) }
        ensures calls { self.new.calls ≡ after_call (is_err result) self.old.calls }
        ensures files { self.new.files ≡ self.old.files }
        ensures step { self.new.step ≡ self.old.step }
    {
        let listed = self.calls.is_listed();
        self.calls.count(listed);
        if listed {
            return Err(Failed);
        }
        let reading = self.reading(feed);
        let step = self.step;
        let count = copy_front(self.rest(reading), buf, step);
        let at = reading.at + count;
        self.set_reading(feed, Reading { at, ..reading });
        self.past.note(&Act::Passed(feed, &buf[..count]));
        Ok(count)
    }
}

/// So many feeds, none of which is open.
fn no_readings(alloc: Global, feeds: u32) -> Result<Vec<Option<Reading>>, Memory>
    ensures { IfOk result (λ readings. readings.items ≡ replicate feeds None) }
{
    let mut readings = Vec::with_capacity(alloc, feeds as usize)?;
    for _feed in 0..feeds {
        readings.push(None)?;
    }
    Ok(readings)
}

/// Copies bytes from the front of `from` to the front of `to`, at most `step`, and says how many.
fn copy_front(from: &[u8], to: &mut [u8], step: u32) -> usize
    ensures count { result ≡ moved step (length to.old) (length from.now) }
    ensures bytes { to.new ≡ take result from.now ++ drop result to.old }
{
    let count = from.len().min(to.len()).min(step as usize);
    to[..count].copy_from_slice(&from[..count]);
    count
}
