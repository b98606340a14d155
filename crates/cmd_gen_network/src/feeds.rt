//! The feeds of the generator's network.

ghost use Rattle.std.specs.Prelude.{◌≡◌, ◌≤◌, ◌<◌, ◌+◌, ◌++◌, IfOk, MatchOption, None, Some, [], drop, length, min, replicate, slice_set, take, true};
ghost use Rattle.cmd_gen_network.specs.Feed.{bytes_of};
ghost use Rattle.cmd_gen_network.specs.Objects.{feed_is_open, inputs_of, pulled_on};

use crate::feed::feed_bytes;
use rvc_base::Memory;
use rvc_io::{Act, Failed, Feeds, Past};
use std::alloc::Global;
use std::marker::Model;

/// Feeds that all have the same bytes, whatever names they are opened by. All is told of them, and no call fails: feeds
/// behind the last count as open from the start, with nothing left, so they can't be opened.
#[derive(Drop)]
pub struct GeneratedFeeds {
    bytes: Vec<u8>,
    /// For each feed how many bytes of it were pulled, if it is open.
    pulled: Vec<Option<usize>>,
    past: Past,
}

impl Model for GeneratedFeeds {
    ghost use Rattle.std.specs.Prelude.{All};
    ghost use Rattle.cmd_gen_network.specs.Objects.{FeedsState, IsWithin};

    ghost Value = { FeedsState };

    ghost view = { λ f. record {
      bytes = f.bytes.items;
      pulled = f.pulled.items;
      past = f.past.acts;
    } };

    ghost invariant = { λ f. All (IsWithin f.bytes.items) f.pulled.items };
}

impl GeneratedFeeds {
    /// How many bytes of a feed were pulled, if it is open and not one behind the last.
    fn count(&self, feed: u32) -> Option<usize>
        requires { feed_is_open self.now feed ≡ true }
        ensures { MatchOption result (length self.now.pulled ≤ feed) (λ count.
            (feed < length self.now.pulled) × (count ≤ length self.now.bytes)
            × (pulled_on self.now feed ≡ Some count)) }
    {
        match self.pulled.get(feed as usize) {
            Some(count) => *count,
            None => None,
        }
    }

    /// Says how many bytes of a feed were pulled.
    fn set_count(&mut self, feed: u32, count: usize)
        requires feed { feed < length self.old.pulled }
        requires count { count ≤ length self.old.bytes }
        ensures pulled { self.new.pulled ≡ slice_set self.old.pulled feed (Some count) }
        ensures bytes { self.new.bytes ≡ self.old.bytes }
        ensures past { self.new.past ≡ self.old.past }
    {
        self.pulled[feed as usize] = Some(count);
    }

    /// What is left behind so many bytes.
    fn rest(&self, count: usize) -> &[u8]
        requires { count ≤ length self.now.bytes }
        ensures rest { result.now ≡ drop count self.now.bytes }
        ensures inside { count + length result.now ≤ length self.now.bytes }
        ensures fits { count + length result.now ≤ usize.MAX }
    {
        &self.bytes[count..]
    }
}

impl Feeds for GeneratedFeeds {
    ghost feeds = { inputs_of };

    ghost past = { λ f. f.past };

    fn open(&mut self, feed: u32, name: &str) -> Result<(), Failed> {
        self.set_count(feed, 0);
        self.past.note(&Act::Opened(feed, name));
        Ok(())
    }

    fn pull(&mut self, feed: u32, buf: &mut [u8]) -> Result<usize, Failed> {
        let Some(count) = self.count(feed) else {
            self.past.note(&Act::Passed(feed, &buf[..0]));
            return Ok(0);
        };
        let moved = copy_front(self.rest(count), buf);
        self.set_count(feed, count + moved);
        self.past.note(&Act::Passed(feed, &buf[..moved]));
        Ok(moved)
    }
}

/// Copies bytes from the front of `from` to the front of `to`, as many as there are and fit, and says how many.
fn copy_front(from: &[u8], to: &mut [u8]) -> usize
    ensures count { result ≡ min (length from.now) (length to.old) }
    ensures bytes { to.new ≡ take result from.now ++ drop result to.old }
{
    let count = from.len().min(to.len());
    to[..count].copy_from_slice(&from[..count]);
    count
}

/// Feeds, numbered below `feeds`, that each have the bytes of the input of a network of so many instances. None is open.
///
/// # Errors
///
/// `Memory` if memory runs out.
pub fn generated_feeds(alloc: Global, instances: u32, feeds: u32) -> Result<GeneratedFeeds, Memory>
    ensures bytes { IfOk result (λ f. f.bytes ≡ bytes_of instances) }
    ensures none_open { IfOk result (λ f. f.pulled ≡ replicate feeds None) }
    ensures past { IfOk result (λ f. f.past ≡ []) }
{
    let bytes = feed_bytes(alloc, instances)?;
    let pulled = none_open(alloc, feeds)?;
    Ok(GeneratedFeeds {
        bytes,
        pulled,
        past: Past::new(),
    })
}

/// So many feeds, none of which is open.
fn none_open(alloc: Global, feeds: u32) -> Result<Vec<Option<usize>>, Memory>
    ensures { IfOk result (λ pulled. pulled.items ≡ replicate feeds None) }
{
    let mut pulled = Vec::with_capacity(alloc, feeds as usize)?;
    for _feed in 0..feeds {
        pulled.push(None)?;
    }
    Ok(pulled)
}
