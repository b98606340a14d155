//! Drains in memory.

ghost use Rattle.std.specs.Prelude.{◌≡◌, ◌≤◌, ◌<◌, ◌++◌, ◌∷◌, ◌-◌, ℕ, List, [], Bool, IsTrue, true, false, Option, None, Some, IfOk, OnOk, OnErr, is_some, is_err, if◌then◌else◌, length, take, replicate, slice_set, unwrap_or, vec_capacity};
ghost use Rattle.rvc_io.specs.Channels.{Appends, ChangesOnly, FailsAt, OpensAt, WritesOnly};
ghost use Rattle.rvc_io.specs.Calls.{CallCount, is_listed, after_call};
ghost use Rattle.rvc_io.specs.MemDrains.{DrainsState, HasRoom, EachHasRoom, held_by, held_by_each, held_on, channel_is_open, bytes_held, channels_of, opening_fails, put_fails, taken};
ghost use Rattle.rvc_io.specs.Past.{Done, Opened, Passed};

use crate::calls::Calls;
use crate::{Act, Drains, Failed, Past};
use rvc_base::Memory;
use std::alloc::Global;
use std::marker::Model;

/// A channel, and the bytes that it holds.
#[derive(Drop)]
pub(crate) struct Channel {
    is_open: bool,
    bytes: Vec<u8>,
}

/// Channels that hold their bytes in memory, and tell them. The calls whose numbers are listed fail.
#[derive(Drop)]
pub struct MemDrains {
    step: u32,
    room: u32,
    channels: Vec<Channel>,
    calls: Calls,
    past: Past,
}

impl Model for MemDrains {
    ghost use Rattle.std.specs.Prelude.{◌<◌};
    ghost use Rattle.rvc_io.specs.MemDrains.{DrainsState, held_by_each, EachHasRoom};

    ghost Value = { DrainsState };

    ghost view = { λ d. record {
      step = d.step;
      room = d.room;
      held = held_by_each d.channels.items;
      calls = d.calls;
      past = d.past.acts;
    } };

    ghost invariant = { λ d. (0 < d.step) × EachHasRoom d.room d.channels.items };
}

impl MemDrains {
    /// Channels, numbered below `channels`, of which channel 0 is open. A call moves at most `step`
    /// bytes, and a channel holds at most `room`. `failing` lists the numbers of the calls that are
    /// to fail; calls are numbered from 1, openings included.
    ///
    /// # Errors
    ///
    /// `Memory` if memory runs out.
    pub fn new(
        alloc: Global,
        failing: Vec<u64>,
        step: u32,
        channels: u32,
        room: u32,
    ) -> Result<MemDrains, Memory>
        requires moves { 0 < step }
        requires some { 0 < channels }
        ensures step { IfOk result (λ d. d.step ≡ step) }
        ensures room { IfOk result (λ d. d.room ≡ room) }
        ensures first_open { IfOk result (λ d. d.held ≡ Some [] ∷ replicate (channels - 1) None) }
        ensures calls { IfOk result (λ d. d.calls ≡ record
            { failing = failing.items; made = 0; faults = 0 }) }
        ensures past { IfOk result (λ d. d.past ≡ []) }
    {
        let channels = empty_channels(alloc, channels, room)?;
        Ok(MemDrains {
            step,
            room,
            channels,
            calls: Calls::new(failing),
            past: Past::new(),
        })
    }

    /// The bytes that `channel` holds, and nothing if it isn't open.
    pub fn held(&self, channel: u32) -> &[u8]
        ensures { result.now ≡ bytes_held self.now channel }
    {
        match self.channels.get(channel as usize) {
            Some(channel) => channel.bytes.as_slice(),
            None => &[],
        }
    }

    /// Whether the next call fails if it is to open `channel`.
    fn opening_fails(&self, channel: u32) -> bool
        ensures { result ≡ opening_fails self.now channel }
    {
        self.calls.is_listed() || channel as usize >= self.channels.len()
    }

    /// Whether the next call fails if it is to put bytes on an open channel.
    fn put_fails(&self, channel: u32) -> bool
        ensures { result ≡ put_fails self.now channel }
    {
        self.calls.is_listed() || self.held(channel).len() >= self.room as usize
    }

    /// How many bytes a call takes of a piece of this length.
    fn taken(&self, channel: u32, piece: usize) -> usize
        requires { length (bytes_held self.now channel) < self.now.room }
        ensures taken { result ≡ taken self.now piece (length (bytes_held self.now channel)) }
        ensures some { 0 < piece → 0 < result }
    {
        let free = self.room as usize - self.held(channel).len();
        piece.min(self.step as usize).min(free)
    }

    /// Opens `channel`.
    fn set_open(&mut self, channel: u32)
        requires there { channel < length self.old.held }
        requires closed { channel_is_open self.old channel ≡ false }
        ensures held { self.new.held ≡ slice_set self.old.held channel (Some []) }
        ensures step { self.new.step ≡ self.old.step }
        ensures room { self.new.room ≡ self.old.room }
        ensures calls { self.new.calls ≡ self.old.calls }
        ensures past { self.new.past ≡ self.old.past }
    {
        self.channels[channel as usize].is_open = true;
    }

    /// Puts `piece` behind what an open channel holds, in the room that it has.
    fn append(&mut self, channel: u32, piece: &[u8])
        requires open { channel_is_open self.old channel ≡ true }
        requires room { length piece.now ≤ self.old.room - length (bytes_held self.old channel) }
        ensures held { self.new.held ≡ slice_set self.old.held channel
            (Some (bytes_held self.old channel ++ piece.now)) }
        ensures step { self.new.step ≡ self.old.step }
        ensures room { self.new.room ≡ self.old.room }
        ensures calls { self.new.calls ≡ self.old.calls }
        ensures past { self.new.past ≡ self.old.past }
    {
        let Ok(()) = self.channels[channel as usize]
            .bytes
            .extend_from_slice(piece)
        else {
            unreachable!()
        };
    }
}

impl Drains for MemDrains {
    ghost channels = { channels_of };

    ghost past = { λ d. d.past };

    fn open(&mut self, channel: u32, name: &str) -> Result<(), Failed>
        requires { channel_is_open self.old channel ≡ false }
        ensures opened { OnOk result (OpensAt channel (channels_of self.old)
            (channels_of self.new)) }
        ensures failed { OnErr result (FailsAt channel (channels_of self.old)
            (channels_of self.new)) }
        ensures elsewhere { ChangesOnly channels_of self.old self.new channel }
        ensures noted { OnOk result (self.new.past ≡ Opened channel name.now ∷ self.old.past) }
        ensures unnoted { OnErr result (self.new.past ≡ self.old.past) }

        // When it fails, and the whole change.
        ensures fails { is_err result ≡ opening_fails self.old channel }
        ensures held { OnOk result (self.new.held ≡ slice_set self.old.held channel (Some [])) }
        ensures failed_all { OnErr result (self.new.held ≡ self.old.held) }
        ensures calls { self.new.calls ≡ after_call (is_err result) self.old.calls }
        ensures step { self.new.step ≡ self.old.step }
        ensures room { self.new.room ≡ self.old.room }
    {
        let fails = self.opening_fails(channel);
        self.calls.count(fails);
        if fails {
            return Err(Failed);
        }
        self.set_open(channel);
        self.past.note(&Act::Opened(channel, name));
        Ok(())
    }

    fn put(&mut self, channel: u32, piece: &[u8]) -> Result<usize, Failed>
        requires open { channel_is_open self.old channel ≡ true }
        requires some { 0 < length piece.now }
        ensures least { IfOk result (λ n. 0 < n) }
        ensures most { IfOk result (λ n. n ≤ length piece.now) }
        ensures bytes { IfOk result (λ n. Appends channel (channels_of self.old)
            (channels_of self.new) (take n piece.now)) }
        ensures failed { OnErr result (FailsAt channel (channels_of self.old)
            (channels_of self.new)) }
        ensures elsewhere { WritesOnly channels_of self.old self.new channel }
        ensures noted { IfOk result (λ n. self.new.past
            ≡ Passed channel (take n piece.now) ∷ self.old.past) }
        ensures unnoted { OnErr result (self.new.past ≡ self.old.past) }

        // When it fails, how many bytes it takes, and the whole change.
        ensures fails { is_err result ≡ put_fails self.old channel }
        ensures count { IfOk result (λ n. n ≡ taken self.old (length piece.now)
            (length (bytes_held self.old channel))) }
        ensures held { IfOk result (λ n. self.new.held
            ≡ slice_set self.old.held channel (Some
            (bytes_held self.old channel ++ take n piece.now))) }
        ensures failed_all { OnErr result (self.new.held ≡ self.old.held) }
        ensures calls { self.new.calls ≡ after_call (is_err result) self.old.calls }
        ensures step { self.new.step ≡ self.old.step }
        ensures room { self.new.room ≡ self.old.room }
    {
        let fails = self.put_fails(channel);
        self.calls.count(fails);
        if fails {
            return Err(Failed);
        }
        let count = self.taken(channel, piece.len());
        self.append(channel, &piece[..count]);
        self.past.note(&Act::Passed(channel, &piece[..count]));
        Ok(count)
    }
}

/// So many channels, each with memory for `room` bytes; the first is open.
fn empty_channels(alloc: Global, channels: u32, room: u32) -> Result<Vec<Channel>, Memory>
    requires { 0 < channels }
    ensures held { IfOk result (λ made. held_by_each made.items
        ≡ Some [] ∷ replicate (channels - 1) None) }
    ensures room { IfOk result (λ made. EachHasRoom room made.items) }
{
    let mut made = Vec::with_capacity(alloc, channels as usize)?;
    made.push(empty_channel(alloc, room, true)?)?;
    for _closed in 0..channels - 1 {
        made.push(empty_channel(alloc, room, false)?)?;
    }
    Ok(made)
}

/// A channel with memory for `room` bytes that holds nothing.
fn empty_channel(alloc: Global, room: u32, is_open: bool) -> Result<Channel, Memory>
    ensures held { IfOk result (λ made. held_by made ≡ (if is_open then Some [] else None)) }
    ensures room { IfOk result (λ made. HasRoom room made) }
{
    let bytes = Vec::with_capacity(alloc, room as usize)?;
    Ok(Channel { is_open, bytes })
}
