//! The parts of a runner, made before its run.

ghost use Rattle.std.specs.Prelude.{◌≡◌, ◌≤◌, ℕ, [], IfOk, length, map, slice_index_or};
ghost use Rattle.net_state.specs.Held.{HoldFew, capacity_of};
ghost use Rattle.network_runner.specs.Asking.{HavePortSizes};
ghost use Rattle.network_runner.specs.Making.{AreOutletsOf, AreReadersOf, CountNothing, IsReaderOf};

use crate::sending::Outlet;
use channel_writer::ChannelWriter;
use net_model::{Counts, End, Link, Port};
use net_state::Filled;
use port_files::TokenFeed;
use rvc_base::Memory;
use std::alloc::Global;

/// The outputs of a network, each with a channel if a word names it.
pub fn outlets_of(alloc: Global, outs: &[Port], open_outs: &[bool]) -> Result<Vec<Outlet>, Memory>
    requires told { length open_outs.now ≡ length outs.now }
    ensures { IfOk result (λ v. AreOutletsOf outs.now open_outs.now v.items) }
{
    let mut outlets = Vec::with_capacity(alloc, outs.len())?;
    for p in 0..outs.len() {
        outlets.push(Outlet {
            kind: outs[p].kind,
            is_open: open_outs[p],
        })?;
    }
    Ok(outlets)
}

/// For each link the reader of its feed, if it has one: its tokens have the type of the network's port.
pub fn readers_of(
    alloc: Global,
    links: &[Link],
    ins: &[Port],
    open_ins: &[bool],
) -> Result<Vec<Option<TokenFeed>>, Memory>
    requires told { length open_ins.now ≡ length ins.now }
    requires sizes { HavePortSizes ins.now }
    ensures { IfOk result (λ v. AreReadersOf ins.now open_ins.now links.now v.items) }
{
    let mut readers = Vec::with_capacity(alloc, links.len())?;
    for l in 0..links.len() {
        let reader = reader_of(alloc, &links[l], ins, open_ins)?;
        readers.push(reader)?;
    }
    Ok(readers)
}

/// The reader of a link's feed, if it has one.
fn reader_of(
    alloc: Global,
    link: &Link,
    ins: &[Port],
    open_ins: &[bool],
) -> Result<Option<TokenFeed>, Memory>
    requires told { length open_ins.now ≡ length ins.now }
    requires sizes { HavePortSizes ins.now }
    ensures { IfOk result (λ reader. IsReaderOf ins.now open_ins.now link.now reader) }
{
    let End::Net { port } = link.from else {
        return Ok(None);
    };
    let p = port as usize;
    if p >= ins.len() || !open_ins[p] {
        return Ok(None);
    }
    Ok(Some(TokenFeed::new(alloc, ins[p].kind)?))
}

/// So many writers, which buffer nothing.
pub fn writers_of(alloc: Global, count: usize) -> Result<Vec<ChannelWriter>, Memory>
    ensures count { IfOk result (λ v. length v.items ≡ count) }
    ensures empty { IfOk result (λ v. (p : ℕ) → slice_index_or v.items p [] ≡ []) }
{
    let mut writers = Vec::with_capacity(alloc, count)?;
    for _k in 0..count {
        writers.push(ChannelWriter::new(alloc)?)?;
    }
    Ok(writers)
}

/// A copy of the links. Their capacities fit 32 bits.
pub fn copy_of(alloc: Global, links: &[Link]) -> Result<Vec<Link>, Memory>
    ensures same { IfOk result (λ v. v.items ≡ links.now) }
    ensures few { IfOk result (λ _. HoldFew (map capacity_of links.now)) }
{
    let mut copy = Vec::with_capacity(alloc, links.len())?;
    for l in 0..links.len() {
        let Link {
            from,
            to,
            capacity,
            kind,
        } = links[l];
        copy.push(Link {
            from,
            to,
            capacity: fitting(capacity),
            kind,
        })?;
    }
    Ok(copy)
}

/// A number as it is. That a number fits 32 bits is known of an argument, and not of one inside a list of links.
fn fitting(number: u32) -> u32
    ensures same { result ≡ number }
    ensures few { number ≤ 4294967295 }
{
    number
}

/// The numbers of a run of which nothing was made yet.
pub fn no_counts(alloc: Global, links: usize, outs: usize) -> Result<Counts, Memory>
    ensures { IfOk result (CountNothing links outs) }
{
    let arrived = vec![in alloc; 0; links]?;
    let rests = vec![in alloc; 0; links]?;
    let sent = vec![in alloc; 0; outs]?;
    Ok(Counts {
        firings: 0,
        rounds: 0,
        arrived,
        rests,
        sent,
    })
}

/// Over so many links nothing came.
pub fn nothing_came(alloc: Global, links: usize) -> Result<Vec<Filled>, Memory>
    ensures { IfOk result (λ v. length v.items ≡ links) }
{
    let none = Filled {
        tokens: 0,
        rest: None,
    };
    Ok(vec![in alloc; none; links]?)
}

/// So many instances, none of which is picked.
pub fn no_marks(alloc: Global, count: usize) -> Result<Vec<bool>, Memory>
    ensures { IfOk result (λ v. length v.items ≡ count) }
{
    Ok(vec![in alloc; false; count]?)
}
