//! The bytes of the generator's feed.

ghost use Rattle.std.specs.Prelude.{◌≡◌, ◌<◌, ◌++◌, ◌^◌, IfOk};
ghost use Rattle.cmd_gen_network.specs.Feed.{byte_of, bytes_of, first_bytes, next_seed};

use rvc_base::Memory;
use std::alloc::Global;

/// How many bytes the feed has.
pub const FEED_BYTES: u32 = 1024;

/// The bytes of the feed of a network of so many instances.
///
/// # Errors
///
/// `Memory` if memory runs out.
#[tactic(auto, unfolding(crate::specs::Feed::bytes_of))]
pub fn feed_bytes(alloc: Global, instances: u32) -> Result<Vec<u8>, Memory>
    ensures { IfOk result (λ bytes. bytes.items ≡ bytes_of instances) }
{
    first_bytes(alloc, FEED_BYTES, instances)
}

/// The bytes of so many numbers behind this one.
fn first_bytes(alloc: Global, count: u32, first: u32) -> Result<Vec<u8>, Memory>
    ensures { IfOk result (λ bytes. bytes.items ≡ first_bytes count first) }
{
    let mut bytes = Vec::with_capacity(alloc, count as usize)?;
    let mut seed = first;
    for _k in 0..count {
        seed = next_seed(seed);
        bytes.push(byte_of(seed))?;
    }
    Ok(bytes)
}

/// The number behind this one in the sequence.
fn next_seed(seed: u32) -> u32
    ensures next { result ≡ next_seed seed }
    ensures below { result < 2 ^ 31 }
{
    ((u64::from(seed) * 1_103_515_245 + 12_345) % 2_147_483_648) as u32
}

/// The byte that a number of the sequence gives.
fn byte_of(seed: u32) -> u8
    ensures { result ≡ byte_of seed }
{
    (seed / 65_536 % 256) as u8
}
