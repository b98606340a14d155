//! A library, feeds and channels in memory.

ghost use Rattle.std.specs.Prelude.{◌≡◌, ◌≢◌, ℕ, true, false, IfOk};
ghost use Rattle.rvc_io.specs.MemDrains.{channels_of};
ghost use Rattle.rvc_io.specs.MemFeeds.{inputs_of};

use crate::files::{inputs, sources};
use rvc_base::Memory;
use rvc_io::{MemDrains, MemFeeds, MemLibrary, names_are_distinct};
use std::alloc::{AllocError, AllocFailed, Global};

/// Why an object isn't made.
#[derive(Clone, Copy, Debug, PartialEq, Eq)]
pub enum Unmade {
    Memory,
    /// Two files have one name.
    SameName,
    /// No call would move a byte.
    NoStep,
}

impl From<AllocError> for Unmade {
    fn from(_refused: AllocError) -> Unmade {
        Unmade::Memory
    }
}

impl<T: Drop> From<AllocFailed<T>> for Unmade {
    fn from(_refused: AllocFailed<T>) -> Unmade {
        Unmade::Memory
    }
}

impl From<Memory> for Unmade {
    fn from(_refused: Memory) -> Unmade {
        Unmade::Memory
    }
}

/// A library of its own files and of others, whose read of this number fails, counted from 1; 0 for none. In each text
/// `\n+ ` stands between two files, which are `NAME TEXT`; `\x7f` stands for the byte 255, which no text has.
///
/// # Errors
///
/// `SameName` if two files have one name, and `Memory` if memory runs out.
pub fn library(alloc: Global, own: &str, others: &str, read: u64) -> Result<MemLibrary, Unmade> {
    let files = sources(alloc, own, others)?;
    if !names_are_distinct(&files) {
        return Err(Unmade::SameName);
    }
    Ok(MemLibrary::new(files, vec![in alloc; read]?))
}

/// Closed feeds of inputs: `in` has the bytes 0, 1 and 255, `zero` has 5, 0 and 3, `one` has 7, `empty` has none, `four`
/// has 1 to 4, `block` four pairs of numbers of two bytes, and `t` is a trace, in which `/` ends each line. A call moves at most `step` bytes, and the call of this number fails, counted
/// from 1; 0 for none.
///
/// # Errors
///
/// `NoStep` if `step` is 0, and `Memory` if memory runs out.
pub fn feeds(alloc: Global, trace: &str, call: u64, step: u32) -> Result<MemFeeds, Unmade>
    ensures closed { IfOk result (λ feeds. (feed : ℕ) → (inputs_of feeds).is_open feed ≡ false) }
{
    let files = inputs(alloc, trace)?;
    if !names_are_distinct(&files) {
        return Err(Unmade::SameName);
    }
    if step == 0 {
        return Err(Unmade::NoStep);
    }
    let failing = vec![in alloc; call]?;
    Ok(MemFeeds::new(alloc, files, failing, step, 4)?)
}

/// Channels of which the one of the report is open. A call moves at most `step` bytes, a channel holds at most `room`,
/// and the call of this number fails, counted from 1; 0 for none.
///
/// # Errors
///
/// `NoStep` if `step` is 0, and `Memory` if memory runs out.
pub fn drains(alloc: Global, call: u64, step: u32, room: u32) -> Result<MemDrains, Unmade>
    ensures report_open { IfOk result (λ drains. (channels_of drains).is_open 0 ≡ true) }
    ensures others_closed { IfOk result (λ drains. (n : ℕ) → n ≢ 0
        → (channels_of drains).is_open n ≡ false) }
{
    if step == 0 {
        return Err(Unmade::NoStep);
    }
    let failing = vec![in alloc; call]?;
    Ok(MemDrains::new(alloc, failing, step, 4, room)?)
}
