//! The limits of all files together.

ghost use Rattle.std.specs.Prelude.{◌≡◌, ◌≤◌, ◌<◌, ◌+◌, ◌⊎◌, IfErr, OnOk};
ghost use Rattle.rvc_base.specs.Rules.{too_many_files};
ghost use Rattle.cal_files.specs.Loading.{max_bytes, max_files};
ghost use Rattle.cal_files.specs.Reads.{refusal_at};

use crate::fault::{LoadFault, refused};
use rvc_base::Rule;
use rvc_io::MAX_FILE_BYTES;

/// The most files that are read.
pub const MAX_FILES: usize = 1_024;

/// The most bytes that they have in all.
pub const MAX_BYTES: usize = 16_777_216;

/// Refuses a file that would have this number and this many bytes, behind so many bytes, if a limit is passed.
///
/// # Errors
///
/// `Refused`: its number, or the bytes of all files, pass a limit (`passes`).
pub fn check_limits(number: u32, bytes: usize, size: usize) -> Result<(), LoadFault>
    requires before { bytes ≤ MAX_BYTES }
    requires short { size ≤ MAX_FILE_BYTES }
    ensures few { OnOk result (number ≤ max_files) }
    ensures small { OnOk result (bytes + size ≤ max_bytes) }
    ensures refused { IfErr result (λ fault. fault
        ≡ LoadFault.Refused (refusal_at too_many_files number 0)) }
    ensures passes { IfErr result (λ _. (max_files < number) ⊎ (max_bytes < bytes + size)) }
{
    if number as usize > MAX_FILES {
        return Err(refused(Rule::TOO_MANY_FILES, number, 0));
    }
    if bytes + size > MAX_BYTES {
        return Err(refused(Rule::TOO_MANY_FILES, number, 0));
    }
    Ok(())
}
