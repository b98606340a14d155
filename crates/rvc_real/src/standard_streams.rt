//! Standard streams that were closed before the program began.

use std::fs;
use std::fs::File;
use std::os::fd::AsRawFd;
use std::rt::Files;

/// The last of the numbers of standard streams: those of input, output and errors.
const LAST_STREAM: i32 = 2;

/// Takes the numbers of standard streams that are closed, as long as what it answers lives: else the first files that are
/// opened would have them, and the report would be written into one of these. What has them here can't be read or written.
pub fn hold_standard_streams<R: Files<File = File>>(rt: &R) -> [Option<File>; 3] {
    [hold_stream(rt), hold_stream(rt), hold_stream(rt)]
}

/// Takes the lowest number that is free, if it is that of a standard stream. The root folder has it then.
fn hold_stream<R: Files<File = File>>(rt: &R) -> Option<File> {
    let file = fs::open(rt, "/").ok()?;
    if file.as_raw_fd() > LAST_STREAM {
        return None;
    }
    Some(file)
}
