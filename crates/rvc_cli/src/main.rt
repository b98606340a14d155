//! The program `rvc`: its words, the files of the system, and the top call.
#![tactic(auto)]

#[cfg(test)]
mod rows;

use rvc_io::OpenGate;
use rvc_real::{FileDrains, FileFeeds, FolderLibrary, SeenFiles, hold_standard_streams};
use rvc_top::rvc;
use std::alloc::AllocError;
use std::env;
use std::io::ErrorKind;
use std::process::ExitCode;

fn main(rt: HostRuntime) -> ExitCode {
    let Ok(words) = read_arguments(&rt) else {
        return ExitCode::from(8);
    };
    let _held = hold_standard_streams(&rt);
    let seen = SeenFiles::new(rt.alloc());
    let mut library = FolderLibrary::new(&rt, &seen);
    let mut feeds = FileFeeds::new(&rt, &seen, rt.alloc());
    let mut drains = FileDrains::new(&rt, &seen, rt.alloc());
    let status = rvc(
        &rt,
        rt.alloc(),
        words.as_slice(),
        &mut library,
        &mut feeds,
        &mut drains,
        &OpenGate,
    );
    ExitCode::from(status.code())
}

/// The words of the command line. Words that aren't text are no job, like no words.
///
/// # Errors
///
/// `AllocError` if memory runs out.
fn read_arguments(rt: &HostRuntime) -> Result<Vec<String>, AllocError> {
    match env::args(rt) {
        Ok(words) => words.collect(rt.alloc()),
        Err(e) if e.kind() == ErrorKind::OutOfMemory => Err(AllocError),
        Err(_) => Ok(Vec::new(rt.alloc())),
    }
}
