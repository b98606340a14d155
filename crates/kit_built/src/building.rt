//! The code of an actor, from a library with one file.

use cal_files::Names;
use lowered_actor::Lowered;
use network_check::BuildFault;
use rvc_base::Memory;
use rvc_engine::{Image, build};
use rvc_io::{MemLibrary, names_are_distinct};
use std::alloc::{AllocError, Global};
use std::sync::Arc;

/// A library with one file, which has this name.
fn library_of(alloc: Global, name: &str, source: &str) -> Result<Option<MemLibrary>, AllocError> {
    let mut files = Vec::new(alloc);
    let file = format!(in alloc; "{name}.cal")?;
    let bytes = Vec::from_slice(alloc, source.as_bytes())?;
    files.push((file, bytes))?;
    if !names_are_distinct(&files) {
        return Ok(None);
    }
    Ok(Some(MemLibrary::new(files, Vec::new(alloc))))
}

/// The code of the first actor of an image.
fn first_code(image: &Image) -> Result<Option<Arc<Lowered>>, Memory> {
    match image.codes.get(0) {
        Some(code) => Ok(Some(Arc::clone(code)?)),
        None => Ok(None),
    }
}

/// The code of the actor in this file of a library, and none if it is refused.
fn code_in(
    alloc: Global,
    library: &mut MemLibrary,
    file: &str,
) -> Result<Option<Arc<Lowered>>, Memory> {
    let mut names = Names::new(alloc);
    match build(alloc, library, file, &mut names) {
        Ok(image) => first_code(&image),
        Err(BuildFault::Memory) => Err(Memory),
        Err(_) => Ok(None),
    }
}

/// The code of the actor of a source, whose name stands between `actor ` and a parenthesis, and none if it is refused.
///
/// # Errors
///
/// `Memory` if memory runs out.
pub fn code_of(alloc: Global, source: &str) -> Result<Option<Arc<Lowered>>, Memory> {
    let (_, rest) = source.split_once("actor ").unwrap_or((source, ""));
    let (name, _) = rest.split_once("(").unwrap_or((rest, ""));
    let Some(mut library) = library_of(alloc, name, source)? else {
        return Ok(None);
    };
    let top = format!(in alloc; "{name}.cal")?;
    code_in(alloc, &mut library, top.as_str())
}
