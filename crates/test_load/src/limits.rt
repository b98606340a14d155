//! The limits of one file and of their number. That of all bytes is proved alone: to pass it takes a minute.

use cal_files::{Names, load};
use kit_files::outcome;
use rvc_base::Memory;
use rvc_io::{MAX_FILE_BYTES, MemLibrary, names_are_distinct};
use std::alloc::Global;
use std::process::Abort;

/// A text with blanks behind it, of so many bytes.
fn padded(a: Global, text: &str, size: usize) -> Result<Vec<u8>, Memory> {
    let mut bytes = Vec::from_slice(a, text.as_bytes())?;
    if size > bytes.len() {
        let blanks = vec![in a; b' '; size - bytes.len()]?;
        bytes.extend_from_slice(&blanks)?;
    }
    Ok(bytes)
}

/// An actor that imports so many units, and these; each file of so many bytes.
fn files(a: Global, units: u32, size: usize) -> Result<Vec<(String, Vec<u8>)>, Memory> {
    let mut all = Vec::new(a);
    let mut top = String::new(a);
    for unit in 0..units {
        let text = format!(in a; "unit U{unit} : end")?;
        all.push((
            format!(in a; "U{unit}.cal")?,
            padded(a, text.as_str(), size)?,
        ))?;
        let import = format!(in a; "import U{unit}.*; ")?;
        top.push_str(import.as_str())?;
    }
    top.push_str("actor A () ==> : end")?;
    all.push((
        String::from_str(a, "A.cal")?,
        padded(a, top.as_str(), size)?,
    ))?;
    Ok(all)
}

/// Loads an actor that imports so many units, each file of so many bytes, and says how that ended.
fn ends(rt: &impl Abort, a: Global, units: u32, size: usize, want: &str) {
    let files = files(a, units, size).expect(rt, "files");
    assert!(rt; names_are_distinct(&files));
    let mut library = MemLibrary::new(files, Vec::new(a));
    let mut names = Names::new(a);
    let fault = load(a, &mut library, "A", &mut names).err();
    let found = outcome(a, fault).expect(rt, "a text");
    let count = names.files.len();
    let text = format!(in a; "{found} of {count}").expect(rt, "a text");
    let holds = text.as_str() == want;
    assert!(rt; holds, "{want} is wanted, and {text} is given");
}

#[test]
fn one_file_is_long(rt: HostRuntime) {
    ends(&rt, rt.alloc(), 0, MAX_FILE_BYTES, "loaded of 1");
    ends(
        &rt,
        rt.alloc(),
        0,
        MAX_FILE_BYTES + 1,
        "Z1 in 1 at 1048576 of 1",
    );
}

#[test]
fn files_are_many(rt: HostRuntime) {
    ends(&rt, rt.alloc(), 1023, 0, "loaded of 1024");
    ends(&rt, rt.alloc(), 1024, 0, "Z10 in 1025 at 0 of 1025");
}
