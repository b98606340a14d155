//! Files below the current folder, read whole.

ghost use Rattle.std.specs.Prelude.{◌≡◌, ◌≢◌, ◌≤◌, ◌==◌, ℕ, List, [], length, true, slice_index_or};
ghost use Rattle.std.specs.List.{list_any};
ghost use Rattle.rvc_io.specs.Told.{IsTold, IsLacking};
ghost use Rattle.rvc_io.specs.Count.{HasRisen};
ghost use Rattle.rvc_io.specs.Library.{IsTooLong, max_file_bytes};
ghost use Rattle.rvc_real.specs.Counting.{counted};
ghost use Rattle.rvc_real.specs.Folder.{FolderState, file_told, parts, is_up, leads_out, is_failed, is_missing};

use crate::seen_files::SeenFiles;
use rvc_io::{Act, Library, MAX_FILE_BYTES, Past, ReadAnswer};
use std::alloc::Global;
use std::fs;
use std::fs::OpenFile;
use std::io::{Error, ErrorKind, Read};
use std::marker::Model;
use std::rt::Files;

/// The files below the current folder, of which nothing is told.
#[derive(Drop)]
pub struct FolderLibrary<'a, R> {
    rt: R,
    seen: &'a SeenFiles,
    faults: u64,
    misses: u64,
    past: Past,
}

impl<'a, R> Model for FolderLibrary<'a, R> {
    ghost use Rattle.rvc_real.specs.Folder.{FolderState};

    ghost Value = { FolderState };

    ghost view = { λ l. record { faults = l.faults; misses = l.misses; past = l.past.acts } };
}

impl<'a, R: Files> FolderLibrary<'a, R> {
    ghost use Rattle.rvc_io.specs.Reads.{read_as};

    /// The files that `rt` finds below the current folder, each of which `seen` is told.
    pub fn new(rt: R, seen: &'a SeenFiles) -> FolderLibrary<'a, R>
        ensures { result ≡ record { faults = 0; misses = 0; past = [] } }
    {
        FolderLibrary {
            rt,
            seen,
            faults: 0,
            misses: 0,
            past: Past::new(),
        }
    }

    /// Counts how the read of `name` went, and notes what came.
    fn count(&mut self, answer: ReadAnswer, name: &str, bytes: &[u8])
        ensures faults { self.new.faults ≡ counted (is_failed answer) self.old.faults }
        ensures misses { self.new.misses ≡ counted (is_missing answer) self.old.misses }
        ensures noted { self.new.past ≡ read_as answer name.now bytes.now self.old.past }
    {
        match answer {
            ReadAnswer::Found => self.past.note(&Act::Gave(name, bytes)),
            ReadAnswer::Failed => self.faults = self.faults.saturating_add(1),
            ReadAnswer::Missing => {
                self.misses = self.misses.saturating_add(1);
                self.past.note(&Act::Lacked(name));
            }
            ReadAnswer::TooLong => self.past.note(&Act::Exceeded(name)),
            ReadAnswer::Memory => {}
        }
    }
}

impl<'a, R: Files> Library for FolderLibrary<'a, R> {
    ghost use Rattle.rvc_io.specs.Reads.{read_as};

    ghost file = { file_told };

    ghost faults = { λ l. l.faults };

    ghost misses = { λ l. l.misses };

    ghost past = { λ l. l.past };

    /// # Errors
    ///
    /// Those of [`Library::read`]. `Missing` also if the name leads out of the folder, by a slash at its start or by a
    /// part `..` (`below`).
    fn read(&mut self, alloc: Global, name: &str, out: &mut Vec<u8>) -> ReadAnswer
        requires { out.old.items ≡ [] }
        ensures found { result ≡ ReadAnswer.Found
            → IsTold (file_told self.old name.now) out.new.items }
        ensures missing { result ≡ ReadAnswer.Missing
            → HasRisen self.old.misses self.new.misses × IsLacking (file_told self.old name.now) }
        ensures failed { result ≡ ReadAnswer.Failed → HasRisen self.old.faults self.new.faults }
        ensures too_long { result ≡ ReadAnswer.TooLong → IsTooLong (file_told self.old name.now) }
        ensures nothing_else { result ≢ ReadAnswer.Found → out.new.items ≡ [] }
        ensures same_files { (other : List ℕ)
            → file_told self.new other ≡ file_told self.old other }
        ensures faults_stay { self.old.faults ≤ self.new.faults }
        ensures misses_stay { self.old.misses ≤ self.new.misses }
        ensures noted { self.new.past ≡ read_as result name.now out.new.items self.old.past }

        // What holds of every folder.
        ensures within { length out.new.items ≤ max_file_bytes }
        ensures below { leads_out name.now ≡ true → result ≡ ReadAnswer.Missing }
        ensures faults { self.new.faults ≡ counted (is_failed result) self.old.faults }
        ensures misses { self.new.misses ≡ counted (is_missing result) self.old.misses }
    {
        let answer = read_below(&self.rt, self.seen, name, out);
        if answer != ReadAnswer::Found {
            out.clear();
        }
        self.count(answer, name, out.as_slice());
        answer
    }
}

/// Reads the file `name` below the current folder.
fn read_below<R: Files>(rt: &R, seen: &SeenFiles, name: &str, out: &mut Vec<u8>) -> ReadAnswer
    requires { out.old.items ≡ [] }
    ensures within { result ≡ ReadAnswer.Found → length out.new.items ≤ max_file_bytes }
    ensures below { leads_out name.now ≡ true → result ≡ ReadAnswer.Missing }
{
    if leads_out(name) {
        return ReadAnswer::Missing;
    }
    match fs::open(rt, name) {
        Ok(file) => read_seen(file, seen, out),
        Err(error) if is_lacking(&error) => ReadAnswer::Missing,
        Err(_) => ReadAnswer::Failed,
    }
}

/// Notes which file was opened, and reads it.
fn read_seen<F: Read + OpenFile + Drop>(file: F, seen: &SeenFiles, out: &mut Vec<u8>) -> ReadAnswer
    requires { out.old.items ≡ [] }
    ensures within { result ≡ ReadAnswer.Found → length out.new.items ≤ max_file_bytes }
    ensures there { result ≢ ReadAnswer.Missing }
{
    let Ok(found) = file.metadata() else {
        return ReadAnswer::Failed;
    };
    if seen.note(&found).is_err() {
        return ReadAnswer::Memory;
    }
    read_whole(file, out)
}

/// Reads a file that was opened, and stops one byte past its limit.
fn read_whole<F: Read + Drop>(file: F, out: &mut Vec<u8>) -> ReadAnswer
    requires { out.old.items ≡ [] }
    ensures within { result ≡ ReadAnswer.Found → length out.new.items ≤ max_file_bytes }
    ensures there { result ≢ ReadAnswer.Missing }
{
    let mut limited = file.take(MAX_FILE_BYTES as u64 + 1);
    match limited.read_to_end(out) {
        Ok(_) if out.len() > MAX_FILE_BYTES => ReadAnswer::TooLong,
        Ok(_) => ReadAnswer::Found,
        Err(error) if error.kind() == ErrorKind::OutOfMemory => ReadAnswer::Memory,
        Err(_) => ReadAnswer::Failed,
    }
}

/// There is no such file: nothing has the name, something on its path is no folder, or no file can have the name, as one
/// that is too long.
fn is_lacking(error: &Error) -> bool {
    matches!(
        error.kind(),
        ErrorKind::NotFound | ErrorKind::NotADirectory | ErrorKind::InvalidFilename
    )
}

/// Whether a path leads out of the folder.
fn leads_out(path: &str) -> bool
    ensures { result ≡ leads_out path.now }
{
    begins_with_slash(path) || goes_up(path)
}

/// Whether a path begins with a slash.
fn begins_with_slash(path: &str) -> bool
    ensures { result ≡ (slice_index_or path.now 0 0 == 47) }
{
    path.as_bytes().first().copied().unwrap_or(0) == b'/'
}

/// Whether a part of the path is `..`.
fn goes_up(path: &str) -> bool
    ensures { result ≡ list_any is_up (parts path.now) }
{
    path.split('/').any(|part| is_up(part))
}

/// Whether a part of a path is `..`.
fn is_up(part: &str) -> bool
    ensures { result ≡ is_up part.now }
{
    part == ".."
}
