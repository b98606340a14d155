//! A library in memory.

ghost use Rattle.std.specs.Prelude.{◌≡◌, ◌≢◌, ◌≤◌, ◌<◌, ◌↔◌, ℕ, List, [], IsTrue, true, false, Option, None, Some, IfSome, IsSomeAnd, map, length};
ghost use Rattle.rvc_io.specs.Told.{Told, IsTold, IsLacking};
ghost use Rattle.rvc_io.specs.Count.{HasRisen};
ghost use Rattle.rvc_io.specs.Library.{IsTooLong, max_file_bytes};
ghost use Rattle.rvc_io.specs.Calls.{CallCount, is_listed, after_call, one_more};
ghost use Rattle.rvc_io.specs.Files.{named, are_distinct};
ghost use Rattle.rvc_io.specs.MemLibrary.{LibraryState, told, bytes_of};
ghost use Rattle.rvc_io.specs.Past.{Done};

use crate::calls::Calls;
use crate::files::{bytes_at, place_of};
use crate::{Act, Library, MAX_FILE_BYTES, Past, ReadAnswer};
use std::alloc::Global;
use std::marker::Model;

/// Files in memory, of which all is told. The calls whose numbers are listed fail.
#[derive(Drop)]
pub struct MemLibrary {
    files: Vec<(String, Vec<u8>)>,
    calls: Calls,
    misses: u64,
    past: Past,
}

impl Model for MemLibrary {
    ghost use Rattle.std.specs.Prelude.{map};
    ghost use Rattle.rvc_io.specs.Files.{named};
    ghost use Rattle.rvc_io.specs.MemLibrary.{LibraryState};

    ghost Value = { LibraryState };

    ghost view = { λ l. record {
      files = map named l.files.items;
      calls = l.calls;
      misses = l.misses;
      past = l.past.acts;
    } };
}

impl MemLibrary {
    /// A library of these files, each a name and its bytes. `failing` lists the numbers of the
    /// calls that are to fail; calls are numbered from 1.
    ///
    /// [`crate::names_are_distinct`] tests the condition.
    pub fn new(files: Vec<(String, Vec<u8>)>, failing: Vec<u64>) -> MemLibrary
        requires { IsTrue (are_distinct (map named files.items)) }
        ensures files { result.files ≡ map named files.items }
        ensures calls { result.calls ≡ record { failing = failing.items; made = 0; faults = 0 } }
        ensures misses { result.misses ≡ 0 }
        ensures past { result.past ≡ [] }
    {
        MemLibrary {
            files,
            calls: Calls::new(failing),
            misses: 0,
            past: Past::new(),
        }
    }
}

impl Library for MemLibrary {
    ghost use Rattle.rvc_io.specs.Reads.{read_as};

    ghost file = { λ l name. told (bytes_of l name) };

    ghost faults = { λ l. l.calls.faults };

    ghost misses = { λ l. l.misses };

    ghost past = { λ l. l.past };

    fn read(&mut self, _alloc: Global, name: &str, out: &mut Vec<u8>) -> ReadAnswer
        requires { out.old.items ≡ [] }
        ensures found { result ≡ ReadAnswer.Found
            → IsTold (told (bytes_of self.old name.now)) out.new.items }
        ensures missing { result ≡ ReadAnswer.Missing
            → HasRisen self.old.misses self.new.misses
            × IsLacking (told (bytes_of self.old name.now)) }
        ensures failed { result ≡ ReadAnswer.Failed
            → HasRisen self.old.calls.faults self.new.calls.faults }
        ensures too_long { result ≡ ReadAnswer.TooLong
            → IsTooLong (told (bytes_of self.old name.now)) }
        ensures nothing_else { result ≢ ReadAnswer.Found → out.new.items ≡ [] }
        ensures same_files { (other : List ℕ)
            → told (bytes_of self.new other) ≡ told (bytes_of self.old other) }
        ensures faults_stay { self.old.calls.faults ≤ self.new.calls.faults }
        ensures misses_stay { self.old.misses ≤ self.new.misses }
        ensures noted { self.new.past ≡ read_as result name.now out.new.items self.old.past }

        // When each answer comes, unless memory runs out.
        ensures failed_exactly { (result ≡ ReadAnswer.Failed) ↔ (is_listed self.old.calls ≡ true) }
        ensures missing_exactly { (result ≡ ReadAnswer.Missing) ↔
            ((is_listed self.old.calls ≡ false) × (bytes_of self.old name.now ≡ None)) }
        ensures too_long_exactly { (result ≡ ReadAnswer.TooLong) ↔
            ((is_listed self.old.calls ≡ false) × IsSomeAnd (bytes_of self.old name.now)
            (λ bytes. max_file_bytes < length bytes)) }
        ensures found_exactly { result ≡ ReadAnswer.Found
            → bytes_of self.old name.now ≡ Some out.new.items }

        // What is counted, and what stays.
        ensures calls { self.new.calls ≡ after_call (is_listed self.old.calls) self.old.calls }
        ensures missed { result ≡ ReadAnswer.Missing → self.new.misses ≡ one_more self.old.misses }
        ensures not_missed { result ≢ ReadAnswer.Missing → self.new.misses ≡ self.old.misses }
        ensures files { self.new.files ≡ self.old.files }
    {
        let listed = self.calls.is_listed();
        self.calls.count(listed);
        if listed {
            return ReadAnswer::Failed;
        }
        let Some(place) = place_of(&self.files, name) else {
            self.misses = self.misses.saturating_add(1);
            self.past.note(&Act::Lacked(name));
            return ReadAnswer::Missing;
        };
        let bytes = bytes_at(&self.files, place);
        if bytes.len() > MAX_FILE_BYTES {
            self.past.note(&Act::Exceeded(name));
            return ReadAnswer::TooLong;
        }
        match out.extend_from_slice(bytes) {
            Ok(()) => {
                self.past.note(&Act::Gave(name, out.as_slice()));
                ReadAnswer::Found
            }
            Err(_) => ReadAnswer::Memory,
        }
    }
}
