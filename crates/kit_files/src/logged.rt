//! Files in memory, with the names that were asked for.

ghost use Rattle.rvc_io.specs.MemLibrary.{bytes_of, told};

use rvc_io::{Library, MemLibrary, ReadAnswer};
use std::alloc::Global;

/// Files in memory, and the names that were asked for, with a blank behind each.
#[derive(Drop)]
pub struct Logged {
    pub files: MemLibrary,
    pub asked: String,
}

impl Library for Logged {
    ghost file = { λ l name. told (bytes_of l.files name) };

    ghost faults = { λ l. l.files.calls.faults };

    ghost misses = { λ l. l.files.misses };

    ghost past = { λ l. l.files.past };

    fn read(&mut self, alloc: Global, name: &str, out: &mut Vec<u8>) -> ReadAnswer {
        if self.asked.push_str(name).is_err() || self.asked.push_str(" ").is_err() {
            return ReadAnswer::Memory;
        }
        self.files.read(alloc, name, out)
    }
}
