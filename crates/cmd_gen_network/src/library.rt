//! The library of the generator's network.

ghost use Rattle.std.specs.Prelude.{◌≡◌, ◌<◌, IfOk};
ghost use Rattle.cmd_gen_network.specs.Objects.{file_told};
ghost use Rattle.cmd_gen_network.specs.Texts.{files_of};

use crate::files::network_files;
use rvc_base::Memory;
use rvc_io::{Library, MemLibrary, ReadAnswer};
use std::alloc::Global;
use std::marker::Model;

/// The files of a network that was generated. All is told of them, and no read fails.
#[derive(Drop)]
pub struct GeneratedLibrary {
    files: MemLibrary,
}

impl Model for GeneratedLibrary {
    ghost use Rattle.std.specs.Prelude.{◌≡◌, []};
    ghost use Rattle.rvc_io.specs.MemLibrary.{LibraryState};

    ghost Value = { LibraryState };

    ghost view = { λ l. l.files };

    ghost invariant = { λ l. l.files.calls.failing ≡ [] };
}

impl Library for GeneratedLibrary {
    ghost file = { file_told };

    ghost faults = { λ l. 0 };

    ghost misses = { λ l. l.misses };

    ghost past = { λ l. l.past };

    fn read(&mut self, alloc: Global, name: &str, out: &mut Vec<u8>) -> ReadAnswer {
        self.files.read(alloc, name, out)
    }
}

/// A library of the files of a network of so many instances.
///
/// # Errors
///
/// `Memory` if memory runs out.
pub fn generated_library(alloc: Global, instances: u32) -> Result<GeneratedLibrary, Memory>
    requires some { 0 < instances }
    ensures files { IfOk result (λ l. l.files ≡ files_of instances) }
    ensures misses { IfOk result (λ l. l.misses ≡ 0) }
{
    let files = network_files(alloc, instances)?;
    Ok(GeneratedLibrary {
        files: MemLibrary::new(files, Vec::new(alloc)),
    })
}
