//! Files of rows.

ghost use Rattle.std.specs.Prelude.{IfOk, OnOk};
ghost use Rattle.cal_imports.specs.View.{sources};
ghost use Rattle.law_sources.specs.Names.{AreSpelled};

use cal_files::tree_of;
use cal_imports::FileSet;
use rvc_base::Memory;
use rvc_io::MAX_FILE_BYTES;
use std::alloc::Global;

/// Adds a file, if its text spells one and no file has its class.
fn add_file(a: Global, set: &mut FileSet, class: &str, text: &[u8]) -> Result<(), Memory>
    requires { AreSpelled (sources set.old) }
    ensures { OnOk result (AreSpelled (sources set.new)) }
{
    if set.has(class) || text.len() > MAX_FILE_BYTES {
        return Ok(());
    }
    let Ok(file) = tree_of(a, 1, text) else {
        return Ok(());
    };
    set.add(class, 1, file)?;
    Ok(())
}

/// The set of these files, each a class and a text.
pub(crate) fn set_of(a: Global, files: &[(&str, &str)]) -> Result<FileSet, Memory>
    ensures { IfOk result (λ set. AreSpelled (sources set)) }
{
    let mut set = FileSet::new(a)?;
    for &(class, text) in files {
        add_file(a, &mut set, class, text.as_bytes())?;
    }
    Ok(set)
}
