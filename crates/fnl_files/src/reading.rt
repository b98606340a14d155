//! The reading of a file's text.

ghost use Rattle.std.specs.Prelude.{◌≡◌, ◌≤◌, ◌<◌, ℕ, List, IfErr, IfOk, Some, length, option_map, string_bytes};
ghost use Rattle.rvc_base.specs.Rules.{file_too_long};
ghost use Rattle.rvc_io.specs.Library.{max_file_bytes};
ghost use Rattle.cal_files.specs.Loading.{max_files};
ghost use Rattle.cal_files.specs.Reads.{refusal_at};
ghost use Rattle.cal_files.specs.Views.{file_names};
ghost use Rattle.fnl_source.specs.Files.{name_of};
ghost use Rattle.fnl_files.specs.SoFar.{IsFound, IsStopped, trial_of};

use cal_files::{LoadFault, Names, next_number, push_replaced, short_text, too_long};
use rvc_base::Memory;
use rvc_io::{Library, ReadAnswer};
use std::alloc::Global;

/// The name of the file of a class: of its network, or of its actor or unit.
fn name_of(alloc: Global, class: &str, network: bool) -> Result<String, Memory>
    ensures { IfOk result (λ name. string_bytes name
        ≡ name_of (record { class = class.now; network = network })) }
{
    let mut name = String::new(alloc);
    push_replaced(&mut name, class, '.', '/')?;
    name.push_str(if network { ".xdf" } else { ".cal" })?;
    Ok(name)
}

/// A text that was found, if it isn't too long.
fn found_text(number: u32, text: Vec<u8>) -> Result<Option<Vec<u8>>, LoadFault>
    ensures same { IfOk result (λ short. option_map (λ t. t.items) short ≡ Some text.items) }
    ensures short { IfOk result (λ _. length text.items ≤ max_file_bytes) }
    ensures long { IfErr result (λ _. max_file_bytes < length text.items) }
    ensures refused { IfErr result (λ fault. fault
        ≡ LoadFault.Refused (refusal_at file_too_long number max_file_bytes)) }
{
    match short_text(number, text) {
        Ok(text) => Ok(Some(text)),
        Err(fault) => Err(fault),
    }
}

/// Reads the text of the file of a class, which has the next number. If it is found, or if its reading fails, its name is
/// added to the names; if it is missing, there is no text.
pub(crate) fn read_text<L: Library>(
    alloc: Global,
    library: &mut L,
    class: &str,
    network: bool,
    names: &mut Names,
) -> Result<Option<Vec<u8>>, LoadFault>
    requires { length names.old.files.items ≤ max_files }
    ensures found { IfOk result (λ text. IsFound
        (trial_of (L.file library.old) (record { class = class.now; network = network })
        (file_names names.old))
        (record { old = L.misses library.old; new = L.misses library.new })
        (file_names names.new) (option_map (λ t. t.items) text)) }
    ensures stopped { (bytes : ℕ) → IfErr result (IsStopped
        (trial_of (L.file library.old) (record { class = class.now; network = network })
        (file_names names.old)) bytes
        (record { old = L.faults library.old; new = L.faults library.new })
        (file_names names.new)) }
    ensures same_files { (other : List ℕ) → L.file library.new other ≡ L.file library.old other }
    ensures faults_stay { L.faults library.old ≤ L.faults library.new }
    ensures misses_stay { L.misses library.old ≤ L.misses library.new }
{
    let name = name_of(alloc, class, network)?;
    let number = next_number(names);
    let mut text = Vec::new(alloc);
    match library.read(alloc, name.as_str(), &mut text) {
        ReadAnswer::Found => {
            names.files.push(name)?;
            found_text(number, text)
        }
        ReadAnswer::Missing => Ok(None),
        ReadAnswer::Failed => {
            names.files.push(name)?;
            Err(LoadFault::ReadFault { file: number })
        }
        ReadAnswer::TooLong => {
            names.files.push(name)?;
            Err(too_long(number))
        }
        ReadAnswer::Memory => Err(LoadFault::Memory),
    }
}
