//! The reading of one file.

ghost use Rattle.std.specs.Prelude.{◌≡◌, ◌≤◌, ◌<◌, ◌+◌, ℕ, suc, List, IfErr, IfOk, None, OnOk, length, string_bytes};
ghost use Rattle.rvc_base.specs.Rules.{file_too_long};
ghost use Rattle.rvc_io.specs.Library.{max_file_bytes};
ghost use Rattle.cal_ast.specs.View.{file_tree};
ghost use Rattle.cal_imports.specs.Sources.{source_named};
ghost use Rattle.cal_imports.specs.View.{sources};
ghost use Rattle.cal_files.specs.FileNames.{file_of};
ghost use Rattle.cal_files.specs.FileText.{IsText};
ghost use Rattle.cal_files.specs.Loading.{max_bytes, max_files, with_name};
ghost use Rattle.cal_files.specs.Reads.{refusal_at};
ghost use Rattle.cal_files.specs.SoFar.{AddsFile, AddsRead, AddsText, IsBroken, IsStopped, request_of, state_of};
ghost use Rattle.cal_files.specs.Views.{file_names};

use crate::fault::{LoadFault, of_front, refused};
use crate::file_names::file_of;
use crate::file_text::tree_of;
use crate::limits::check_limits;
use crate::names::Names;
use crate::requests::{Request, push_imports};
use cal_ast::File;
use cal_imports::FileSet;
use rvc_base::{Memory, Rule};
use rvc_io::{Library, MAX_FILE_BYTES, ReadAnswer};
use std::alloc::Global;
use std::collections::VecDeque;

/// What was read, and what is still to be looked at.
#[derive(Drop)]
pub(crate) struct Loading {
    pub set: FileSet,
    /// How many bytes the files have in all.
    pub bytes: usize,
    pub waiting: VecDeque<Request>,
}

/// Adds a file under its class and its number, and what it asks for.
fn add_file(
    alloc: Global,
    loading: &mut Loading,
    class: &str,
    number: u32,
    text: &[u8],
    tree: File,
) -> Result<(), Memory>
    requires unread { source_named class.now (sources loading.old.set) ≡ None }
    requires small { loading.old.bytes + length text.now ≤ max_bytes }
    ensures { OnOk result (AddsFile class.now number text.now (file_tree tree)
        (state_of loading.old) (state_of loading.new)) }
{
    push_imports(alloc, &mut loading.waiting, number, &tree.imports)?;
    loading.set.add(class, number, tree)?;
    loading.bytes += text.len();
    Ok(())
}

/// Adds the file of a request with its text under its number.
fn add_text(
    alloc: Global,
    loading: &mut Loading,
    request: &Request,
    number: u32,
    text: &[u8],
) -> Result<(), LoadFault>
    requires unread { source_named (string_bytes request.now.class)
        (sources loading.old.set) ≡ None }
    requires small { loading.old.bytes ≤ max_bytes }
    requires short { length text.now ≤ max_file_bytes }
    ensures added { OnOk result (AddsText (string_bytes request.now.class) number text.now
        (state_of loading.old) (state_of loading.new)) }
    ensures broken { IfErr result
        (IsBroken text.now (request_of request.now) number loading.old.bytes) }
{
    let tree = match tree_of(alloc, number, text) {
        Ok(tree) => tree,
        Err(front) => return Err(of_front(front)),
    };
    if let Err(fault) = check_limits(number, loading.bytes, text.len()) {
        return Err(fault);
    }
    match add_file(alloc, loading, request.class.as_str(), number, text, tree) {
        Ok(()) => Ok(()),
        Err(Memory) => Err(LoadFault::Memory),
    }
}

/// The file of this number is too long.
pub fn too_long(number: u32) -> LoadFault
    ensures { result ≡ LoadFault.Refused (refusal_at file_too_long number max_file_bytes) }
{
    refused(Rule::FILE_TOO_LONG, number, MAX_FILE_BYTES as u32)
}

/// A text that was read, if it isn't too long.
///
/// # Errors
///
/// `Refused`: it has more bytes than a file may have (`long`).
pub fn short_text(number: u32, text: Vec<u8>) -> Result<Vec<u8>, LoadFault>
    ensures same { IfOk result (λ short. short.items ≡ text.items) }
    ensures short { IfOk result (λ short. length short.items ≤ max_file_bytes) }
    ensures long { IfErr result (λ _. max_file_bytes < length text.items) }
    ensures refused { IfErr result (λ fault. fault
        ≡ LoadFault.Refused (refusal_at file_too_long number max_file_bytes)) }
{
    if text.len() > MAX_FILE_BYTES {
        return Err(too_long(number));
    }
    Ok(text)
}

/// The number of the next file.
pub fn next_number(names: &Names) -> u32
    requires { length names.now.files.items ≤ max_files }
    ensures { result ≡ suc (length names.now.files.items) }
{
    names.files.len() as u32 + 1
}

/// Reads the text of the file of a request, which has the next number. If it is found, or if its reading fails, its name
/// is added to the names.
fn read_text<L: Library>(
    alloc: Global,
    library: &mut L,
    request: &Request,
    names: &mut Names,
) -> Result<Vec<u8>, LoadFault>
    requires { length names.old.files.items ≤ max_files }
    ensures read { IfOk result (λ text. IsText (L.file library.old
        (file_of (string_bytes request.now.class))) text.items) }
    ensures named { OnOk result (file_names names.new
        ≡ with_name (string_bytes request.now.class) (file_names names.old)) }
    ensures stopped { (bytes : ℕ) → IfErr result (IsStopped (record {
      told = L.file library.old (file_of (string_bytes request.now.class));
      request = request_of request.now;
      number = suc (length names.old.files.items);
      bytes = bytes;
      names = file_names names.old;
    }) (record { old = L.misses library.old; new = L.misses library.new })
        (record { old = L.faults library.old; new = L.faults library.new })
        (file_names names.new)) }
    ensures same_files { (other : List ℕ) → L.file library.new other ≡ L.file library.old other }
    ensures faults_stay { L.faults library.old ≤ L.faults library.new }
    ensures misses_stay { L.misses library.old ≤ L.misses library.new }
{
    let name = file_of(alloc, request.class.as_str())?;
    let number = next_number(names);
    let mut text = Vec::new(alloc);
    match library.read(alloc, name.as_str(), &mut text) {
        ReadAnswer::Found => {
            names.files.push(name)?;
            short_text(number, text)
        }
        ReadAnswer::Missing => Err(LoadFault::Refused(request.missing)),
        ReadAnswer::Failed => {
            names.files.push(name)?;
            Err(LoadFault::ReadFault { file: number })
        }
        ReadAnswer::TooLong => {
            names.files.push(name)?;
            Err(too_long(number))
        }
        ReadAnswer::Memory => Err(LoadFault::Memory),
    }
}

/// Reads the file of a request and adds it.
pub(crate) fn read_file<L: Library>(
    alloc: Global,
    library: &mut L,
    request: &Request,
    names: &mut Names,
    loading: &mut Loading,
) -> Result<(), LoadFault>
    requires unread { source_named (string_bytes request.now.class)
        (sources loading.old.set) ≡ None }
    requires few { length names.old.files.items ≤ max_files }
    requires small { loading.old.bytes ≤ max_bytes }
    ensures read { OnOk result (AddsRead
        (L.file library.old (file_of (string_bytes request.now.class)))
        (string_bytes request.now.class) (file_names names.old) (state_of loading.old)
        (state_of loading.new)) }
    ensures named { OnOk result (file_names names.new
        ≡ with_name (string_bytes request.now.class) (file_names names.old)) }
    ensures stopped { IfErr result (IsStopped (record {
      told = L.file library.old (file_of (string_bytes request.now.class));
      request = request_of request.now;
      number = suc (length names.old.files.items);
      bytes = loading.old.bytes;
      names = file_names names.old;
    }) (record { old = L.misses library.old; new = L.misses library.new })
        (record { old = L.faults library.old; new = L.faults library.new })
        (file_names names.new)) }
    ensures same_files { (other : List ℕ) → L.file library.new other ≡ L.file library.old other }
    ensures faults_stay { L.faults library.old ≤ L.faults library.new }
    ensures misses_stay { L.misses library.old ≤ L.misses library.new }
{
    let number = next_number(names);
    match read_text(alloc, library, request, names) {
        Ok(text) => add_text(alloc, loading, request, number, text.as_slice()),
        Err(fault) => Err(fault),
    }
}
