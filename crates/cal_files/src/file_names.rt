//! Names of files, and the classes that stand in them.

ghost use Rattle.std.specs.Prelude.{◌≡◌, ◌<◌, ◌++◌, IfOk, OnOk, string_bytes};
ghost use Rattle.cal_files.specs.FileNames.{IsActorFile, class_of, file_of, path_of, replaced};

use rvc_base::Memory;
use std::alloc::Global;

/// Adds a text with one mark in place of another. Both are of one byte.
///
/// # Errors
///
/// [`Memory`] if an allocation is refused.
pub fn push_replaced(text: &mut String, part: &str, mark: char, other: char) -> Result<(), Memory>
    requires mark { mark < 128 }
    requires other { other < 128 }
    ensures { OnOk result (string_bytes text.new
        ≡ string_bytes text.old ++ replaced mark other part.now) }
{
    let mut rest = part;
    'parts: while let Some((before, after)) = rest.split_once(mark) {
        text.push_str(before)?;
        text.push(other)?;
        rest = after;
    }
    text.push_str(rest)?;
    Ok(())
}

/// The name of the file of a class: `p/q/A.cal` for `p.q.A`.
pub(crate) fn file_of(alloc: Global, class: &str) -> Result<String, Memory>
    ensures { IfOk result (λ name. string_bytes name ≡ file_of class.now) }
{
    let mut name = String::new(alloc);
    push_replaced(&mut name, class, '.', '/')?;
    name.push_str(".cal")?;
    Ok(name)
}

/// What stands before the first dot of a name.
fn path_of(file: &str) -> &str
    ensures { result.now ≡ path_of file.now }
{
    match file.split_once('.') {
        Some((path, _)) => path,
        None => file,
    }
}

/// The class of a file's name: `p.q.A` for `p/q/A.cal`.
///
/// If the name is a path without dots and `.cal` behind it, it is that of the class (`same`).
///
/// # Errors
///
/// [`Memory`] if an allocation is refused.
pub fn class_of(alloc: Global, file: &str) -> Result<String, Memory>
    ensures class { IfOk result (λ class. string_bytes class ≡ class_of file.now) }
    ensures same { IsActorFile file.now
        → IfOk result (λ class. file_of (string_bytes class) ≡ file.now) }
{
    let mut class = String::new(alloc);
    push_replaced(&mut class, path_of(file), '/', '.')?;
    Ok(class)
}
