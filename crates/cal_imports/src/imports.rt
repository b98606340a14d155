//! What all imports of a file bring, and what the file sees.
#![tactic(auto, using(crate::proofs::Answered::refused_on, crate::proofs::Answered::placed_answers))]

ghost use Rattle.std.specs.Prelude.{◌≡◌, [], ◌∷◌, ◌++◌, IfOk, None, OnOk, is_some, string_bytes, true};
ghost use Rattle.cal_ast.specs.View.{file_body_tree, import_tree};
ghost use Rattle.cal_scope.specs.Judging.{Judges};
ghost use Rattle.cal_imports.specs.Answer.{Answers, placed};
ghost use Rattle.cal_imports.specs.Asked.{imports_tree};
ghost use Rattle.cal_imports.specs.Brought.{import_brought, imports_brought, names_declared, names_seen};
ghost use Rattle.cal_imports.specs.Sources.{dot};
ghost use Rattle.cal_imports.specs.UnitNames.{AreDeclared, declared_in, names_of, unit_named};
ghost use Rattle.cal_imports.specs.View.{source, sources};

use crate::brought::{bring_last, see_all};
use crate::class_text::dotted;
use crate::entry::Entry;
use crate::fault::ImportFault;
use crate::file_set::FileSet;
use crate::unit_names::UnitNames;
use cal_ast::{Body, Import};
use cal_scope::{FileNames, ScopeFault};
use rvc_base::{Memory, Rule};
use std::alloc::Global;

/// An answer about a part, of a file.
pub(crate) fn in_file<T: Drop>(file: u32, found: Result<T, ScopeFault>) -> Result<T, ImportFault>
    ensures { result ≡ placed file found }
{
    match found {
        Ok(t) => Ok(t),
        Err(ScopeFault::Broken { rule, at }) => Err(ImportFault::Refused { rule, file, at }),
        Err(ScopeFault::Memory) => Err(ImportFault::Memory),
    }
}

/// A class with a dot behind it.
fn before_names(alloc: Global, class: &str) -> Result<String, Memory>
    ensures { IfOk result (λ text. string_bytes text ≡ class.now ++ dot ∷ []) }
{
    let mut text = String::from_str(alloc, class)?;
    text.push_str(".")?;
    Ok(text)
}

/// The names that a file declares.
fn names_declared(alloc: Global, class: &str, body: &Body) -> Result<FileNames, ScopeFault>
    ensures { Judges (λ names. names) result
        (names_declared class.now (file_body_tree body.now)) }
{
    match body {
        Body::Actor(actor) => FileNames::of_actor(alloc, &actor.params, &actor.members),
        Body::Unit(unit) => {
            let before = before_names(alloc, class)?;
            FileNames::of_unit(alloc, before.as_str(), &unit.members)
        }
    }
}

/// The names that the unit of a class declares, for an import at a place in a file.
fn unit_declared(
    alloc: Global,
    set: &FileSet,
    file: u32,
    at: u32,
    class: &str,
) -> Result<FileNames, ImportFault>
    ensures { Answers (λ names. names) result (declared_in (sources set.now) class.now file at) }
{
    let Some(entry) = set.find(class) else {
        return Err(ImportFault::Refused {
            rule: Rule::IMPORT_NOT_FOUND,
            file,
            at,
        });
    };
    in_file(entry.file, names_declared(alloc, class, &entry.tree.body))
}

/// Makes the names of the unit of a class, and keeps them.
fn keep_new(
    alloc: Global,
    set: &FileSet,
    file: u32,
    at: u32,
    class: &str,
    kept: &mut UnitNames,
) -> Result<(), ImportFault>
    requires kept { AreDeclared (sources set.now) kept.old }
    requires new { unit_named class.now kept.old ≡ None }
    ensures kept { OnOk result (AreDeclared (sources set.now) kept.new) }
    ensures there { OnOk result (is_some (unit_named class.now kept.new) ≡ true) }
    ensures found { Answers (λ _. names_of (unit_named class.now kept.new)) result
        (declared_in (sources set.now) class.now file at) }
{
    let names = unit_declared(alloc, set, file, at, class)?;
    kept.add(class, names)?;
    Ok(())
}

/// Makes the names of the unit of a class and keeps them, if they aren't kept.
fn keep_unit(
    alloc: Global,
    set: &FileSet,
    file: u32,
    at: u32,
    class: &str,
    kept: &mut UnitNames,
) -> Result<(), ImportFault>
    requires { AreDeclared (sources set.now) kept.old }
    ensures kept { OnOk result (AreDeclared (sources set.now) kept.new) }
    ensures there { OnOk result (is_some (unit_named class.now kept.new) ≡ true) }
    ensures found { Answers (λ _. names_of (unit_named class.now kept.new)) result
        (declared_in (sources set.now) class.now file at) }
{
    if kept.has(class) {
        return Ok(());
    }
    keep_new(alloc, set, file, at, class, kept)
}

/// Adds what an import in a file of a number brings to what those before it brought.
///
/// The names of its unit are made if they weren't by an import before it.
fn bring_import(
    alloc: Global,
    set: &FileSet,
    file: u32,
    import: &Import,
    kept: &mut UnitNames,
    names: &mut FileNames,
) -> Result<(), ImportFault>
    requires { AreDeclared (sources set.now) kept.old }
    ensures kept { OnOk result (AreDeclared (sources set.now) kept.new) }
    ensures brought { Answers (λ _. names.new) result
        (import_brought (sources set.now) file (import_tree import.now) names.old) }
{
    let class = dotted(alloc, &import.path)?;
    keep_unit(alloc, set, file, import.at, class.as_str(), kept)?;
    let Some(unit) = kept.get(class.as_str()) else {
        unreachable!()
    };
    in_file(file, bring_last(names, unit, &import.last, import.at))
}

/// Adds what imports in a file of a number bring, in order.
fn bring_imports(
    alloc: Global,
    set: &FileSet,
    file: u32,
    list: &[Import],
    names: &mut FileNames,
) -> Result<(), ImportFault>
    ensures { Answers (λ _. names.new) result
        (imports_brought (sources set.now) file (imports_tree list.now) names.old) }
{
    let mut kept = UnitNames::new(alloc);
    let mut rest = list;
    'imports: while let Some((first, others)) = rest.split_first() {
        bring_import(alloc, set, file, first, &mut kept, names)?;
        rest = others;
    }
    Ok(())
}

/// The names that a file sees: its own, and what its imports bring.
pub(crate) fn names_seen(
    alloc: Global,
    set: &FileSet,
    name: &str,
    entry: &Entry,
) -> Result<FileNames, ImportFault>
    ensures { Answers (λ names. names) result
        (names_seen (sources set.now) (source name.now entry.now)) }
{
    let mut names = in_file(entry.file, names_declared(alloc, name, &entry.tree.body))?;
    let mut brought = FileNames::new(alloc);
    bring_imports(alloc, set, entry.file, &entry.tree.imports, &mut brought)?;
    see_all(&mut names, brought.entries())?;
    Ok(names)
}
