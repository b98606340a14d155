//! What one import brings.
#![tactic(auto, using(cal_scope::proofs::Judged::breaks_on))]

ghost use Rattle.std.specs.Prelude.{◌≡◌, ◌∷◌, [], OnOk, map, string_bytes};
ghost use Rattle.cal_imports.specs.Asked.{optional_name};
ghost use Rattle.cal_scope.specs.Judging.{Judges};
ghost use Rattle.cal_scope.specs.Meanings.{global_of, meaning_of};
ghost use Rattle.cal_imports.specs.Brought.{one_brought, same_brought, with_all_brought, with_brought, with_last_brought, with_seen};

use cal_ast::Ident;
use cal_scope::{FileNames, Meaning, ScopeFault};
use indexmap::map::Slice;
use rvc_base::{Memory, Rule};

/// If something is brought under the name already, whether that is the same.
fn same(names: &FileNames, name: &str, meaning: &Meaning) -> Option<bool>
    ensures { result ≡ same_brought (meaning_of name.now meaning.now) names.now }
{
    match names.meaning(name) {
        Some(known) => Some(known.full.as_str() == meaning.full.as_str()),
        None => None,
    }
}

/// Adds a name that an import at a place brings, to those that imports before it brought. The same thing may be brought
/// twice.
fn bring(names: &mut FileNames, name: &str, meaning: &Meaning, at: u32) -> Result<(), ScopeFault>
    ensures { Judges (λ _. names.new) result
        (with_brought (meaning_of name.now meaning.now) at names.old) }
{
    match same(names, name, meaning) {
        Some(true) => Ok(()),
        Some(false) => Err(ScopeFault::Broken {
            rule: Rule::DECLARED_TWICE,
            at,
        }),
        None => {
            names.add(name, meaning.role, meaning.full.as_str())?;
            Ok(())
        }
    }
}

/// Adds names that an import brings.
fn bring_all(
    names: &mut FileNames,
    entries: Slice<String, Meaning>,
    at: u32,
) -> Result<(), ScopeFault>
    ensures { Judges (λ _. names.new) result
        (with_all_brought (map global_of entries.entry) at names.old) }
{
    let mut rest = entries;
    'entries: while let Some((first, others)) = rest.split_first() {
        let (name, meaning) = first;
        bring(names, name.as_str(), meaning, at)?;
        rest = others;
    }
    Ok(())
}

/// Adds one name of a unit, which is to declare it.
fn bring_one(
    names: &mut FileNames,
    unit: &FileNames,
    name: &Ident,
    at: u32,
) -> Result<(), ScopeFault>
    ensures { Judges (λ _. names.new) result
        (one_brought (string_bytes name.now.text) name.now.at unit.now at names.old) }
{
    match unit.meaning(name.text.as_str()) {
        Some(meaning) => bring(names, name.text.as_str(), meaning, at),
        None => Err(ScopeFault::Broken {
            rule: Rule::UNKNOWN_NAME,
            at: name.at,
        }),
    }
}

/// Adds what an import of a unit with these names brings: the name that stands last, or all.
pub(crate) fn bring_last(
    names: &mut FileNames,
    unit: &FileNames,
    last: &Option<Ident>,
    at: u32,
) -> Result<(), ScopeFault>
    ensures { Judges (λ _. names.new) result
        (with_last_brought (optional_name last.now) unit.now at names.old) }
{
    match last {
        Some(name) => bring_one(names, unit, name, at),
        None => bring_all(names, unit.entries(), at),
    }
}

/// Adds a name to those of a file, unless one of its own hides it.
fn see_one(names: &mut FileNames, name: &str, meaning: &Meaning) -> Result<(), Memory>
    ensures { OnOk result (names.new ≡ with_seen (meaning_of name.now meaning.now ∷ []) names.old) }
{
    if names.has(name) {
        return Ok(());
    }
    names.add(name, meaning.role, meaning.full.as_str())
}

/// Adds names that imports brought to those of a file, but for those that its own hide.
pub(crate) fn see_all(names: &mut FileNames, brought: Slice<String, Meaning>) -> Result<(), Memory>
    ensures { OnOk result (names.new ≡ with_seen (map global_of brought.entry) names.old) }
{
    let mut rest = brought;
    'entries: while let Some((first, others)) = rest.split_first() {
        let (name, meaning) = first;
        see_one(names, name.as_str(), meaning)?;
        rest = others;
    }
    Ok(())
}
