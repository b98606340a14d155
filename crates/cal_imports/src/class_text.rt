//! The text of a class: names with dots between.

ghost use Rattle.std.specs.Prelude.{◌≡◌, ◌++◌, IfOk, OnOk, string_bytes};
ghost use Rattle.cal_ast.specs.View.{file_body_tree, file_tree, tag_tree};
ghost use Rattle.cal_ast.specs.Tree as tree;
ghost use Rattle.cal_imports.specs.Sources.{behind_dots, class_in, class_of, dotted, name_of};
ghost use Rattle.cal_scope.specs.Asked.{names_tree};

use cal_ast::{Body, File, Ident, Tag};
use rvc_base::Memory;
use std::alloc::Global;

/// Adds names, with a dot before each.
fn push_behind_dots(text: &mut String, names: &[Ident]) -> Result<(), Memory>
    ensures { OnOk result (string_bytes text.new
        ≡ string_bytes text.old ++ behind_dots (names_tree names.now)) }
{
    let mut rest = names;
    'names: while let Some((first, others)) = rest.split_first() {
        text.push_str(".")?;
        text.push_str(first.text.as_str())?;
        rest = others;
    }
    Ok(())
}

/// The text of names, with dots between.
pub(crate) fn dotted(alloc: Global, names: &[Ident]) -> Result<String, Memory>
    ensures { IfOk result (λ text. string_bytes text ≡ dotted (names_tree names.now)) }
{
    let Some((first, others)) = names.split_first() else {
        return Ok(String::new(alloc));
    };
    let mut text = String::from_str(alloc, first.text.as_str())?;
    push_behind_dots(&mut text, others)?;
    Ok(text)
}

/// The name that a file declares.
fn name_of(body: &Body) -> &str
    ensures { result.now ≡ name_of (file_body_tree body.now) }
{
    match body {
        Body::Actor(actor) => actor.name.text.as_str(),
        Body::Unit(unit) => unit.name.text.as_str(),
    }
}

/// The class of a name in a package.
fn in_package(alloc: Global, tag: &Tag, name: &str) -> Result<String, Memory>
    ensures { IfOk result (λ text. string_bytes text
        ≡ class_in (tree.present (tag_tree tag.now)) name.now) }
{
    let mut text = dotted(alloc, &tag.parts)?;
    text.push_str(".")?;
    text.push_str(name)?;
    Ok(text)
}

/// The class that a file declares: its package, and its name behind it.
pub(crate) fn class_of(alloc: Global, file: &File) -> Result<String, Memory>
    ensures { IfOk result (λ text. string_bytes text ≡ class_of (file_tree file.now)) }
{
    let name = name_of(&file.body);
    match &file.package {
        Some(package) => in_package(alloc, package, name),
        None => Ok(String::from_str(alloc, name)?),
    }
}
