//! The text of a class: names with dots between.

ghost use Rattle.std.specs.Prelude.{◌≡◌, ◌++◌, IfOk, OnOk, string_bytes};
ghost use Rattle.cal_imports.specs.Sources.{behind_dots, dotted};
ghost use Rattle.cal_files.specs.SoFar.{names_tree};

use cal_ast::Ident;
use rvc_base::Memory;
use std::alloc::Global;

/// Adds names, with a dot before each.
fn push_behind_dots(text: &mut String, names: &[Ident]) -> Result<(), Memory>
    ensures { OnOk result (string_bytes text.new
        ≡ string_bytes text.old ++ behind_dots (names_tree names.now)) }
{
    let mut rest = names;
    'names: while let Some((first, others)) = rest.split_first() {
        text.push_str(".")?;
        text.push_str(first.text.as_str())?;
        rest = others;
    }
    Ok(())
}

/// The text of names, with dots between: that of a class.
///
/// # Errors
///
/// [`Memory`] if an allocation is refused.
pub fn dotted(alloc: Global, names: &[Ident]) -> Result<String, Memory>
    ensures { IfOk result (λ text. string_bytes text ≡ dotted (names_tree names.now)) }
{
    let Some((first, others)) = names.split_first() else {
        return Ok(String::new(alloc));
    };
    let mut text = String::from_str(alloc, first.text.as_str())?;
    push_behind_dots(&mut text, others)?;
    Ok(text)
}
