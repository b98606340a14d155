//! Whether a file is what the class or the import asks for.

ghost use Rattle.std.specs.Prelude.{◌≡◌};
ghost use Rattle.cal_ast.specs.View.{file_body_tree};
ghost use Rattle.cal_imports.specs.Answer.{Answers};
ghost use Rattle.cal_imports.specs.Sources.{as_asked, is_unit, same_truth};
ghost use Rattle.cal_imports.specs.View.{source};

use crate::class_text::class_of;
use crate::entry::Entry;
use crate::fault::ImportFault;
use cal_ast::Body;
use rvc_base::Rule;
use std::alloc::Global;

/// Whether a file declares a unit.
fn is_unit(body: &Body) -> bool
    ensures { result ≡ is_unit (file_body_tree body.now) }
{
    match body {
        Body::Actor(_) => false,
        Body::Unit(_) => true,
    }
}

/// Whether a file is of the kind that is asked for.
fn is_kind(unit: bool, body: &Body) -> bool
    ensures { result ≡ same_truth unit (is_unit (file_body_tree body.now)) }
{
    if unit { is_unit(body) } else { !is_unit(body) }
}

/// A file's package, name and kind are those that are asked for.
pub(crate) fn as_asked(
    alloc: Global,
    unit: bool,
    name: &str,
    entry: &Entry,
) -> Result<(), ImportFault>
    ensures { Answers (λ _. tt) result (as_asked unit (source name.now entry.now)) }
{
    let class = class_of(alloc, &entry.tree)?;
    if is_kind(unit, &entry.tree.body) && name == class.as_str() {
        return Ok(());
    }
    Err(ImportFault::Refused {
        rule: Rule::NOT_AS_ASKED,
        file: entry.file,
        at: 0,
    })
}
