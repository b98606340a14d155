//! The paths of instances.

ghost use Rattle.std.specs.Prelude.{◌≡◌, IfOk, string_bytes};
ghost use Rattle.fnl_bind.specs.Networks.{path_under};

use rvc_base::Memory;
use std::alloc::Global;

/// The path of the instance of an id in a network: ids with `/` between them.
pub(crate) fn path_under(alloc: Global, path: &str, id: &str) -> Result<String, Memory>
    ensures { IfOk result (λ whole. string_bytes whole ≡ path_under path.now id.now) }
{
    let mut whole = String::from_str(alloc, path)?;
    if !path.is_empty() {
        whole.push_str("/")?;
    }
    whole.push_str(id)?;
    Ok(whole)
}
