//! Actors.

ghost use Rattle.std.specs.Prelude.{IfOk};
ghost use Rattle.fnl_values.specs.Visiting.{visit_of};
ghost use Rattle.fnl_walk.specs.InMemory.{IsLeafOf};

use crate::paths::path_under;
use fnl_tree::Leaf;
use fnl_values::Visit;
use rvc_base::{Memory, Place};
use std::alloc::Global;

/// The actor that an instance is.
pub(crate) fn leaf(alloc: Global, file: u32, path: &str, visit: Visit<'_>) -> Result<Leaf, Memory>
    ensures { IfOk result (λ leaf. IsLeafOf leaf file path.now (visit_of visit.entry)) }
{
    let instance = visit.instance;
    let path = path_under(alloc, path, instance.id.as_str())?;
    let class = instance.class.clone()?;
    Ok(Leaf {
        path,
        class,
        class_at: Place {
            file,
            offset: instance.class_at,
        },
        instance_at: Place {
            file,
            offset: instance.at,
        },
        bindings: visit.given,
    })
}
