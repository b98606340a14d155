//! The names of instances in a trace.

ghost use Rattle.std.specs.Prelude.{◌≡◌, IfOk, map, string_bytes};
ghost use Rattle.cmd_replay.specs.Naming.{name_of_instance, names_of_instances};

use rvc_base::Memory;
use std::alloc::Global;

/// The path of an instance and its class, with a blank between them.
fn name_of_instance(alloc: Global, path: &str, class: &str) -> Result<String, Memory>
    ensures { IfOk result (λ name. string_bytes name ≡ name_of_instance path.now class.now) }
{
    let mut name = String::from_str(alloc, path)?;
    name.push_str(" ")?;
    name.push_str(class)?;
    Ok(name)
}

/// The names of instances that have these paths and these classes.
///
/// # Errors
///
/// `Memory` if memory runs out.
pub(crate) fn names_of_instances(
    alloc: Global,
    paths: &[String],
    classes: &[String],
) -> Result<Vec<String>, Memory>
    ensures { IfOk result (λ names. map string_bytes names.items
        ≡ names_of_instances (map string_bytes paths.now) (map string_bytes classes.now)) }
{
    let mut names = Vec::new(alloc);
    let mut rest = paths;
    let mut more = classes;
    'instances: while let Some((path, others)) = rest.split_first() {
        let Some((class, left)) = more.split_first() else {
            return Ok(names);
        };
        let name = name_of_instance(alloc, path.as_str(), class.as_str())?;
        names.push(name)?;
        rest = others;
        more = left;
    }
    Ok(names)
}
