//! What stands in a trace before its first event.

ghost use Rattle.std.specs.Prelude.{◌≡◌, ◌≤◌, ◌+◌, ◌++◌, IfOk, OnOk, length, map, string_bytes};
ghost use Rattle.cmd_run_network.specs.Network.{head_of, instance_named, instances_named};

use arrayvec::ArrayVec;
use fnl_flatten::Flat;
use rvc_base::Memory;
use std::alloc::Global;
use trace_text::{Line, write_front, write_line};

/// Appends the line of an instance.
fn push_instance(number: u32, path: &str, class: &str, head: &mut Vec<u8>) -> Result<(), Memory>
    ensures { OnOk result (head.new.items ≡ head.old.items ++ instance_named number path.now class.now) }
{
    let mut front = ArrayVec::<u8, 64>::new();
    write_front(number, &mut front);
    head.extend_from_slice(front.as_slice())?;
    head.extend_from_slice(path.as_bytes())?;
    head.extend_from_slice(b" ")?;
    head.extend_from_slice(class.as_bytes())?;
    head.extend_from_slice(b"\n")?;
    Ok(())
}

/// Appends the lines of instances, each with its path and its class.
fn push_instances(paths: &[String], classes: &[String], head: &mut Vec<u8>) -> Result<(), Memory>
    requires few { length paths.now ≤ 4294967295 }
    ensures { OnOk result (head.new.items ≡ head.old.items
        ++ instances_named 0 (map string_bytes paths.now) (map string_bytes classes.now)) }
{
    let mut number = 0u32;
    let mut rest = paths;
    let mut names = classes;
    'instances: while let Some((path, more)) = rest.split_first() {
        let Some((class, others)) = names.split_first() else {
            return Ok(());
        };
        push_instance(number, path.as_str(), class.as_str(), head)?;
        number += 1;
        rest = more;
        names = others;
    }
    Ok(())
}

/// What stands in a trace of this network before its first event. It has so many instances, and its links may grow so far.
///
/// # Errors
///
/// `Memory` if memory runs out.
pub(crate) fn head_of(
    alloc: Global,
    flat: &Flat,
    instances: u32,
    grow: u32,
) -> Result<Vec<u8>, Memory>
    requires few_paths { length flat.now.paths.items ≤ 4294967295 }
    requires few_links { length flat.now.links.items ≤ 4294967295 }
    ensures { IfOk result (λ head. head.items ≡ head_of flat.now instances grow) }
{
    let header = Line::Header {
        instances,
        links: flat.links.len() as u32,
        grow,
    };
    let mut first = ArrayVec::<u8, 64>::new();
    write_line(&header, &mut first);
    let mut head = Vec::from_slice(alloc, first.as_slice())?;
    push_instances(flat.paths.as_slice(), flat.classes.as_slice(), &mut head)?;
    Ok(head)
}
