//! Networks that are opened.
#![tactic(auto, using(crate::proofs::Stacks::innermost, crate::proofs::Stacks::innermost_class, crate::proofs::Stacks::last_net))]

ghost use Rattle.std.specs.Prelude.{◌≡◌, OnOk, length, map, reverse, string_bytes};
ghost use Rattle.fnl_bind.specs.Scopes.{scope_broken};
ghost use Rattle.cal_check.specs.Variables.{found_in};
ghost use Rattle.fnl_frames.specs.Views.{net_of};
ghost use Rattle.check_given.specs.Causes.{Finds};
ghost use Rattle.fnl_values.specs.Visiting.{visit_of};
ghost use Rattle.fnl_walk.specs.InMemory.{OpensAt, opened_at, with_values};
ghost use Rattle.fnl_walk.specs.Opening.{with_class};
ghost use Rattle.fnl_walk.specs.View.{open_of, walk_view};

use crate::walk::{Open, Walk};
use fnl_bind::NetEntry;
use fnl_read::NetFile;
use fnl_scopes::{ScopeFault, check_scopes};
use fnl_tree::{LeafValue, Net};
use fnl_values::{NetValues, Visit, evaluate};
use rvc_base::{Front, Memory, Place, Refusal};
use std::alloc::Global;
use std::collections::VecDeque;

/// A network where it stands, but for those round it.
#[derive(Clone, Copy)]
pub(crate) struct Standing<'a, 'b> {
    pub source: &'a NetEntry,
    pub class: &'b str,
    pub path: &'b str,
    /// The values that its parameters are given, and where those are missed that have none.
    pub given: &'b [LeafValue],
    pub owner: Place,
    /// How many networks may stand in each other, itself among them, but for one.
    pub levels: usize,
}

/// Tests the rules of scope in the network of a file and a class that stands in networks of these classes, its own among
/// them.
fn scopes_hold(
    alloc: Global,
    file: u32,
    net: &NetFile,
    class: &str,
    above: &[String],
) -> Result<(), Front>
    ensures { Finds result (found_in file
        (scope_broken (net_of net.now) class.now (reverse (map string_bytes above.now)))) }
{
    match check_scopes(alloc, net, class, above) {
        Ok(()) => Ok(()),
        Err(ScopeFault::Broken { rule, at }) => {
            let place = Place { file, offset: at };
            Err(Front::Refused(Refusal { rule, place }))
        }
        Err(ScopeFault::Memory) => Err(Front::Memory),
    }
}

/// A network that is open, with so many levels inside it. At the last level nothing is visited; no network stands there,
/// since it would stand inside itself.
fn opened<'a>(
    alloc: Global,
    at: Standing<'_, '_>,
    number: usize,
    path: String,
    visits: VecDeque<Visit<'a>>,
) -> Open<'a>
    ensures { open_of result
        ≡ opened_at at.entry number (string_bytes path) (map visit_of visits.entry.items) }
{
    let file = at.source.file;
    if at.levels == 0 {
        return Open {
            file,
            path,
            number,
            levels: 0,
            visits: VecDeque::new(alloc),
        };
    }
    Open {
        file,
        path,
        number,
        levels: at.levels - 1,
        visits,
    }
}

/// Opens a network with its values. It has no parts yet.
fn add_net<'a>(
    walk: &mut Walk<'a>,
    at: Standing<'a, '_>,
    values: NetValues<'a>,
) -> Result<(), Memory>
    ensures { OnOk result (walk_view walk.new
        ≡ with_values at.entry values.entry (length walk.old.nets.items) (walk_view walk.old)) }
{
    let alloc = walk.alloc;
    let number = walk.nets.len();
    let net = Net {
        file: at.source.file,
        path: String::from_str(alloc, at.path)?,
        ins: values.ins,
        outs: values.outs,
        parts: Vec::new(alloc),
        wires: values.wires,
    };
    walk.nets.push(net)?;
    let path = String::from_str(alloc, at.path)?;
    walk.open_nets
        .push(opened(alloc, at, number, path, values.visits))?;
    Ok(())
}

/// Adds a class inside the others.
fn add_class(walk: &mut Walk<'_>, class: &str) -> Result<(), Memory>
    ensures { OnOk result (walk_view walk.new ≡ with_class class.now (walk_view walk.old)) }
{
    let class = String::from_str(walk.alloc, class)?;
    walk.above.push(class)?;
    Ok(())
}

/// Opens a network, whose rules are tested first.
///
/// # Errors
///
/// `Refused` with a rule that it breaks itself, and its place. `Memory` if memory runs out.
pub(crate) fn open_net<'a>(walk: &mut Walk<'a>, at: Standing<'a, '_>) -> Result<(), Front>
    ensures { OpensAt at.entry (walk_view walk.old) (walk_view walk.new) result }
{
    let alloc = walk.alloc;
    let Ok(()) = add_class(walk, at.class) else {
        return Err(Front::Memory);
    };
    scopes_hold(alloc, at.source.file, &at.source.net, at.class, &walk.above)?;
    let values = evaluate(alloc, at.source.file, &at.source.net, at.given, at.owner)?;
    match add_net(walk, at, values) {
        Ok(()) => Ok(()),
        Err(Memory) => Err(Front::Memory),
    }
}
