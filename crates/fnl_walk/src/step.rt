//! The steps of a walk.
#![tactic(auto, using(crate::proofs::Stacks::innermost, crate::proofs::Stacks::innermost_class, crate::proofs::Stacks::last_leaf))]

ghost use Rattle.std.specs.Prelude.{◌≡◌, ◌<◌, ◌≤◌, IfOk, OnOk, length, string_bytes};
ghost use Rattle.fnl_bind.specs.Networks.{path_under};
ghost use Rattle.fnl_walk.specs.InMemory.{VisitsEntry, leaf_put, net_put, untaken};
ghost use Rattle.fnl_walk.specs.Steps.{Goes, StepsTo};
ghost use Rattle.fnl_walk.specs.View.{open_of, walk_view};
ghost use Rattle.fnl_walk.specs.Walk.{IsSteady};
ghost use Rattle.fnl_bind.specs.View.{networks};

use crate::leaf::leaf;
use crate::open::{Standing, open_net};
use crate::paths::path_under;
use crate::walk::{Open, Walk, add_part};
use fnl_bind::{NetEntry, NetSet};
use fnl_tree::Inner;
use fnl_values::Visit;
use rvc_base::{Front, InstId, Memory, Place, Refusal, Rule};

/// The most instances, the top not counted.
const MAX_INSTANCES: usize = 1024;

/// Puts an open network back with an actor as one part more.
fn put_leaf<'a>(walk: &mut Walk<'a>, here: Open<'a>, visit: Visit<'a>) -> Result<(), Memory>
    requires number { here.number < length walk.old.nets.items }
    requires few { length walk.old.leaves.items ≤ 1024 }
    ensures { OnOk result (walk_view walk.new ≡ leaf_put here.entry visit.entry walk.old) }
{
    let inner = Inner::Leaf(InstId(walk.leaves.len() as u32));
    let id = visit.instance.id.clone()?;
    add_part(&mut walk.nets, here.number, id, inner)?;
    let leaf = leaf(walk.alloc, here.file, here.path.as_str(), visit)?;
    walk.leaves.push(leaf)?;
    walk.open_nets.push(here)?;
    Ok(())
}

/// Puts an open network back with a network as one part more, whose path is answered.
fn put_net<'a>(walk: &mut Walk<'a>, here: Open<'a>, id: &str) -> Result<String, Memory>
    requires number { here.number < length walk.old.nets.items }
    requires few { length walk.old.nets.items ≤ 1024 }
    ensures put { OnOk result (walk_view walk.new ≡ net_put here.entry id.now walk.old) }
    ensures path { IfOk result
        (λ path. string_bytes path ≡ path_under (open_of here.entry).path id.now) }
{
    let inner = Inner::Net(walk.nets.len() as u32);
    add_part(
        &mut walk.nets,
        here.number,
        String::from_str(walk.alloc, id)?,
        inner,
    )?;
    let path = path_under(walk.alloc, here.path.as_str(), id)?;
    walk.open_nets.push(here)?;
    Ok(path)
}

/// Visits an instance that is a network: a part of the open network, which is opened itself.
fn visit_net<'a>(
    walk: &mut Walk<'a>,
    here: Open<'a>,
    visit: Visit<'a>,
    entry: &'a NetEntry,
) -> Result<(), Front>
    requires number { here.number < length walk.old.nets.items }
    requires few { length walk.old.nets.items ≤ 1024 }
    ensures { VisitsEntry here.entry visit.entry entry.entry.now walk.old walk.new result }
{
    let owner = Place {
        file: here.file,
        offset: visit.instance.at,
    };
    let levels = here.levels;
    let Ok(path) = put_net(walk, here, visit.instance.id.as_str()) else {
        return Err(Front::Memory);
    };
    let at = Standing {
        source: entry,
        class: visit.instance.class.as_str(),
        path: path.as_str(),
        given: &visit.given,
        owner,
        levels,
    };
    open_net(walk, at)
}

/// Visits an instance of the innermost open network, which was taken off.
fn visit_one<'a>(
    nets: &'a NetSet,
    walk: &mut Walk<'a>,
    here: Open<'a>,
    visit: Visit<'a>,
) -> Result<(), Front>
    requires { IsSteady (untaken here visit walk.old) }
    ensures { Goes (networks nets.entry.now)
        (untaken here.entry visit.entry walk.old) (walk_view walk.new) result }
{
    let instance = visit.instance;
    if walk.nets.len() + walk.leaves.len() > MAX_INSTANCES {
        let place = Place {
            file: here.file,
            offset: instance.at,
        };
        let rule = Rule::TOO_MANY_INSTANCES;
        return Err(Front::Refused(Refusal { rule, place }));
    }
    match nets.get(instance.class.as_str()) {
        Some(entry) => visit_net(walk, here, visit, entry),
        None => match put_leaf(walk, here, visit) {
            Ok(()) => Ok(()),
            Err(Memory) => Err(Front::Memory),
        },
    }
}

/// One step of the walk; whether there is one: an instance is visited, or else the innermost network is left.
pub(crate) fn step<'a>(nets: &'a NetSet, walk: &mut Walk<'a>) -> Result<bool, Front>
    requires { IsSteady (walk_view walk.old) }
    ensures { StepsTo (networks nets.entry.now) (walk_view walk.old) (walk_view walk.new) result }
{
    let Some(mut here) = walk.open_nets.pop() else {
        return Ok(false);
    };
    match here.visits.pop_front() {
        Some(visit) => visit_one(nets, walk, here, visit)?,
        None => {
            walk.above.pop();
        }
    }
    Ok(true)
}
