//! Names that stand twice.

ghost use Rattle.std.specs.Prelude.{◌≡◌, ◌∷◌, ◌++◌, [], ℕ, List, IfErr, IfOk, OnOk, map};
ghost use Rattle.cal_check.specs.Violations.{Keyed};
ghost use Rattle.fnl_bind.specs.Library.{decl_names};
ghost use Rattle.fnl_bind.specs.Scopes.{keyed_decls, keyed_instances, keyed_ports, named_twice};
ghost use Rattle.fnl_frames.specs.Views.{decl_of, instance_of, port_of};
ghost use Rattle.fnl_scopes.specs.Behind.{keyed, twice_behind};
ghost use Rattle.fnl_scopes.specs.Tested.{IsCause, Tests};

use crate::fault::ScopeFault;
use crate::name_set::NameSet;
use fnl_read::{NetDecl, NetInstance, NetPort};
use rvc_base::Rule;
use std::alloc::Global;

/// Adds the name of a part at an offset. If the name is there, it stands twice.
fn add_once(names: &mut NameSet, name: &str, at: u32) -> Result<(), ScopeFault>
    ensures twice { IfErr result (λ fault. (others : List (Keyed (List ℕ)))
        → IsCause (twice_behind names.old (keyed name.now at ∷ others)) fault) }
    ensures once { OnOk result ((others : List (Keyed (List ℕ)))
        → twice_behind names.new others ≡ twice_behind names.old (keyed name.now at ∷ others)) }
    ensures added { OnOk result (names.new ≡ names.old ++ name.now ∷ []) }
{
    if names.has(name) {
        return Err(ScopeFault::Broken {
            rule: Rule::NETWORK_NAME_TWICE,
            at,
        });
    }
    names.add(name)?;
    Ok(())
}

/// That each port has a name of its own, over both directions.
pub(crate) fn ports_once(alloc: Global, ports: &[NetPort]) -> Result<(), ScopeFault>
    ensures { Tests result (named_twice (keyed_ports (map port_of ports.now))) }
{
    let mut names = NameSet::new(alloc);
    let mut rest = ports;
    'ports: while let Some((first, others)) = rest.split_first() {
        add_once(&mut names, first.name.as_str(), first.at)?;
        rest = others;
    }
    Ok(())
}

/// That each declaration has a name of its own. The names are answered.
pub(crate) fn decls_once(alloc: Global, decls: &[NetDecl]) -> Result<NameSet, ScopeFault>
    ensures tested { Tests result (named_twice (keyed_decls (map decl_of decls.now))) }
    ensures names { IfOk result (λ names. names ≡ decl_names (map decl_of decls.now)) }
{
    let mut names = NameSet::new(alloc);
    let mut rest = decls;
    'decls: while let Some((first, others)) = rest.split_first() {
        add_once(&mut names, first.name.as_str(), first.at)?;
        rest = others;
    }
    Ok(names)
}

/// That each instance has an id of its own.
pub(crate) fn instances_once(alloc: Global, instances: &[NetInstance]) -> Result<(), ScopeFault>
    ensures { Tests result (named_twice (keyed_instances (map instance_of instances.now))) }
{
    let mut names = NameSet::new(alloc);
    let mut rest = instances;
    'instances: while let Some((first, others)) = rest.split_first() {
        add_once(&mut names, first.id.as_str(), first.at)?;
        rest = others;
    }
    Ok(())
}
