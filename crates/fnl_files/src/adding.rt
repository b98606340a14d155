//! What a text says is added.

ghost use Rattle.std.specs.Prelude.{◌≡◌, ◌≤◌, ◌+◌, IfErr, OnOk, None, false, length, true};
ghost use Rattle.rvc_io.specs.Library.{max_file_bytes};
ghost use Rattle.cal_ast.specs.View.{file_tree};
ghost use Rattle.cal_imports.specs.Sources.{source_named};
ghost use Rattle.cal_imports.specs.View.{sources};
ghost use Rattle.cal_files.specs.Loading.{max_bytes};
ghost use Rattle.fnl_bind.specs.Library.{network_of};
ghost use Rattle.fnl_frames.specs.Views.{net_of};
ghost use Rattle.fnl_bind.specs.View.{networks};
ghost use Rattle.fnl_source.specs.Files.{network, source};
ghost use Rattle.fnl_files.specs.SoFar.{AddsFile, AddsText, IsBroken, has, state_of};

use crate::loading::Loading;
use crate::network_text::network_in;
use crate::requests::{push_imports, push_instances};
use cal_ast::File;
use cal_files::{LoadFault, check_limits, of_front, tree_of};
use fnl_read::NetFile;
use rvc_base::Memory;
use std::alloc::Global;

/// Adds a network under its class and its number, and what it asks for.
fn add_network(
    alloc: Global,
    loading: &mut Loading,
    class: &str,
    number: u32,
    text: &[u8],
    net: NetFile,
) -> Result<(), Memory>
    requires unread { network_of class.now (networks loading.old.files.networks) ≡ None }
    requires small { loading.old.bytes + length text.now ≤ max_bytes }
    ensures { OnOk result (AddsFile (record { class = class.now; network = true }) number text.now
        (network (net_of net)) (state_of loading.old) (state_of loading.new)) }
{
    push_instances(alloc, &mut loading.waiting, number, &net.instances)?;
    loading.files.networks.add(class, number, net)?;
    loading.bytes += text.len();
    Ok(())
}

/// Adds an actor or a unit under its class and its number, and what it asks for.
fn add_source(
    alloc: Global,
    loading: &mut Loading,
    class: &str,
    number: u32,
    text: &[u8],
    tree: File,
) -> Result<(), Memory>
    requires unread { source_named class.now (sources loading.old.files.sources) ≡ None }
    requires small { loading.old.bytes + length text.now ≤ max_bytes }
    ensures { OnOk result (AddsFile (record { class = class.now; network = false }) number text.now
        (source (file_tree tree)) (state_of loading.old) (state_of loading.new)) }
{
    push_imports(alloc, &mut loading.waiting, number, &tree.imports)?;
    loading.files.sources.add(class, number, tree)?;
    loading.bytes += text.len();
    Ok(())
}

/// Adds the network that a text spells.
fn add_network_text(
    alloc: Global,
    loading: &mut Loading,
    class: &str,
    number: u32,
    text: &[u8],
) -> Result<(), LoadFault>
    requires unread { network_of class.now (networks loading.old.files.networks) ≡ None }
    requires small { loading.old.bytes ≤ max_bytes }
    requires short { length text.now ≤ max_file_bytes }
    ensures added { OnOk result (AddsText (record { class = class.now; network = true }) number
        text.now (state_of loading.old) (state_of loading.new)) }
    ensures broken { IfErr result (IsBroken text.now true number loading.old.bytes) }
{
    let net = match network_in(alloc, number, text) {
        Ok(net) => net,
        Err(front) => return Err(of_front(front)),
    };
    if let Err(fault) = check_limits(number, loading.bytes, text.len()) {
        return Err(fault);
    }
    match add_network(alloc, loading, class, number, text, net) {
        Ok(()) => Ok(()),
        Err(Memory) => Err(LoadFault::Memory),
    }
}

/// Adds the actor or the unit that a text spells.
fn add_source_text(
    alloc: Global,
    loading: &mut Loading,
    class: &str,
    number: u32,
    text: &[u8],
) -> Result<(), LoadFault>
    requires unread { source_named class.now (sources loading.old.files.sources) ≡ None }
    requires small { loading.old.bytes ≤ max_bytes }
    requires short { length text.now ≤ max_file_bytes }
    ensures added { OnOk result (AddsText (record { class = class.now; network = false }) number
        text.now (state_of loading.old) (state_of loading.new)) }
    ensures broken { IfErr result (IsBroken text.now false number loading.old.bytes) }
{
    let tree = match tree_of(alloc, number, text) {
        Ok(tree) => tree,
        Err(front) => return Err(of_front(front)),
    };
    if let Err(fault) = check_limits(number, loading.bytes, text.len()) {
        return Err(fault);
    }
    match add_source(alloc, loading, class, number, text, tree) {
        Ok(()) => Ok(()),
        Err(Memory) => Err(LoadFault::Memory),
    }
}

/// Whether the file of a class is there: of its network, or of its actor or unit.
pub(crate) fn has(loading: &Loading, class: &str, network: bool) -> bool
    ensures { result ≡ has (record { class = class.now; network = network })
        (networks loading.now.files.networks) (sources loading.now.files.sources) }
{
    if network {
        loading.files.networks.has(class)
    } else {
        loading.files.sources.has(class)
    }
}

/// Adds what a text says, as a network, or as an actor or a unit.
pub(crate) fn add_text(
    alloc: Global,
    loading: &mut Loading,
    class: &str,
    network: bool,
    number: u32,
    text: &[u8],
) -> Result<(), LoadFault>
    requires unread { has (record { class = class.now; network = network })
        (networks loading.old.files.networks) (sources loading.old.files.sources) ≡ false }
    requires small { loading.old.bytes ≤ max_bytes }
    requires short { length text.now ≤ max_file_bytes }
    ensures added { OnOk result (AddsText (record { class = class.now; network = network }) number
        text.now (state_of loading.old) (state_of loading.new)) }
    ensures broken { IfErr result (IsBroken text.now network number loading.old.bytes) }
{
    if network {
        add_network_text(alloc, loading, class, number, text)
    } else {
        add_source_text(alloc, loading, class, number, text)
    }
}
