//! The files of the generator's network.

ghost use Rattle.std.specs.Prelude.{◌≡◌, ◌<◌, ◌++◌, ◌∷◌, [], IfOk, map};
ghost use Rattle.rvc_io.specs.Files.{named};
ghost use Rattle.cmd_gen_network.specs.Texts.{add_file, files_of, flip_file, top_file};

use crate::network::network_text;
use rvc_base::Memory;
use std::alloc::Global;

/// The file of the network, which is its top.
pub const TOP_NAME: &str = "gen/Top.xdf";

const ADD_NAME: &str = "gen/Add.cal";

const FLIP_NAME: &str = "gen/Flip.cal";

const ADD: &[u8] =
    b"package gen; actor Add(int K) uint(size=8) In ==> uint(size=8) Out : action In:[x] ==> Out:[x + K] end end";

const FLIP: &[u8] =
    b"package gen; actor Flip(int K) uint(size=8) In ==> uint(size=8) Out : f: action In:[x] ==> Out:[x ^ K] end g: action In:[x] ==> Out:[x] end schedule fsm s : s (f) --> t; t (g) --> s; end end";

/// The files of a network of so many instances, each a name and its bytes.
///
/// # Errors
///
/// `Memory` if memory runs out.
pub fn network_files(alloc: Global, instances: u32) -> Result<Vec<(String, Vec<u8>)>, Memory>
    requires some { 0 < instances }
    ensures { IfOk result (λ files. map named files.items ≡ files_of instances) }
{
    let top = top_file(alloc, instances)?;
    let add = add_file(alloc)?;
    let flip = flip_file(alloc)?;
    three_files(alloc, top, add, flip)
}

/// These files.
fn three_files(
    alloc: Global,
    first: (String, Vec<u8>),
    second: (String, Vec<u8>),
    third: (String, Vec<u8>),
) -> Result<Vec<(String, Vec<u8>)>, Memory>
    ensures { IfOk result (λ files. map named files.items
        ≡ named first ∷ named second ∷ named third ∷ []) }
{
    let mut files = Vec::with_capacity(alloc, 3)?;
    files.push(first)?;
    files.push(second)?;
    files.push(third)?;
    Ok(files)
}

/// The file of a network of so many instances.
#[tactic(auto, unfolding(crate::specs::Texts::top_file))]
fn top_file(alloc: Global, instances: u32) -> Result<(String, Vec<u8>), Memory>
    requires some { 0 < instances }
    ensures { IfOk result (λ file. named file ≡ top_file instances) }
{
    let text = network_text(alloc, instances)?;
    named(alloc, TOP_NAME, text)
}

/// The file of the instances with an even number.
#[tactic(auto, unfolding(crate::specs::Texts::add_file))]
fn add_file(alloc: Global) -> Result<(String, Vec<u8>), Memory>
    ensures { IfOk result (λ file. named file ≡ add_file) }
{
    let text = Vec::from_slice(alloc, ADD)?;
    named(alloc, ADD_NAME, text)
}

/// The file of the others.
#[tactic(auto, unfolding(crate::specs::Texts::flip_file))]
fn flip_file(alloc: Global) -> Result<(String, Vec<u8>), Memory>
    ensures { IfOk result (λ file. named file ≡ flip_file) }
{
    let text = Vec::from_slice(alloc, FLIP)?;
    named(alloc, FLIP_NAME, text)
}

/// A file of this name.
fn named(alloc: Global, name: &str, bytes: Vec<u8>) -> Result<(String, Vec<u8>), Memory>
    ensures { IfOk result (λ file. named file
        ≡ record { name = name.now; bytes = bytes.items }) }
{
    let name = String::from_str(alloc, name)?;
    Ok((name, bytes))
}
