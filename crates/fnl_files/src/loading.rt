//! What was read, and what is still to be looked at.

ghost use Rattle.std.specs.Prelude.{◌≡◌, OnOk};
ghost use Rattle.fnl_files.specs.SoFar.{state_of, with_missed};

use crate::files::NetworkFiles;
use crate::requests::Request;
use cal_scope::NameSet;
use rvc_base::Memory;
use std::collections::VecDeque;

/// What was read, and what is still to be looked at.
#[derive(Drop)]
pub(crate) struct Loading {
    pub files: NetworkFiles,
    /// How many bytes the files have in all.
    pub bytes: usize,
    /// The classes of instances of which no network was found. They are actors from then on.
    pub missed: NameSet,
    pub waiting: VecDeque<Request>,
}

/// Notes that no network of a class was found.
pub(crate) fn note_missed(loading: &mut Loading, class: &str) -> Result<(), Memory>
    ensures { OnOk result (state_of loading.new ≡ with_missed class.now (state_of loading.old)) }
{
    loading.missed.add(class)
}
