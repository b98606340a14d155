//! Open files, by number.

ghost use Rattle.std.specs.Prelude.{◌≡◌, ◌<◌, ◌+◌, ℕ, [], true, false, OnOk, length, map, is_some, slice_set};
ghost use Rattle.rvc_real.specs.Open.{is_open_at};

use std::alloc::{AllocError, Global};
use std::marker::Model;

/// Files by number, each open or not. Contracts see for each number whether its file is open.
#[derive(Drop)]
pub(crate) struct OpenFiles<F> {
    files: Vec<Option<F>>,
}

impl<F> Model for OpenFiles<F> {
    ghost use Rattle.std.specs.Prelude.{List, Bool, is_some, map};

    ghost Value = { List Bool };

    ghost view = { λ f. map is_some f.files.items };
}

impl<F: Drop> OpenFiles<F> {
    /// No file is open.
    pub(crate) fn new(alloc: Global) -> OpenFiles<F>
        ensures { result ≡ [] }
    {
        OpenFiles {
            files: Vec::new(alloc),
        }
    }

    /// Makes room for the file of `number`.
    pub(crate) fn make_room(&mut self, number: u32) -> Result<(), AllocError>
        ensures there { OnOk result (number < length self.new) }
        ensures same_open { (other : ℕ) → is_open_at self.new other ≡ is_open_at self.old other }
    {
        let missing = (number as usize + 1).saturating_sub(self.files.len());
        add_closed(&mut self.files, missing)
    }

    /// Keeps the open file of `number`.
    pub(crate) fn keep(&mut self, number: u32, file: F)
        requires { number < length self.old }
        ensures { self.new ≡ slice_set self.old number true }
    {
        self.files[number as usize] = Some(file);
    }

    /// Hands out the open file of `number`.
    pub(crate) fn take(&mut self, number: u32) -> F
        requires { is_open_at self.old number ≡ true }
        ensures there { number < length self.old }
        ensures open { self.new ≡ slice_set self.old number false }
    {
        let Some(file) = self.files[number as usize].take() else {
            unreachable!()
        };
        file
    }
}

/// Adds so many numbers whose files aren't open.
#[tactic(auto, using(crate::proofs::OpenLemmas::closed_more))]
fn add_closed<F: Drop>(files: &mut Vec<Option<F>>, count: usize) -> Result<(), AllocError>
    ensures added { OnOk result (length files.new.items ≡ length files.old.items + count) }
    ensures same_open { (other : ℕ)
        → is_open_at (map is_some files.new.items) other
        ≡ is_open_at (map is_some files.old.items) other }
{
    for _number in 0..count {
        files.push(None)?;
    }
    Ok(())
}
