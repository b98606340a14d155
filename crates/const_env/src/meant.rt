//! What a name means.

ghost use Rattle.std.specs.Prelude.{◌≡◌, IfOk};
ghost use Rattle.cal_model.specs.View.{kind_view};
ghost use Rattle.const_env.specs.Counting.{meant_view};

use crate::kinds::copy_kind;
use cal_model::Kind;
use rvc_base::Memory;
use std::alloc::Global;

/// What a name means: its kind, and whether it may be assigned.
#[derive(Clone, Copy, Debug)]
pub struct Meant<'a> {
    /// If it is absent, the name is a number.
    pub kind: Option<&'a Kind>,
    pub changes: bool,
}

impl<'a> Meant<'a> {
    /// Its kind, as one of its own.
    ///
    /// # Errors
    ///
    /// `Memory` if memory runs out.
    pub fn copied(self, alloc: Global) -> Result<Kind, Memory>
        ensures { IfOk result (λ kind. kind_view kind ≡ (meant_view self.entry).kind) }
    {
        match self.kind {
            None => Ok(Kind::Num),
            Some(kind) => copy_kind(alloc, kind),
        }
    }
}
