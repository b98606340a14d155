//! Names, and the dotted names of packages and actions.

ghost use Rattle.std.specs.Prelude.{◌≡◌, IfOk};
ghost use Rattle.cal_ast.specs.View.{ident_tree, tag_tree};

use crate::part::{Part, copy_all};
use std::alloc::{AllocError, Global};

/// A name where it stands.
#[derive(Drop)]
pub struct Ident {
    pub text: String,
    /// The offset of its first byte.
    pub at: u32,
}

/// Names with a dot between each two: the name of a package, or the tag of actions.
#[derive(Drop)]
pub struct Tag {
    pub parts: Vec<Ident>,
    /// The offset of its first byte.
    pub at: u32,
}

impl Ident {
    /// An equal name.
    ///
    /// # Errors
    ///
    /// `AllocError` if memory runs out.
    pub fn copy(&self, alloc: Global) -> Result<Ident, AllocError>
        ensures { IfOk result (λ copied. ident_tree copied ≡ ident_tree self.now) }
    {
        Ok(Ident {
            text: self.text.clone()?,
            at: self.at,
        })
    }
}

impl Part for Ident {
    ghost tree = { ident_tree };

    fn copied(&self, alloc: Global) -> Result<Ident, AllocError> {
        self.copy(alloc)
    }
}

impl Tag {
    /// An equal dotted name.
    ///
    /// # Errors
    ///
    /// `AllocError` if memory runs out.
    pub fn copy(&self, alloc: Global) -> Result<Tag, AllocError>
        ensures { IfOk result (λ copied. tag_tree copied ≡ tag_tree self.now) }
    {
        Ok(Tag {
            parts: copy_all(alloc, &self.parts)?,
            at: self.at,
        })
    }
}

impl Part for Tag {
    ghost tree = { tag_tree };

    fn copied(&self, alloc: Global) -> Result<Tag, AllocError> {
        self.copy(alloc)
    }
}
