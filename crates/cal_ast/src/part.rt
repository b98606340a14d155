//! Copies of parts, of lists of parts, and of parts that may be missing.

ghost use Rattle.std.specs.Prelude.{◌≡◌, IfOk, Ok, map, option_map};

use std::alloc::{AllocError, Global};

/// A part of a tree.
pub(crate) trait Part: Drop {
    ghost use Rattle.cal_ast.specs.Tree.{Tree};

    ghost tree: { Self → Tree };

    /// An equal part.
    fn copied(&self, alloc: Global) -> Result<Self, AllocError>
        ensures { IfOk result (λ copied. tree copied ≡ tree self.now) };
}

impl<T: Part> Part for Vec<T> {
    ghost use Rattle.cal_ast.specs.Tree.{listed};

    ghost tree = { λ parts. listed (map T.tree parts.items) };

    fn copied(&self, alloc: Global) -> Result<Vec<T>, AllocError> {
        copy_all(alloc, self)
    }
}

impl<T: Part> Part for Option<T> {
    ghost use Rattle.cal_ast.specs.View.{optional};

    ghost tree = { λ part. optional (option_map T.tree part) };

    fn copied(&self, alloc: Global) -> Result<Option<T>, AllocError> {
        match self {
            Some(part) => Ok(Some(part.copied(alloc)?)),
            None => Ok(None),
        }
    }
}

/// Equal parts in the same order.
pub(crate) fn copy_all<T: Part>(alloc: Global, parts: &[T]) -> Result<Vec<T>, AllocError>
    ensures { IfOk result (λ copied. map T.tree copied.items ≡ map T.tree parts.now) }
{
    let mut copied = Vec::new(alloc);
    for part in parts {
        copied.push(part.copied(alloc)?)?;
    }
    Ok(copied)
}

/// Two equal parts.
pub(crate) fn copy_two<A: Part, B: Part>(alloc: Global, a: &A, b: &B) -> Result<(A, B), AllocError>
    ensures { IfOk result (λ copied. (A.tree copied.0 ≡ A.tree a.now)
        × (B.tree copied.1 ≡ B.tree b.now)) }
{
    Ok((a.copied(alloc)?, b.copied(alloc)?))
}

/// Three equal parts.
pub(crate) fn copy_three<A: Part, B: Part, C: Part>(
    alloc: Global,
    a: &A,
    b: &B,
    c: &C,
) -> Result<(A, B, C), AllocError>
    ensures { IfOk result (λ copied. (A.tree copied.0 ≡ A.tree a.now)
        × (B.tree copied.1 ≡ B.tree b.now) × (C.tree copied.2 ≡ C.tree c.now)) }
{
    Ok((a.copied(alloc)?, b.copied(alloc)?, c.copied(alloc)?))
}

/// Two parts, if both were copied. The second is tried too where the first has failed.
pub(crate) fn both<A: Drop, B: Drop>(
    a: Result<A, AllocError>,
    b: Result<B, AllocError>,
) -> Result<(A, B), AllocError>
    ensures { IfOk result (λ copied. (a ≡ Ok copied.0) × (b ≡ Ok copied.1)) }
{
    Ok((a?, b?))
}

/// A part on the heap, if it was copied.
pub(crate) fn boxed<T: Drop>(
    alloc: Global,
    part: Result<T, AllocError>,
) -> Result<Box<T>, AllocError>
    ensures { IfOk result (λ boxed. part ≡ Ok boxed.value) }
{
    Ok(Box::new(alloc, part?)?)
}
