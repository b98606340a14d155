//! Lists of parts, which are taken out of their boxes.

ghost use Rattle.std.specs.Prelude.{◌≡◌, ◌++◌, ◌∷◌, [], IfOk};

use std::alloc::AllocError;

/// These parts and one more.
pub fn with_part<T: Drop>(parts: Vec<T>, next: Box<T>) -> Result<Vec<T>, AllocError>
    ensures { IfOk result (λ xs. xs.items ≡ parts.items ++ next.value ∷ []) }
{
    let mut parts = parts;
    parts.push(Box::into_inner(next))?;
    Ok(parts)
}

/// A part before others.
pub fn before_parts<T: Drop>(first: Box<T>, others: Vec<T>) -> Result<Vec<T>, AllocError>
    ensures { IfOk result (λ xs. xs.items ≡ first.value ∷ others.items) }
{
    let mut parts = others;
    parts.insert(0, Box::into_inner(first))?;
    Ok(parts)
}
