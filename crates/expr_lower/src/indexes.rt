//! How many indexes are put on an expression.

ghost use Rattle.std.specs.Prelude.{◌≡◌, nat_eq};
ghost use Rattle.expr_lower.specs.Indexing.{number_of};

/// A number of indexes, as many as there are links. So no expression has more than can be told.
#[derive(Clone, Copy, Drop)]
pub(crate) enum Indexes<'a> {
    /// None.
    None,
    /// One more than these.
    OneMore(&'a Indexes<'a>),
}

/// Whether there are none.
pub(crate) fn is_none(depth: &Indexes) -> bool
    ensures { result ≡ nat_eq (number_of depth.now) 0 }
{
    match depth {
        Indexes::None => true,
        Indexes::OneMore(_) => false,
    }
}
