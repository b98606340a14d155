//! What is worked.

ghost use Rattle.std.specs.Prelude.{◌≡◌, Bool, true, false};

/// A piece of work, which has a state and a mark 'worked'.
pub trait Piece: Drop {
    /// What the work changes.
    ghost State: { Type 0 };
    /// The state of the piece.
    ghost state: { Self → State };
    /// Whether the mark is set.
    ghost marked: { Self → Bool };
    /// That the piece's work gives the second state from the first.
    ghost gives: { State → State → Type 0 };

    /// Works the piece.
    fn work(&mut self)
        requires unmarked { marked self.old ≡ false }
        ensures marked { marked self.new ≡ true }
        ensures worked { gives (state self.old) (state self.new) };
}
