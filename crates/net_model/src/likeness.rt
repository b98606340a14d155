//! What holds of two networks whose leaves behave alike.
//!
//! They have the same links and ports, and the states of their leaves are related: at the starts, and again after
//! each firing, which takes and sends the same in both. So what is proved of a run of cells holds of the network
//! of the sources that the cells stand for.

ghost use Rattle.std.specs.Prelude.{ℕ, ℤ};
ghost use Rattle.net_model.specs.Alike.{BytesAreAlike, EndsAreAlike, LinesKeepAlike, LinesPlayAlike, PacedAlike, StartsAreAlike, TextsAreAlike};

/// A relation between the states of the leaves of two networks, for each leaf, and the tokens that may come before
/// each port of a leaf.
pub trait Likeness {
    ghost One: { Type 0 };

    ghost Other: { Type 0 };

    ghost related: { ℕ → One → Other → Type 0 };

    ghost allowed: { ℕ → ℕ → ℤ → Type 0 };
}

/// Lines that play from a state of the one network play from a related state of the other, and lead to related
/// states with equal links and marks; and so it is with lines that are paced. The starts over the same files are
/// related.
pub fn lines_play_alike<K: Likeness>()
    ensures starts { StartsAreAlike K.related K.allowed }
    ensures plays { LinesPlayAlike K.related K.allowed }
    ensures keeps { LinesKeepAlike K.related K.allowed }
    ensures paced { PacedAlike K.related K.allowed }
{}

/// In related states both networks are quiet, stalled, stuck or neither, and have the same bytes at each output.
/// The texts of the same lines are the same.
pub fn ends_are_alike<K: Likeness>()
    ensures ends { EndsAreAlike K.related K.allowed }
    ensures texts { TextsAreAlike K.related K.allowed }
    ensures bytes { BytesAreAlike K.related K.allowed }
{}
