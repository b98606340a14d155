//! What holds of all vectors that balance links.
//!
//! Each law is the contract of a function that does nothing: it is proved with the crate, and can be cited.

ghost use Rattle.balanced_rates.specs.Laws.{LeastIsOne, SumsBalance, MultiplesBalance};

/// Links have at most one repetition vector: two least vectors are equal in each leaf.
pub fn one_repetition_vector()
    ensures { LeastIsOne }
{}

/// The sum of two vectors that balance a link balances it, and so does each multiple of one.
pub fn balance_is_linear()
    ensures sums { SumsBalance }
    ensures multiples { MultiplesBalance }
{}
