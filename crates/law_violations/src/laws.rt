//! Laws of actors that break no rule. Each is a function that does nothing: its contract is what is proved.

ghost use Rattle.law_violations.specs.Missing.{ExpressionsTell, TypesTell};
ghost use Rattle.law_violations.specs.Numbers.{ExpressionsHaveNumbers, TypesHaveNumbers};
ghost use Rattle.law_violations.specs.Values.{VariablesHaveValues};

/// In an expression that has a kind (`expressions`), and in a type (`types`), each size and each bound of a generator
/// gives a number over the names that it sees.
pub fn sizes_and_bounds_give_numbers()
    ensures expressions { ExpressionsHaveNumbers }
    ensures types { TypesHaveNumbers }
{}

/// If an actor breaks no rule, each of its parameters, constants and variables, and of those that its imports lead to,
/// has a type and a value, over those before it.
pub fn variables_have_values()
    ensures { VariablesHaveValues }
{}

/// If an expression has no kind since something in it isn't constant (T9) or traps (T7), a size or a bound of a generator
/// begins at that place, and its evaluation gives no number or traps (`expressions`); and so of a type (`types`).
pub fn what_is_not_constant_is_there()
    ensures expressions { ExpressionsTell }
    ensures types { TypesTell }
{}
