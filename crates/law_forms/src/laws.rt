//! Laws of expressions of which code can be made. Each is a function that does nothing: its contract is what is proved.

ghost use Rattle.law_forms.specs.NoneLeft.{NothingLeft, NothingLeftOfArguments, NothingLeftOfEach};
ghost use Rattle.law_forms.specs.NoneLeft.{ScalarsAreSeen, TruthsAreSeen, TypesAreSeen};

/// Nothing is left out of an expression that has a kind where a type of that kind is meant, be it a list or a single value
/// (`whole`), nor of several of one kind (`each`), nor of the arguments of a call (`arguments`).
pub fn nothing_is_left_out()
    ensures whole { NothingLeft }
    ensures each { NothingLeftOfEach }
    ensures arguments { NothingLeftOfArguments }
{}

/// An expression of the kind of truth values is seen to give one.
pub fn truths_are_seen()
    ensures { TruthsAreSeen }
{}

/// A type whose sizes are written out is seen to be what it is judged to be (`types`), and one of single values too
/// (`scalars`).
pub fn types_are_seen()
    ensures types { TypesAreSeen }
    ensures scalars { ScalarsAreSeen }
{}
