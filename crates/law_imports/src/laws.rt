//! Laws of refusals. Each is a function that does nothing: its contract is what is proved.

ghost use Rattle.law_imports.specs.Refusing.{CircleOfCallsIsOne, CircleOfImportsIsOne, MissingIsMissing};

/// If an import is refused as one without a file (S3), a file to which imports lead has it at this place, and there is no
/// file of the class that it names.
pub fn missing_imports_are_missing()
    ensures { MissingIsMissing }
{}

/// If imports are refused since they lead in a circle (S6), the import at this place stands on one: from the file that it
/// names imports lead back to its own.
pub fn circles_of_imports_are_circles()
    ensures { CircleOfImportsIsOne }
{}

/// If a call is refused since functions or procedures call themselves (S4), the call at this place stands on a circle:
/// from what it calls, calls lead back to where it stands.
pub fn circles_of_calls_are_circles()
    ensures { CircleOfCallsIsOne }
{}
