//! The faults that end a firing.

ghost use Rattle.std.specs.Prelude.{◌≡◌};
ghost use Rattle.rvc_base.specs.Trap.{trap_name};

/// Why a guard, a body or an output expression has no value.
#[derive(Clone, Copy, Debug, PartialEq, Eq)]
pub enum Trap {
    /// A number doesn't fit [`crate::Num`].
    Overflow,
    /// The divisor is 0.
    DivideByZero,
    /// An index is outside its list.
    IndexRange,
    /// The count of a shift is below 0 or above [`crate::MAX_SHIFT`].
    ShiftRange,
    /// One turn too many was made.
    TurnLimit,
}

impl Trap {
    /// The name that the trace and the report print.
    pub fn name(self) -> &'static str
        ensures { result.now ≡ trap_name self }
    {
        match self {
            Trap::Overflow => "Overflow",
            Trap::DivideByZero => "DivideByZero",
            Trap::IndexRange => "IndexRange",
            Trap::ShiftRange => "ShiftRange",
            Trap::TurnLimit => "TurnLimit",
        }
    }
}
