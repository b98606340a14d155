//! What a name stands for.

ghost use Rattle.std.specs.Prelude.{◌≡◌};
ghost use Rattle.cal_scope.specs.Names.{is_role};

/// What a declared name stands for.
#[derive(Clone, Copy, Debug, PartialEq, Eq)]
pub enum Role {
    /// A parameter, a variable, a formal, or the variable of a pattern, a loop or a generator.
    Variable,
    Function,
    Procedure,
}

impl Role {
    /// Whether both are the same.
    pub(crate) fn is(self, other: Role) -> bool
        ensures { result ≡ is_role self other }
    {
        match self {
            Role::Variable => match other {
                Role::Variable => true,
                Role::Function => false,
                Role::Procedure => false,
            },
            Role::Function => match other {
                Role::Variable => false,
                Role::Function => true,
                Role::Procedure => false,
            },
            Role::Procedure => match other {
                Role::Variable => false,
                Role::Function => false,
                Role::Procedure => true,
            },
        }
    }
}
