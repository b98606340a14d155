//! What is found of a name's place in a part.

ghost use Rattle.std.specs.Prelude.{◌≡◌, ◌||◌, ◌++◌, ◌∷◌, ℕ, Bool, List, [], false};
ghost use Rattle.cal_ast.specs.Places.{begins};
ghost use Rattle.cal_ast.specs.Tree.{Tree};
ghost use Rattle.cal_check.specs.Constants.{uses_at};
ghost use Rattle.check_variable.specs.Finding.{Finds, or_at};

/// Whether a name is used at an offset, and where the last expression begins that must be constant and uses it.
#[derive(Clone, Copy)]
pub(crate) struct Found {
    pub uses: bool,
    pub last: Option<u32>,
}

impl Found {
    /// It isn't used.
    pub fn nowhere() -> Found
        ensures { (p : ℕ) → Finds p result false [] }
    {
        Found {
            uses: false,
            last: None,
        }
    }

    /// It is used, or it isn't.
    pub fn here(uses: bool) -> Found
        ensures { (p : ℕ) → Finds p result uses [] }
    {
        Found { uses, last: None }
    }

    /// What is found in a part, and then in another one.
    pub fn and(self, later: Found) -> Found
        ensures { (p : ℕ) (u v : Bool) (cs ds : List Tree) → Finds p self u cs → Finds p later v ds
            → Finds p result (u || v) (cs ++ ds) }
    {
        Found {
            uses: either(self.uses, later.uses),
            last: later_of(self.last, later.last),
        }
    }

    /// What is found in an expression that must be constant, and begins at an offset.
    pub fn constant(self, at: u32) -> Found
        ensures { (p : ℕ) (e : Tree) (u : Bool) (cs : List Tree) → at ≡ begins e → u ≡ uses_at p e
            → Finds p self u cs → Finds p result u (e ∷ cs) }
    {
        if self.uses && self.last.is_none() {
            return Found {
                uses: true,
                last: Some(at),
            };
        }
        self
    }

    /// The offset at which the last expression begins, or else this one.
    pub fn or_at(self, at: u32) -> u32
        ensures { result ≡ or_at self.last at }
    {
        self.last.unwrap_or(at)
    }
}

/// Whether one of both is so.
fn either(a: bool, b: bool) -> bool
    ensures { result ≡ (a || b) }
{
    a || b
}

/// The later one of two places, if there is one.
fn later_of(first: Option<u32>, second: Option<u32>) -> Option<u32>
    ensures { (at : ℕ) → or_at result at ≡ or_at second (or_at first at) }
{
    match second {
        Some(place) => Some(place),
        None => first,
    }
}
