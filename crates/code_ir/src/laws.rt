//! Laws of running admitted code. Each is a function that does nothing: its contract is what is proved.

ghost use Rattle.std.specs.Prelude.{◌≡◌, ◌≢◌, ℕ, ℤ, List, true, length};
ghost use Rattle.code_ir.specs.Code.{Code, is_among};
ghost use Rattle.code_ir.specs.Running.{State, Lacks, Stuck, step, Reaches, start, runs, HasItsTokens};
ghost use Rattle.code_ir.specs.Typing.{IsAdmitted};
ghost use Rattle.code_ir.specs.Standing.{IsFine, Stands};
ghost use Rattle.code_ir.specs.declared.outcome.Outcome.{Outcome};

/// A run of admitted code never lacks an operand, leaves its code or names a cell outside.
pub fn never_stuck()
    ensures { (code : Code) (e : ℕ) (cells : List ℤ) (tokens : ℕ → List ℤ) (s : State)
        → IsAdmitted code → is_among e code.entries ≡ true → length cells ≡ code.cells
        → Reaches code tokens (start e cells) s → step code tokens s ≢ Stuck }
{}

/// A run of admitted code whose tokens are there has exactly one end.
pub fn has_one_end()
    ensures ends { (code : Code) (e : ℕ) (cells : List ℤ) (tokens : ℕ → List ℤ) → IsAdmitted code
        → is_among e code.entries ≡ true → length cells ≡ code.cells
        → HasItsTokens code e cells tokens → (o : Outcome) × (c : List ℤ)
        × runs code e cells tokens o c }
    ensures once { (code : Code) (e : ℕ) (cells : List ℤ) (tokens : ℕ → List ℤ) (o p : Outcome)
        (c d : List ℤ) → runs code e cells tokens o c → runs code e cells tokens p d → (o ≡ p)
        × (c ≡ d) }
{}

/// A run starts in a state that stands, and each step of admitted code from such a state leads to one that is
/// nearer to its end, or ends the run.
pub fn stands()
    ensures first { (code : Code) (e : ℕ) (cells : List ℤ) → IsAdmitted code
        → is_among e code.entries ≡ true → length cells ≡ code.cells → Stands code (start e cells) }
    ensures next { (code : Code) (tokens : ℕ → List ℤ) (s : State) → IsAdmitted code → Stands code s
        → IsFine code s (step code tokens s) }
{}
