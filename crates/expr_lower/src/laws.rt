//! Laws of code that fills cells. Each is a function that does nothing: its contract is what is proved.

ghost use Rattle.std.specs.Prelude.{◌+◌, ◌≤◌, ℕ, List, length};
ghost use Rattle.cal_ast.specs.Tree.{Tree};
ghost use Rattle.cal_model.specs.Value.{Shape, scalars_of_type};
ghost use Rattle.code_ir.specs.Code.{Code};
ghost use Rattle.code_ir.specs.declared.instr.Instr.{Instr};
ghost use Rattle.lower_base.specs.Callees.{Function};
ghost use Rattle.lower_base.specs.Calling.{HasRoutines};
ghost use Rattle.lower_base.specs.Fitting.{Fits};
ghost use Rattle.lower_base.specs.Held.{AreBelow};
ghost use Rattle.lower_base.specs.Names.{Name};
ghost use Rattle.lower_base.specs.Placed.{StandsAt};
ghost use Rattle.expr_lower.specs.Filled.{FillsWith};
ghost use Rattle.expr_lower.specs.Filling.{IsFill};

/// Code of a list, wherever it stands, fills cells with what evaluating the list gives, or traps as that does, after as
/// many turns; and a run of it has no other end.
pub fn lists_are_filled()
    ensures { (fs : List Function) (names : List Name) (e : Tree) (t : Shape)
        (c base n m : ℕ) (code : List Instr)
        → AreBelow c names → c + scalars_of_type t ≤ n → IsFill fs names e t c base n code m
        → FillsWith fs names e t c base m code }
{}

/// Code of a list fits where it stands in code that has the routines which it calls, with cells for all that it uses.
pub fn lists_fit()
    ensures { (whole : Code) (callable limit h : ℕ) (fs : List Function) (names : List Name)
        (e : Tree) (t : Shape) (c base n m : ℕ) (code : List Instr)
        → HasRoutines whole callable limit fs → AreBelow c names → c + scalars_of_type t ≤ n
        → m ≤ limit → StandsAt whole.instrs base code → IsFill fs names e t c base n code m
        → Fits whole callable limit base h code h (base + length code) h }
{}
