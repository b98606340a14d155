//! Laws of values in cells and of code that fits. Each is a function that does nothing: its contract is what is proved.

ghost use Rattle.std.specs.Prelude.{◌≡◌, ◌++◌, ◌≤◌, ℕ, ℤ, List};
ghost use Rattle.cal_model.specs.Value.{HasKind, Kind, Value};
ghost use Rattle.cal_model.specs.Actor.{Fun};
ghost use Rattle.cal_model.specs.Call.{calls_of};
ghost use Rattle.code_ir.specs.Code.{Code};
ghost use Rattle.code_ir.specs.declared.instr.Instr.{Instr};
ghost use Rattle.code_ir.specs.Typing.{AllSized, IsAdmitted};
ghost use Rattle.lower_base.specs.Callees.{Function};
ghost use Rattle.lower_base.specs.Calling.{HasRoutines, Serves};
ghost use Rattle.lower_base.specs.Fitting.{FitsAsGuard, guard_of};
ghost use Rattle.lower_base.specs.Flat.{flat, of_flat};
ghost use Rattle.lower_base.specs.Held.{AreBelow};
ghost use Rattle.lower_base.specs.Names.{Name};
ghost use Rattle.lower_base.specs.Placed.{StandsAt};
ghost use Rattle.lower_base.specs.Routining.{AreRoutines, FitsAsRoutine, FunSized, IsRoutine};
ghost use Rattle.lower_base.specs.Routining.{world_of};

/// A value is read back from its numbers by its kind, whatever follows them.
pub fn values_come_back()
    ensures { (k : Kind) (v : Value) (rest : List ℤ) → HasKind k v
        → of_flat k (flat v ++ rest) ≡ v }
{}

/// Instructions that fit and leave one operand are, with an answer behind them, the code of a guard that is admitted.
pub fn fitting_guards_are_admitted()
    ensures admitted { (instrs : List Instr) (cells : ℕ)
        → FitsAsGuard instrs cells → IsAdmitted (guard_of instrs cells) }
    ensures sized { (instrs : List Instr) (cells : ℕ)
        → FitsAsGuard instrs cells → AllSized (guard_of instrs cells).instrs }
{}

/// Routines that stand in code for functions, each behind those that it calls, do what calling the functions does.
pub fn routines_do_what_functions_do()
    ensures { (globals : List Name) (whole : Code) (tokens : ℕ → List ℤ) (all : List Fun)
        (fs : List Function) (low n : ℕ)
        → AreBelow low globals → AreRoutines globals whole all low fs n
        → Serves (world_of whole tokens (calls_of all) low n) globals fs }
{}

/// The code of a routine fits where it stands in code that has the routines which it calls, with cells for all of them.
pub fn routines_fit()
    ensures { (whole : Code) (callable limit : ℕ) (globals : List Name) (fs : List Function)
        (f : Fun) (g : Function) (base n m : ℕ) (code : List Instr)
        → HasRoutines whole callable limit fs → AreBelow n globals → FunSized f → m ≤ limit
        → StandsAt whole.instrs base code → IsRoutine globals fs f g base n code m
        → FitsAsRoutine whole callable limit base code }
{}
