//! Laws of code of statements and procedures. Each is a function that does nothing: its contract is what is proved.

ghost use Rattle.std.specs.Prelude.{◌≤◌, ℕ, ℤ, List};
ghost use Rattle.cal_model.specs.Actor.{Fun, Proc};
ghost use Rattle.cal_model.specs.Call.{calls_of};
ghost use Rattle.cal_model.specs.Statement.{runs_of};
ghost use Rattle.code_ir.specs.Code.{Code};
ghost use Rattle.code_ir.specs.declared.instr.Instr.{Instr};
ghost use Rattle.lower_base.specs.Callees.{Function};
ghost use Rattle.lower_base.specs.Calling.{Serves};
ghost use Rattle.lower_base.specs.Held.{AreBelow};
ghost use Rattle.lower_base.specs.Names.{Name};
ghost use Rattle.lower_base.specs.Placed.{StandsAt};
ghost use Rattle.lower_base.specs.Routining.{world_of};
ghost use Rattle.lower_stmt.specs.Acting.{ServesRuns};
ghost use Rattle.lower_stmt.specs.Changing.{AreTyped, NamesApart};
ghost use Rattle.lower_stmt.specs.Calls.{HasRunRoutines};
ghost use Rattle.lower_stmt.specs.Proceeding.{AreProcRoutines, FitsAsProc, IsProcRoutine, ProcSized};
ghost use Rattle.lower_stmt.specs.Procedures.{Procedure, Routines};

/// Routines that stand in code for procedures, each behind those that it calls and all behind those of functions, do
/// what the procedures do, and have no other ends. Those of the functions do what these do there, and the cells of all
/// of them are in a row.
pub fn routines_do_what_procedures_do()
    ensures procedures { (globals : List Name) (whole : Code) (tokens : ℕ → List ℤ)
        (funs : List Fun) (procs : List Proc) (fs : List Function) (ps : List Procedure) (low n : ℕ)
        → AreBelow low globals → NamesApart globals → AreTyped globals
        → AreProcRoutines globals whole funs procs low fs ps n
        → ServesRuns (world_of whole tokens (calls_of funs) low n) (runs_of procs (calls_of funs)) globals ps }
    ensures functions { (globals : List Name) (whole : Code) (tokens : ℕ → List ℤ) (funs : List Fun)
        (procs : List Proc) (fs : List Function) (ps : List Procedure) (low n : ℕ)
        → AreBelow low globals → AreProcRoutines globals whole funs procs low fs ps n
        → Serves (world_of whole tokens (calls_of funs) low n) globals fs }
    ensures cells { (globals : List Name) (whole : Code) (funs : List Fun) (procs : List Proc)
        (fs : List Function) (ps : List Procedure) (low n : ℕ)
        → AreProcRoutines globals whole funs procs low fs ps n → low ≤ n }
{}

/// The code of a procedure's routine fits where it stands in code that has the routines which it calls, with cells for
/// all of them.
pub fn procedures_fit()
    ensures { (whole : Code) (callable limit : ℕ) (globals : List Name) (rs : Routines) (p : Proc)
        (g : Procedure) (base n m : ℕ) (code : List Instr)
        → HasRunRoutines whole callable limit rs → AreBelow n globals → AreTyped globals → ProcSized p
        → m ≤ limit → StandsAt whole.instrs base code
        → IsProcRoutine globals rs p g base n code m → FitsAsProc whole callable limit base code }
{}
