//! What is left of an actor's parts without what isn't used.

ghost use Rattle.std.specs.Prelude.{◌≡◌, map};
ghost use Rattle.cal_check.specs.Actors.{Source, kept_funs, kept_vars};
ghost use Rattle.cal_model.specs.View.{fun_view, var_view};
ghost use Rattle.check_used.specs.Using.{Keeps};

use crate::used::UsedNames;
use cal_model::{BoundFun, BoundVar};

/// Leaves out the variables that aren't kept.
pub fn keep_vars(used: &UsedNames, vars: &mut Vec<BoundVar>)
    ensures { (s : Source) → Keeps used.now s
        → map var_view vars.new.items ≡ kept_vars (map var_view vars.old.items) s }
{
    vars.retain(|x| used.keeps(x.name.as_str()));
}

/// Leaves out the functions that aren't kept.
pub fn keep_funs(used: &UsedNames, funs: &mut Vec<BoundFun>)
    ensures { (s : Source) → Keeps used.now s
        → map fun_view funs.new.items ≡ kept_funs (map fun_view funs.old.items) s }
{
    funs.retain(|f| used.keeps(f.name.as_str()));
}
