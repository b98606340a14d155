//! What the variables of an actor come to.

ghost use Rattle.std.specs.Prelude.{◌≡◌, true};
ghost use Rattle.cal_check.specs.Variables.{none_yet, valued};
ghost use Rattle.check_functions.specs.Known.{fun_decls, names_differ};
ghost use Rattle.check_variable.specs.Views.{var_decls};
ghost use Rattle.check_given.specs.Given.{all_given, spot_of};
ghost use Rattle.check_actor.specs.Checking.{Comes};

use check_variable::{DeclaredVar, Told, Valued, value_all};
use rvc_base::Front;

/// What variables come to that stand behind no others.
///
/// # Errors
///
/// As those of [`value_all`].
pub fn value_declared(told: Told<'_>, vars: &[DeclaredVar]) -> Result<Valued, Front>
    requires { names_differ (fun_decls told.funs.now) ≡ true }
    ensures { Comes result (var_decls vars.now) (valued (var_decls vars.now) (all_given told.entry.given.now)
        (spot_of told.entry.owner) (fun_decls told.entry.funs.now) none_yet) }
{
    let mut so_far = Valued::none_yet(told.alloc);
    value_all(told, &mut so_far, vars)?;
    Ok(so_far)
}
