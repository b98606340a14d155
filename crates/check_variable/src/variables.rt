//! Variables in the order of the text.

ghost use Rattle.std.specs.Prelude.{◌≡◌, ◌∷◌, ◌++◌, ◌||◌, [], List, OnOk, true};
ghost use Rattle.cal_ast.specs.View.{optional_expr, type_tree};
ghost use Rattle.cal_check.specs.Constants.{early_type};
ghost use Rattle.cal_check.specs.Variables.{Given, Spot, VarDecl as VarOf, come, valued, with_come, with_type, with_var};
ghost use Rattle.cal_model.specs.Kinding.{Judged, Names as NamesOf};
ghost use Rattle.cal_model.specs.Value.{IsType, Shape as ShapeOf, kind_of_type};
ghost use Rattle.cal_model.specs.View.{kind_view, shape_view};
ghost use Rattle.const_env.specs.Held.{names_in};
ghost use Rattle.const_env.specs.Judging.{Breaks};
ghost use Rattle.check_functions.specs.Calls.{calls_any};
ghost use Rattle.cal_check.specs.Routines.{FunDecl};
ghost use Rattle.check_functions.specs.Growing.{IsKept, kept_in};
ghost use Rattle.check_functions.specs.Known.{all_known, fun_decls, names_differ};
ghost use Rattle.check_variable.specs.Views.{var_decl, var_decls};
ghost use Rattle.check_given.specs.Given.{all_given, spot_of};
ghost use Rattle.check_variable.specs.Valuing.{AreSeen, Declares, Grows, Settles, Untypes, said_of};

use crate::declared::DeclaredVar;
use crate::early_type;
use crate::fault::{in_file, is_not_constant};
use crate::given::{Settled, settle};
use crate::starting::{said, start};
use crate::valued::{Told, Valued};
use cal_ast::Expr;
use cal_model::{Kind, Shape, kind_of_type, types_are_kept};
use check_functions::{
    GrowingNames, KnownName, alike_names_suffice, calls_alone_need_functions, type_calls_any,
};
use const_eval::{Env, KindFault, Names};
use rvc_base::{Front, Memory, Place};

/// What a variable of a type and its kind comes to.
fn value_of(
    told: Told<'_>,
    useless: bool,
    env: &Env,
    x: DeclaredVar,
    t: &Shape,
    k: &Kind,
) -> Result<Settled, Front>
    requires allowed { IsType (shape_view t.now) }
    requires kind { kind_view k.now ≡ kind_of_type (shape_view t.now) }
    ensures { Settles result (var_decl x.entry) (all_given told.entry.given.now) (spot_of told.entry.owner)
        (shape_view t.now)
        (said_of useless (come (shape_view t.now) (optional_expr x.entry.start.now) (names_in env.now))) }
{
    match said(useless, start(told.alloc, env, t, k, x.start)) {
        Ok(started) => settle(told, x, t, k, started),
        Err(fault) => Err(in_file(x.file, fault)),
    }
}

/// Adds a variable of a type.
fn add_typed(
    told: Told<'_>,
    so_far: &mut Valued,
    env: &Env,
    x: DeclaredVar,
    t: Shape,
) -> Result<(), Front>
    requires { IsType (shape_view t) }
    ensures declares { Declares result (var_decl x.entry ∷ []) (λ vs. with_come (var_decl x.entry)
        (all_given told.entry.given.now) (spot_of told.entry.owner) (shape_view t)
        (come (shape_view t) (optional_expr x.entry.start.now) (names_in env.now)) vs)
        so_far.old so_far.new }
    ensures grows { OnOk result (Grows so_far.old so_far.new) }
{
    let Ok(k) = kind_of_type(told.alloc, &t) else {
        return Err(Front::Memory);
    };
    let settled = value_of(told, so_far.useless, env, x, &t, &k)?;
    match so_far.add(told.alloc, x, t, k, settled) {
        Ok(()) => Ok(()),
        Err(Memory) => Err(Front::Memory),
    }
}

/// A variable whose type breaks a rule: if that isn't that of what isn't constant, it is said.
fn untyped(so_far: &mut Valued, file: u32, fault: KindFault) -> Result<(), Front>
    ensures declares { (j : Judged ShapeOf) (x : VarOf) (gs : List Given) (owner : Spot) (names : NamesOf)
        → x.file ≡ file → Breaks fault j
        → Declares result (x ∷ []) (with_type j x gs owner names) so_far.old so_far.new }
    ensures grows { OnOk result (Grows so_far.old so_far.new) }
{
    match fault {
        KindFault::Broken { rule, at } => {
            if is_not_constant(rule) {
                return untyped_at(so_far, Place { file, offset: at });
            }
            Err(in_file(file, KindFault::Broken { rule, at }))
        }
        KindFault::Memory => Err(Front::Memory),
    }
}

/// A variable whose type isn't constant.
fn untyped_at(so_far: &mut Valued, place: Place) -> Result<(), Front>
    ensures { Untypes result place so_far.old so_far.new }
{
    match so_far.untyped(place) {
        Ok(()) => Ok(()),
        Err(Memory) => Err(Front::Memory),
    }
}

/// Adds a variable over the names that it sees.
fn add_over(told: Told<'_>, so_far: &mut Valued, env: &Env, x: DeclaredVar) -> Result<(), Front>
    ensures declares { Declares result (var_decl x.entry ∷ [])
        (λ vs. with_type (early_type (type_tree x.entry.shape.now) (names_in env.now))
        (var_decl x.entry) (all_given told.entry.given.now) (spot_of told.entry.owner) (names_in env.now) vs)
        so_far.old so_far.new }
    ensures grows { OnOk result (Grows so_far.old so_far.new) }
{
    types_are_kept();
    match early_type(&Names::outermost(told.alloc, env), x.shape) {
        Ok(t) => add_typed(told, so_far, env, x, t),
        Err(fault) => untyped(so_far, x.file, fault),
    }
}

/// Whether the type or the start of a variable calls a function.
fn needs_functions(x: DeclaredVar) -> bool
    ensures { result ≡ (calls_any (type_tree x.entry.shape.now) || calls_any (optional_expr x.entry.start.now)) }
{
    type_calls_any(x.shape) || start_calls_any(x.start)
}

/// Whether a start calls a function.
fn start_calls_any(start: &Option<Expr>) -> bool
    ensures { result ≡ calls_any (optional_expr start.now) }
{
    match start {
        Some(e) => check_functions::calls_any(e),
        None => false,
    }
}

/// Adds a variable over what it sees, which is all names and functions.
fn add_calling(
    told: Told<'_>,
    so_far: &mut Valued,
    names: &mut GrowingNames,
    x: DeclaredVar,
) -> Result<(), Front>
    requires differ { names_differ (fun_decls told.funs.now) ≡ true }
    requires whole { so_far.old.whole ≡ true }
    requires names { AreSeen names.old (fun_decls told.funs.now) so_far.old }
    ensures declares { Declares result (var_decl x.entry ∷ []) (with_var (var_decl x.entry)
        (all_given told.entry.given.now) (spot_of told.entry.owner) (fun_decls told.entry.funs.now))
        so_far.old so_far.new }
    ensures grows { OnOk result (Grows so_far.old so_far.new) }
    ensures names { OnOk result (AreSeen names.new (fun_decls told.entry.funs.now) so_far.old) }
{
    alike_names_suffice();
    let Ok(()) = names.make(&so_far.known, told.funs) else {
        return Err(Front::Memory);
    };
    add_over(told, so_far, names.seen(), x)
}

/// Adds a variable over the names alone, if it calls no function.
fn add_alone(
    told: Told<'_>,
    so_far: &mut Valued,
    names: &mut GrowingNames,
    x: DeclaredVar,
) -> Result<(), Front>
    requires differ { names_differ (fun_decls told.funs.now) ≡ true }
    requires whole { so_far.old.whole ≡ true }
    requires names { AreSeen names.old (fun_decls told.funs.now) so_far.old }
    ensures declares { Declares result (var_decl x.entry ∷ []) (with_var (var_decl x.entry)
        (all_given told.entry.given.now) (spot_of told.entry.owner) (fun_decls told.entry.funs.now))
        so_far.old so_far.new }
    ensures grows { OnOk result (Grows so_far.old so_far.new) }
    ensures names { OnOk result (AreSeen names.new (fun_decls told.entry.funs.now) so_far.old) }
{
    calls_alone_need_functions();
    if needs_functions(x) {
        return add_calling(told, so_far, names, x);
    }
    add_over(told, so_far, names.alone(), x)
}

/// The last of the names that are known becomes known.
fn add_last(names: &mut GrowingNames, known: &[KnownName]) -> Result<(), Memory>
    ensures { OnOk result ((fs : List FunDecl) (before : List KnownName) (x : KnownName)
        → known.now ≡ before ++ x ∷ [] → IsKept (kept_in names.old) fs (all_known before)
        → IsKept (kept_in names.new) fs (all_known known.now)) }
{
    let Some((last, _)) = known.split_last() else {
        return Ok(());
    };
    names.add(last)
}

/// Adds a variable, unless one before it has no type. What is known becomes known to those that are seen too.
fn add_variable(
    told: Told<'_>,
    so_far: &mut Valued,
    names: &mut GrowingNames,
    x: DeclaredVar,
) -> Result<(), Front>
    requires differ { names_differ (fun_decls told.funs.now) ≡ true }
    requires names { AreSeen names.old (fun_decls told.funs.now) so_far.old }
    ensures declares { Declares result (var_decl x.entry ∷ []) (with_var (var_decl x.entry)
        (all_given told.entry.given.now) (spot_of told.entry.owner) (fun_decls told.entry.funs.now))
        so_far.old so_far.new }
    ensures names { OnOk result (AreSeen names.new (fun_decls told.entry.funs.now) so_far.new) }
{
    if !so_far.whole {
        return Ok(());
    }
    add_alone(told, so_far, names, x)?;
    if !so_far.whole {
        return Ok(());
    }
    match add_last(names, &so_far.known) {
        Ok(()) => Ok(()),
        Err(Memory) => Err(Front::Memory),
    }
}

/// Adds variables in their order.
fn add_all(
    told: Told<'_>,
    so_far: &mut Valued,
    names: &mut GrowingNames,
    vars: &[DeclaredVar],
) -> Result<(), Front>
    requires differ { names_differ (fun_decls told.funs.now) ≡ true }
    requires names { AreSeen names.old (fun_decls told.funs.now) so_far.old }
    ensures { Declares result (var_decls vars.now) (valued (var_decls vars.now)
        (all_given told.entry.given.now) (spot_of told.entry.owner) (fun_decls told.entry.funs.now))
        so_far.old so_far.new }
{
    for x in vars {
        add_variable(told, so_far, names, *x)?;
    }
    Ok(())
}

/// What variables come to behind others: each sees those before it and all functions (ISO/IEC 23001-4, RVC-CAL: state
/// variables and parameters). The names of the functions differ, which [`names_differ`](check_functions::names_differ) tests.
///
/// If a parameter is given a value, it has this value, stored in its type, and else its default.
///
/// A type or a start that isn't constant is noted, and no error: whether it is said depends on what else is broken.
/// Nothing behind a variable without a type is judged.
///
/// # Errors
///
/// `Refused` with a rule that is broken, and its place: N2 at the owner if a parameter has neither a value nor a
/// default; T1 and T5 if a value is of another kind or length than its type; T2, T3, T6, T8 and Z4 as their rules say of
/// types and starts; T7 if what must be constant traps; never T9. `Memory` if memory runs out. What the variables so far
/// come to isn't said then.
pub fn value_all(told: Told<'_>, so_far: &mut Valued, vars: &[DeclaredVar]) -> Result<(), Front>
    requires { names_differ (fun_decls told.funs.now) ≡ true }
    ensures { Declares result (var_decls vars.now) (valued (var_decls vars.now)
        (all_given told.entry.given.now) (spot_of told.entry.owner) (fun_decls told.entry.funs.now))
        so_far.old so_far.new }
{
    let Ok(mut names) = GrowingNames::new(told.alloc, &so_far.known, told.funs) else {
        return Err(Front::Memory);
    };
    add_all(told, so_far, &mut names, vars)
}
