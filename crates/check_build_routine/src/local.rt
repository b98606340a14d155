//! The locals of functions, procedures and actions.

ghost use Rattle.std.specs.Prelude.{◌≡◌, ◌&&◌, IfOk, map, option_map};
ghost use Rattle.cal_ast.specs.Tree.{listed};
ghost use Rattle.cal_ast.specs.View.{expr_tree, optional_expr, type_tree, var_tree};
ghost use Rattle.cal_check.specs.Routines.{locals_of, start_of};
ghost use Rattle.cal_check.specs.Statements.{names_behind};
ghost use Rattle.cal_check.specs.Violations.{fine};
ghost use Rattle.cal_check.specs.Written.{behind_vars};
ghost use Rattle.cal_model.specs.Kinding.{type_judged};
ghost use Rattle.cal_model.specs.View.{kind_view, local_view, shape_view};
ghost use Rattle.const_env.specs.Counting.{names_view};
ghost use Rattle.check_fold.specs.Seeing.{seen_behind};
ghost use Rattle.check_build_routine.specs.Declaring.{IsLocal, is_fine, kind_or_number, shape_or_bool};

use cal_ast::{Expr, TypeExpr, VarDecl};
use cal_model::{BoundLocal, Kind, Shape, kind_of_type};
use check_fold::expr;
use const_eval::{Inside, KindFault, Names, Variable, Variables, type_judged};
use rvc_base::{Memory, Scalar};
use std::alloc::Global;

/// The locals of a function, a procedure or an action.
#[derive(Drop)]
pub struct DeclaredLocals {
    /// The locals, with their sizes and bounds written out.
    pub locals: Vec<BoundLocal>,
    /// The same, as what stands behind them sees them.
    pub behind: Variables,
    /// Whether the type of none breaks a rule.
    pub typed: bool,
}

/// A local.
#[derive(Drop)]
pub(crate) struct DeclaredLocal {
    pub local: BoundLocal,
    /// The same, as what stands behind it sees it.
    pub variable: Variable,
    /// Whether its type breaks no rule.
    pub typed: bool,
}

/// Locals, each of which sees those before it.
///
/// # Errors
///
/// `Memory` if memory runs out.
pub fn locals(names: &Names, declared: &[VarDecl]) -> Result<DeclaredLocals, Memory>
    ensures locals { IfOk result (λ found. map local_view found.locals.items
        ≡ locals_of (listed (map var_tree declared.now)) (names_view names.now)) }
    ensures behind { IfOk result (λ found. seen_behind found.behind names.now
        ≡ behind_vars (listed (map var_tree declared.now)) (names_view names.now)) }
    ensures typed { IfOk result (λ found. found.typed
        ≡ is_fine (names_behind (listed (map var_tree declared.now)) (names_view names.now))) }
{
    let mut locals = Vec::new(names.alloc);
    let mut behind = Variables::new(names.alloc);
    let mut typed = true;
    let mut rest = declared;
    'each: while let Some((first, others)) = rest.split_first() {
        let found = local_behind(names, &behind, first)?;
        locals.push(found.local)?;
        behind.add(found.variable)?;
        typed = both(typed, found.typed);
        rest = others;
    }
    Ok(DeclaredLocals {
        locals,
        behind,
        typed,
    })
}

/// Whether both hold.
fn both(a: bool, b: bool) -> bool
    ensures { result ≡ (a && b) }
{
    a && b
}

/// A local that stands behind others.
pub(crate) fn local_behind(
    names: &Names,
    before: &Variables,
    v: &VarDecl,
) -> Result<DeclaredLocal, Memory>
    ensures { IfOk result (λ found. IsLocal found (var_tree v.now) (seen_behind before.now names.now)) }
{
    let inside = Inside {
        variables: Some(before),
        gens: &[],
        outer: names.inner,
    };
    local(&names.under(&inside), v)
}

/// A local.
fn local(names: &Names, v: &VarDecl) -> Result<DeclaredLocal, Memory>
    ensures { IfOk result (λ found. IsLocal found (var_tree v.now) (names_view names.now)) }
{
    let shape = shape_declared(names, &v.shape)?;
    let typed = shape.is_some();
    let kind = kind_or_number(names.alloc, &shape)?;
    let start = start_of(names, &v.start)?;
    let variable = Variable {
        name: v.name.text.clone()?,
        kind,
        changes: v.changes,
    };
    let local = BoundLocal {
        name: v.name.text.clone()?,
        shape: shape_or_bool(shape),
        start,
        changes: v.changes,
    };
    Ok(DeclaredLocal {
        local,
        variable,
        typed,
    })
}

/// The type that a type in a source is, if it breaks no rule.
fn shape_declared(names: &Names, shape: &TypeExpr) -> Result<Option<Shape>, Memory>
    ensures { IfOk result (λ found. option_map shape_view found
        ≡ fine (type_judged (type_tree shape.now) (names_view names.now))) }
{
    match type_judged(names, shape) {
        Ok(t) => Ok(Some(t)),
        Err(KindFault::Broken { .. }) => Ok(None),
        Err(KindFault::Memory) => Err(Memory),
    }
}

/// The kind of the values of a type. What has no type is taken as a number.
fn kind_or_number(alloc: Global, shape: &Option<Shape>) -> Result<Kind, Memory>
    ensures { IfOk result (λ kind. kind_view kind
        ≡ kind_or_number (option_map shape_view shape.now)) }
{
    match shape {
        Some(t) => kind_of_type(alloc, t),
        None => Ok(Kind::Num),
    }
}

/// A type. What has none is taken as a truth value.
fn shape_or_bool(shape: Option<Shape>) -> Shape
    ensures { shape_view result ≡ shape_or_bool (option_map shape_view shape) }
{
    match shape {
        Some(t) => t,
        None => Shape::Scalar(Scalar::Bool),
    }
}

/// The start of a local, if it has one.
fn start_of(names: &Names, start: &Option<Expr>) -> Result<Option<Expr>, Memory>
    ensures { IfOk result (λ found. option_map expr_tree found
        ≡ start_of (optional_expr start.now) (names_view names.now)) }
{
    match start {
        Some(e) => Ok(Some(expr(names, e)?)),
        None => Ok(None),
    }
}
