//! The formals of functions and procedures, and types of single values.
#![tactic(auto, using(crate::proofs::Judged::breaks_on))]

ghost use Rattle.std.specs.Prelude.{◌≡◌, IfOk, map};
ghost use Rattle.cal_ast.specs.Places.{begins};
ghost use Rattle.cal_ast.specs.Tree.{listed};
ghost use Rattle.cal_ast.specs.View.{port_tree, type_tree};
ghost use Rattle.cal_check.specs.Routines.{formal_judged, formals_judged, single_type};
ghost use Rattle.cal_model.specs.Sound.{known_local, with_locals};
ghost use Rattle.cal_model.specs.View.{local_view};
ghost use Rattle.const_env.specs.Counting.{known_variable, names_view, variable_view};
ghost use Rattle.const_env.specs.Judging.{Judges};
ghost use Rattle.check_fold.specs.Seeing.{seen_behind};

use cal_ast::{PortDecl, TypeExpr};
use cal_model::{BoundLocal, Shape, kind_of_type};
use const_eval::{Inside, KindFault, Names, Variable, Variables, type_judged};
use rvc_base::{Memory, Rule, Scalar};
use std::alloc::Global;

/// The formals of a function or a procedure.
#[derive(Drop)]
pub struct DeclaredFormals {
    pub formals: Vec<BoundLocal>,
    /// The same, as what stands behind them sees them.
    pub behind: Variables,
}

/// Formals, each of which sees those before it.
///
/// # Errors
///
/// `Broken` if the type of a formal breaks a rule or is that of a list: the first, and its place. `Memory` if memory
/// runs out.
pub fn formals(names: &Names, declared: &[PortDecl]) -> Result<DeclaredFormals, KindFault>
    ensures formals { Judges (λ found. map local_view found.formals.items) result
        (formals_judged (listed (map port_tree declared.now)) (names_view names.now)) }
    ensures behind { IfOk result (λ found. seen_behind found.behind names.now
        ≡ with_locals (map local_view found.formals.items) (names_view names.now)) }
{
    let mut formals = Vec::new(names.alloc);
    let mut behind = Variables::new(names.alloc);
    let mut rest = declared;
    'each: while let Some((first, others)) = rest.split_first() {
        let x = formal_behind(names, &behind, first)?;
        let variable = variable_of(names.alloc, &x)?;
        formals.push(x)?;
        behind.add(variable)?;
        rest = others;
    }
    Ok(DeclaredFormals { formals, behind })
}

/// A formal that stands behind others.
fn formal_behind(names: &Names, before: &Variables, f: &PortDecl) -> Result<BoundLocal, KindFault>
    ensures { Judges local_view result
        (formal_judged (port_tree f.now) (seen_behind before.now names.now)) }
{
    let inside = Inside {
        variables: Some(before),
        gens: &[],
        outer: names.inner,
    };
    formal(&names.under(&inside), f)
}

/// A formal: a single value without a start.
fn formal(names: &Names, f: &PortDecl) -> Result<BoundLocal, KindFault>
    ensures { Judges local_view result (formal_judged (port_tree f.now) (names_view names.now)) }
{
    let t = single_type(names, &f.shape)?;
    Ok(BoundLocal {
        name: f.name.text.clone()?,
        shape: Shape::Scalar(t),
        start: None,
        changes: true,
    })
}

/// A formal or a local as what stands behind it sees it.
fn variable_of(alloc: Global, x: &BoundLocal) -> Result<Variable, Memory>
    ensures { IfOk result (λ variable. known_variable (variable_view variable)
        ≡ known_local (local_view x.now)) }
{
    let kind = kind_of_type(alloc, &x.shape)?;
    Ok(Variable {
        name: x.name.clone()?,
        kind,
        changes: x.changes,
    })
}

/// A type that is that of a single value.
///
/// # Errors
///
/// `Broken` if it breaks a rule; T8 at the type if it is that of a list. `Memory` if memory runs out.
pub fn single_type(names: &Names, shape: &TypeExpr) -> Result<Scalar, KindFault>
    ensures { Judges (λ t. t) result (single_type (type_tree shape.now) (names_view names.now)) }
{
    match type_judged(names, shape)? {
        Shape::Scalar(t) => Ok(t),
        Shape::List(_, _) => Err(KindFault::Broken {
            rule: Rule::LIST_NOT_ALLOWED,
            at: place_of_type(shape),
        }),
    }
}

/// The offset at which a type begins.
fn place_of_type(t: &TypeExpr) -> u32
    ensures { result ≡ begins (type_tree t.now) }
{
    t.at
}
