//! Types of single values.
#![tactic(auto, using(crate::proofs::Judged::breaks_single))]

ghost use Rattle.rvc_base.specs.Rules.{list_not_allowed};
ghost use Rattle.cal_ast.specs.Places.{begins};
ghost use Rattle.cal_ast.specs.View.{type_tree};
ghost use Rattle.cal_model.specs.Kinding.{Fine};
ghost use Rattle.cal_model.specs.View.{shape_view};
ghost use Rattle.const_env.specs.Counting.{names_view};
ghost use Rattle.const_env.specs.Judging.{Judges};
ghost use Rattle.std.specs.Prelude.{◌≡◌};
ghost use Rattle.cal_check.specs.Routines.{single, single_type};

use cal_ast::TypeExpr;
use cal_model::Shape;
use const_eval::{KindFault, Names, type_judged};
use rvc_base::{Rule, Scalar};

/// The type of a single value, as that of a formal or of a function's result.
///
/// # Errors
///
/// `Broken`: the first rule that the type breaks, or T8 at it if it is that of lists. `Memory` if memory runs out.
pub fn single_type(names: &Names, shape: &TypeExpr) -> Result<Scalar, KindFault>
    ensures { Judges (λ t. t) result (single_type (type_tree shape.now) (names_view names.now)) }
{
    let t = type_judged(names, shape)?;
    single(&t, place_of_type(shape))
}

/// The offset at which a type begins.
fn place_of_type(t: &TypeExpr) -> u32
    ensures { result ≡ begins (type_tree t.now) }
{
    t.at
}

/// The single type that a type is.
fn single(t: &Shape, at: u32) -> Result<Scalar, KindFault>
    ensures { Judges (λ t. t) result (single (Fine (shape_view t.now)) at) }
{
    match t {
        Shape::Scalar(t) => Ok(*t),
        Shape::List(_, _) => Err(list_not_allowed(at)),
    }
}

/// A list stands where a single value is asked for.
fn list_not_allowed(at: u32) -> KindFault
    ensures { result ≡ KindFault.Broken list_not_allowed at }
{
    KindFault::Broken {
        rule: Rule::LIST_NOT_ALLOWED,
        at,
    }
}
