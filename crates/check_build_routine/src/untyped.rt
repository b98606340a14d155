//! Functions with a local whose type breaks a rule.

ghost use Rattle.std.specs.Prelude.{◌≡◌, ◌||◌, ◌==◌, IfOk, [], map};
ghost use Rattle.rvc_base.specs.Rules.{not_constant, unknown_name};
ghost use Rattle.cal_ast.specs.Tree as tree;
ghost use Rattle.cal_ast.specs.Tree.{listed};
ghost use Rattle.cal_ast.specs.View.{expr_tree, gen_tree, type_tree, var_tree};
ghost use Rattle.cal_check.specs.Routines.{first_met, is_awaited, locals_before, type_in, type_met};
ghost use Rattle.cal_check.specs.Statements.{type_of_var};
ghost use Rattle.cal_model.specs.Kinding.{type_judged};
ghost use Rattle.cal_model.specs.View.{local_view};
ghost use Rattle.const_env.specs.Counting.{names_view};
ghost use Rattle.check_fold.specs.Seeing.{seen_behind};

use crate::local::local_behind;
use cal_ast::{Expr, ExprForm, Gen, Ident, TypeExpr, VarDecl};
use cal_model::BoundLocal;
use const_eval::{Inside, KindFault, Names, Variables, type_judged};
use rvc_base::{Memory, Rule};
use std::alloc::Global;

/// The locals before the first whose type breaks a rule, and that type as evaluation meets it.
#[derive(Drop)]
pub(crate) struct UpToUntyped {
    pub locals: Vec<BoundLocal>,
    pub types: Vec<Expr>,
}

/// The locals before the first whose type breaks a rule, and that type.
pub(crate) fn up_to_untyped(names: &Names, declared: &[VarDecl]) -> Result<UpToUntyped, Memory>
    ensures locals { IfOk result (λ found. map local_view found.locals.items
        ≡ locals_before (listed (map var_tree declared.now)) (names_view names.now)) }
    ensures types { IfOk result (λ found. listed (map expr_tree found.types.items)
        ≡ first_met (listed (map var_tree declared.now)) (names_view names.now)) }
{
    let mut locals = Vec::new(names.alloc);
    let mut behind = Variables::new(names.alloc);
    let mut rest = declared;
    'each: while let Some((first, others)) = rest.split_first() {
        let found = local_behind(names, &behind, first)?;
        if !found.typed {
            let types = type_behind(names, &behind, first)?;
            return Ok(UpToUntyped { locals, types });
        }
        locals.push(found.local)?;
        behind.add(found.variable)?;
        rest = others;
    }
    let types = Vec::new(names.alloc);
    Ok(UpToUntyped { locals, types })
}

/// The type of a local that stands behind others, as evaluation meets it.
fn type_behind(names: &Names, before: &Variables, v: &VarDecl) -> Result<Vec<Expr>, Memory>
    ensures { IfOk result (λ types. listed (map expr_tree types.items)
        ≡ type_met (is_awaited (type_of_var (var_tree v.now) (seen_behind before.now names.now)))
        (type_in (var_tree v.now))) }
{
    let inside = Inside {
        variables: Some(before),
        gens: &[],
        outer: names.inner,
    };
    type_as_met(&names.under(&inside), &v.shape)
}

/// A type as evaluation meets it.
fn type_as_met(names: &Names, shape: &TypeExpr) -> Result<Vec<Expr>, Memory>
    ensures { IfOk result (λ types. listed (map expr_tree types.items)
        ≡ type_met (is_awaited (type_judged (type_tree shape.now) (names_view names.now)))
        (type_tree shape.now)) }
{
    let awaited = is_awaited(names, shape)?;
    if !awaited {
        return Ok(Vec::new(names.alloc));
    }
    over_type(names.alloc, shape)
}

/// Whether a type says what isn't known yet, or what isn't constant.
fn is_awaited(names: &Names, shape: &TypeExpr) -> Result<bool, Memory>
    ensures { IfOk result (λ awaited. awaited
        ≡ is_awaited (type_judged (type_tree shape.now) (names_view names.now))) }
{
    match type_judged(names, shape) {
        Ok(_t) => Ok(false),
        Err(KindFault::Broken { rule, .. }) => Ok(is_of_later(rule)),
        Err(KindFault::Memory) => Err(Memory),
    }
}

/// Whether this is the rule of names that aren't known, or that of what isn't constant.
fn is_of_later(rule: Rule) -> bool
    ensures { result ≡ ((rule.0 == unknown_name.0) || (rule.0 == not_constant.0)) }
{
    rule.0 == Rule::UNKNOWN_NAME.0 || rule.0 == Rule::NOT_CONSTANT.0
}

/// A list of no elements over a type, alone.
fn over_type(alloc: Global, shape: &TypeExpr) -> Result<Vec<Expr>, Memory>
    ensures { IfOk result (λ types. listed (map expr_tree types.items)
        ≡ tree.cons (tree.comp (tree.number 0 0) (tree.cons (tree.gen (type_tree shape.now)
        (tree.ident [] 0) (tree.number 1 0) (tree.number 0 0) 0) tree.nil) 0) tree.nil) }
{
    let e = no_elements(alloc, shape)?;
    let mut types = Vec::new(alloc);
    types.push(e)?;
    Ok(types)
}

/// A list of no elements over a type.
fn no_elements(alloc: Global, shape: &TypeExpr) -> Result<Expr, Memory>
    ensures { IfOk result (λ e. expr_tree e
        ≡ tree.comp (tree.number 0 0) (tree.cons (tree.gen (type_tree shape.now)
        (tree.ident [] 0) (tree.number 1 0) (tree.number 0 0) 0) tree.nil) 0) }
{
    let item = Box::new(alloc, number(0))?;
    let counted = no_numbers(alloc, shape)?;
    let mut gens = Vec::new(alloc);
    gens.push(counted)?;
    let form = ExprForm::Comp { item, gens };
    Ok(Expr { form, at: 0 })
}

/// A generator of no numbers over a type.
fn no_numbers(alloc: Global, shape: &TypeExpr) -> Result<Gen, Memory>
    ensures { IfOk result (λ g. gen_tree g ≡ tree.gen (type_tree shape.now)
        (tree.ident [] 0) (tree.number 1 0) (tree.number 0 0) 0) }
{
    let shape = shape.copy(alloc)?;
    let name = Ident {
        text: String::new(alloc),
        at: 0,
    };
    Ok(Gen {
        shape,
        name,
        from: number(1),
        to: number(0),
        at: 0,
    })
}

/// A number.
fn number(value: u128) -> Expr
    ensures { expr_tree result ≡ tree.number value 0 }
{
    Expr {
        form: ExprForm::Number(value),
        at: 0,
    }
}
