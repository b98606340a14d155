//! What stands behind the patterns of an action.
#![tactic(auto, using(check_stmt::proofs::Checked::refuses_on))]

ghost use Rattle.std.specs.Prelude.{◌≡◌, IfErr, IfOk, false, map, option_map, string_bytes};
ghost use Rattle.cal_ast.specs.Tree.{listed};
ghost use Rattle.cal_ast.specs.View.{body_tree, expr_tree, optional, stmt_tree, tag_tree};
ghost use Rattle.cal_check.specs.Actions.{body_of, guards_written, names_listed, tag_parts};
ghost use Rattle.cal_check.specs.Routines.{locals_of};
ghost use Rattle.cal_check.specs.Statements.{names_behind};
ghost use Rattle.cal_check.specs.Written.{statement_written};
ghost use Rattle.cal_model.specs.Kinding.{Fine};
ghost use Rattle.cal_model.specs.View.{local_view, pattern_view};
ghost use Rattle.const_env.specs.Counting.{names_view};
ghost use Rattle.check_member.specs.Parts.{exprs_tree, idents_tree};
ghost use Rattle.check_stmt.specs.Declaring.{seen_behind};
ghost use Rattle.check_stmt.specs.Judging.{Refuses};
ghost use Rattle.check_build_routine.specs.Declaring.{is_fine};
ghost use Rattle.check_action.specs.Parts.{HasFewPorts, around_view};
ghost use Rattle.check_build_action.specs.Building.{BuildsBehind, BuildsInside, vars_broken, vars_tree};

use crate::output::outputs;
use cal_ast::{Action, Expr, Ident, Stmt, Tag, VarDecl};
use cal_model::{BoundAction, BoundOutput, BoundPattern};
use check_action::ActorParts;
use check_build_routine::{DeclaredLocals, locals};
use check_fold::{exprs, stmts};
use check_stmt::vars;
use const_eval::{Inside, KindFault, Names, Variables};
use rvc_base::Memory;
use std::alloc::Global;

/// What stands behind the locals of an action.
#[derive(Drop)]
pub(crate) struct BehindLocals {
    pub outputs: Vec<BoundOutput>,
    pub body: Vec<Stmt>,
}

/// An action with these patterns, behind their variables.
pub(crate) fn behind_patterns(
    names: &Names,
    seen: &Variables,
    taken: Vec<BoundPattern>,
    parts: &ActorParts,
    a: &Action,
) -> Result<BoundAction, KindFault>
    requires { HasFewPorts parts.now }
    ensures { BuildsInside result a.now (map pattern_view taken.items)
        (around_view parts.now names.now) (seen_behind seen.now names.now) }
{
    let inside = Inside {
        variables: Some(seen),
        gens: &[],
        outer: names.inner,
    };
    inside_action(&names.under(&inside), taken, parts, a)
}

/// An action with these patterns, over the names with their variables.
fn inside_action(
    names: &Names,
    taken: Vec<BoundPattern>,
    parts: &ActorParts,
    a: &Action,
) -> Result<BoundAction, KindFault>
    requires { HasFewPorts parts.now }
    ensures { BuildsInside result a.now (map pattern_view taken.items)
        (around_view parts.now names.now) (names_view names.now) }
{
    let found = typed_locals(names, &a.vars)?;
    let rest = behind_locals(names, &found.behind, parts, a)?;
    let guards = guards(names, &a.guards)?;
    let tag = tag_parts(names.alloc, &a.tag)?;
    Ok(BoundAction {
        tag,
        patterns: taken,
        outputs: rest.outputs,
        guards,
        locals: found.locals,
        body: rest.body,
        initialize: a.initialize,
    })
}

/// Locals, of which each type breaks no rule.
fn typed_locals(names: &Names, declared: &[VarDecl]) -> Result<DeclaredLocals, KindFault>
    ensures locals { IfOk result (λ found. map local_view found.locals.items
        ≡ locals_of (vars_tree declared.now) (names_view names.now)) }
    ensures behind { IfOk result (λ found. names_behind (vars_tree declared.now) (names_view names.now)
        ≡ Fine (seen_behind found.behind names.now)) }
    ensures broken { IfErr result (λ f. Refuses f (vars_broken (vars_tree declared.now) (names_view names.now))) }
{
    let found = locals(names, declared)?;
    if !found.typed {
        return Err(broken_local(names, declared));
    }
    Ok(found)
}

/// What a local breaks, if the type of one breaks a rule.
fn broken_local(names: &Names, declared: &[VarDecl]) -> KindFault
    requires { is_fine (names_behind (vars_tree declared.now) (names_view names.now)) ≡ false }
    ensures { Refuses result (vars_broken (vars_tree declared.now) (names_view names.now)) }
{
    match vars(names, declared) {
        Ok(_) => unreachable!(),
        Err(f) => f,
    }
}

/// What stands behind the locals.
fn behind_locals(
    names: &Names,
    locals: &Variables,
    parts: &ActorParts,
    a: &Action,
) -> Result<BehindLocals, KindFault>
    requires { HasFewPorts parts.now }
    ensures { BuildsBehind result a.now (around_view parts.now names.now)
        (seen_behind locals.now names.now) }
{
    let inside = Inside {
        variables: Some(locals),
        gens: &[],
        outer: names.inner,
    };
    outputs_and_body(&names.under(&inside), parts, a)
}

/// The outputs and the statements.
fn outputs_and_body(
    names: &Names,
    parts: &ActorParts,
    a: &Action,
) -> Result<BehindLocals, KindFault>
    requires { HasFewPorts parts.now }
    ensures { BuildsBehind result a.now (around_view parts.now names.now) (names_view names.now) }
{
    let outputs = outputs(names, parts.outs, &a.outputs)?;
    let body = body_of(names, &a.body)?;
    Ok(BehindLocals { outputs, body })
}

/// Guards in order.
fn guards(names: &Names, guards: &[Expr]) -> Result<Vec<Expr>, Memory>
    ensures { IfOk result (λ found. map expr_tree found.items
        ≡ guards_written (exprs_tree guards.now) (names_view names.now)) }
{
    exprs(names, guards)
}

/// The statements of a body, which may be missing.
fn body_of(names: &Names, body: &Option<Vec<Stmt>>) -> Result<Vec<Stmt>, Memory>
    ensures { IfOk result (λ found. listed (map stmt_tree found.items)
        ≡ statement_written (body_of (body_tree body.now)) (names_view names.now)) }
{
    match body {
        Some(body) => stmts(names, body),
        None => Ok(Vec::new(names.alloc)),
    }
}

/// The parts of a tag, which may be missing.
///
/// # Errors
///
/// `Memory` if memory runs out.
pub fn tag_parts(alloc: Global, tag: &Option<Tag>) -> Result<Vec<String>, Memory>
    ensures { IfOk result (λ found. map string_bytes found.items
        ≡ tag_parts (optional (option_map tag_tree tag.now))) }
{
    match tag {
        Some(tag) => texts(alloc, &tag.parts),
        None => Ok(Vec::new(alloc)),
    }
}

/// The texts of names.
fn texts(alloc: Global, names: &[Ident]) -> Result<Vec<String>, Memory>
    ensures { IfOk result (λ texts. map string_bytes texts.items
        ≡ names_listed (idents_tree names.now)) }
{
    let mut texts = Vec::new(alloc);
    let mut rest = names;
    'names: while let Some((first, others)) = rest.split_first() {
        let text = first.text.clone()?;
        texts.push(text)?;
        rest = others;
    }
    Ok(texts)
}
