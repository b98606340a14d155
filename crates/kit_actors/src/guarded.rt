//! Actors of two actions.

ghost use Rattle.std.specs.Prelude.{◌≡◌, IfOk, map, string_bytes};
ghost use Rattle.cal_ast.specs.View.{expr_tree};
ghost use Rattle.cal_model.specs.Sound.{IsSound};
ghost use Rattle.cal_model.specs.View.{action_view, actor_of, fun_view, pattern_view, port_view, var_view};
ghost use Rattle.kit_actors.specs.Examples.{acting, always, example, inlet, inlets, ranks, state, taken};
ghost use Rattle.kit_actors.specs.Sorts.{sort};
ghost use Rattle.kit_actors.specs.declared.sorting.Sort.TheVariants.{Truth};

use cal_ast::{Expr, ExprForm};
use cal_model::{Bound, BoundAction, BoundFun, BoundPattern, BoundVar, Port, Shape, Value};
use rvc_base::Scalar;
use std::alloc::{AllocError, Global};

/// What an action takes.
#[derive(Clone, Copy, Debug, PartialEq, Eq)]
pub enum Takes {
    /// `A:[v]`
    One,
    /// `A:[v, d]`
    Two,
    /// `B:[v]`
    Other,
    /// `A:[t] repeat 4`
    Four,
}

/// An actor of two actions `a` and `b`, by what each takes and by its guard, which is a truth value. If `ranked`, `a`
/// is above `b`. It has the variable `s` of `uint(size=1)`, and a function `f`, which gives true.
///
/// # Errors
///
/// `AllocError` if memory runs out.
pub fn example(
    alloc: Global,
    one: Takes,
    guard: Expr,
    two: Takes,
    other: Expr,
    ranked: bool,
) -> Result<Bound, AllocError>
    requires guard { sort (expr_tree guard) one ≡ Truth }
    requires other { sort (expr_tree other) two ≡ Truth }
    ensures example { IfOk result (λ b. actor_of b
        ≡ example one (expr_tree guard) two (expr_tree other) ranked) }
    ensures sound { IfOk result (λ b. IsSound (actor_of b)) }
{
    let actor = made(alloc, one, guard, two, other, ranked)?;
    Ok(actor)
}

fn made(
    alloc: Global,
    one: Takes,
    guard: Expr,
    two: Takes,
    other: Expr,
    ranked: bool,
) -> Result<Bound, AllocError>
    ensures { IfOk result (λ b. actor_of b
        ≡ example one (expr_tree guard) two (expr_tree other) ranked) }
{
    let first = acting(alloc, "a", one, guard)?;
    let second = acting(alloc, "b", two, other)?;
    Ok(Bound {
        class: String::from_str(alloc, "Example")?,
        ins: inlets(alloc)?,
        outs: Vec::new(alloc),
        vars: vec![in alloc; state(alloc)?]?,
        funs: vec![in alloc; always(alloc)?]?,
        procs: Vec::new(alloc),
        actions: vec![in alloc; first, second]?,
        states: Vec::new(alloc),
        moves: Vec::new(alloc),
        pairs: ranks(alloc, ranked)?,
    })
}

fn inlet(alloc: Global, name: &str) -> Result<Port, AllocError>
    ensures { IfOk result (λ port. port_view port ≡ inlet name.now) }
{
    Ok(Port {
        name: String::from_str(alloc, name)?,
        kind: Scalar::Uint(64),
    })
}

fn inlets(alloc: Global) -> Result<Vec<Port>, AllocError>
    ensures { IfOk result (λ ports. map port_view ports.items ≡ inlets) }
{
    let first = inlet(alloc, "A")?;
    let second = inlet(alloc, "B")?;
    Ok(vec![in alloc; first, second]?)
}

fn state(alloc: Global) -> Result<BoundVar, AllocError>
    ensures { IfOk result (λ var. var_view var ≡ state) }
{
    Ok(BoundVar {
        name: String::from_str(alloc, "s")?,
        shape: Shape::Scalar(Scalar::Uint(1)),
        value: Value::Num(0),
        changes: true,
    })
}

fn always(alloc: Global) -> Result<BoundFun, AllocError>
    ensures { IfOk result (λ fun. fun_view fun ≡ always) }
{
    Ok(BoundFun {
        name: String::from_str(alloc, "f")?,
        formals: Vec::new(alloc),
        locals: Vec::new(alloc),
        result: Scalar::Bool,
        body: Expr {
            form: ExprForm::Bool(true),
            at: 0,
        },
    })
}

fn names(alloc: Global, takes: Takes) -> Result<Vec<String>, AllocError>
    ensures { IfOk result (λ names. map string_bytes names.items ≡ (taken takes).names) }
{
    match takes {
        Takes::One | Takes::Other => {
            let v = String::from_str(alloc, "v")?;
            Ok(vec![in alloc; v]?)
        }
        Takes::Two => {
            let v = String::from_str(alloc, "v")?;
            let d = String::from_str(alloc, "d")?;
            Ok(vec![in alloc; v, d]?)
        }
        Takes::Four => {
            let t = String::from_str(alloc, "t")?;
            Ok(vec![in alloc; t]?)
        }
    }
}

fn taken(alloc: Global, takes: Takes) -> Result<BoundPattern, AllocError>
    ensures { IfOk result (λ pattern. pattern_view pattern ≡ taken takes) }
{
    let names = names(alloc, takes)?;
    Ok(BoundPattern {
        port: port(takes),
        names,
        repeat: repeat(takes),
    })
}

fn port(takes: Takes) -> u32
    ensures { result ≡ (taken takes).port }
{
    match takes {
        Takes::Other => 1,
        Takes::One | Takes::Two | Takes::Four => 0,
    }
}

fn repeat(takes: Takes) -> Option<u32>
    ensures { result ≡ (taken takes).repeat }
{
    match takes {
        Takes::Four => Some(4),
        Takes::One | Takes::Two | Takes::Other => None,
    }
}

fn acting(alloc: Global, tag: &str, takes: Takes, guard: Expr) -> Result<BoundAction, AllocError>
    ensures { IfOk result (λ action. action_view action ≡ acting tag.now takes (expr_tree guard)) }
{
    let tag = String::from_str(alloc, tag)?;
    let pattern = taken(alloc, takes)?;
    Ok(BoundAction {
        tag: vec![in alloc; tag]?,
        patterns: vec![in alloc; pattern]?,
        outputs: Vec::new(alloc),
        guards: vec![in alloc; guard]?,
        locals: Vec::new(alloc),
        body: Vec::new(alloc),
        initialize: false,
    })
}

fn ranks(alloc: Global, ranked: bool) -> Result<Vec<(u16, u16)>, AllocError>
    ensures { IfOk result (λ pairs. map (λ p. (p.0, p.1)) pairs.items ≡ ranks ranked) }
{
    if ranked {
        Ok(vec![in alloc; (0, 1)]?)
    } else {
        Ok(Vec::new(alloc))
    }
}
