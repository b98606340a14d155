//! An actor that counts up to each of its tokens.

ghost use Rattle.std.specs.Prelude.{◌≡◌, [], ◌∷◌, IfOk, codes, map};
ghost use Rattle.cal_ast.specs.Tree as tree;
ghost use Rattle.cal_ast.specs.Tree.{listed};
ghost use Rattle.cal_ast.specs.View.{expr_tree, stmt_tree};
ghost use Rattle.cal_model.specs.Sound.{IsSound};
ghost use Rattle.cal_model.specs.View.{action_view, actor_of, local_view, output_view, pattern_view, port_view, var_view};
ghost use Rattle.kit_actors.specs.Counting as row;

use crate::trees::{assign, below, number, repeat, sum, variable};
use cal_ast::{Expr, Stmt};
use cal_model::{
    Bound, BoundAction, BoundLocal, BoundOutput, BoundPattern, BoundVar, Port, Shape, Value,
};
use rvc_base::Scalar;
use std::alloc::{AllocError, Global};

/// `uint(size=8) n := 0;` and
/// `action In:[x] ==> Out:[n + k] guard x < 200 var uint(size=8) k = x + 1 do while n < x do n := n + 1; end end`.
pub fn count(alloc: Global) -> Result<Bound, AllocError>
    ensures count { IfOk result (λ b. actor_of b ≡ row.count) }
    ensures sound { IfOk result (λ b. IsSound (actor_of b)) }
{
    let actor = made(alloc)?;
    Ok(actor)
}

fn made(alloc: Global) -> Result<Bound, AllocError>
    ensures { IfOk result (λ b. actor_of b ≡ row.count) }
{
    let class = String::from_str(alloc, "Count")?;
    let ins = port(alloc, "In")?;
    let outs = port(alloc, "Out")?;
    let vars = variables(alloc)?;
    let actions = actions(alloc)?;
    Ok(Bound {
        class,
        ins,
        outs,
        vars,
        funs: Vec::new(alloc),
        procs: Vec::new(alloc),
        actions,
        states: Vec::new(alloc),
        moves: Vec::new(alloc),
        pairs: Vec::new(alloc),
    })
}

pub(crate) fn port(alloc: Global, name: &str) -> Result<Vec<Port>, AllocError>
    ensures { IfOk result (λ ports. map port_view ports.items ≡ row.byte name.now ∷ []) }
{
    let port = Port {
        name: String::from_str(alloc, name)?,
        kind: Scalar::Uint(8),
    };
    Ok(vec![in alloc; port]?)
}

fn variables(alloc: Global) -> Result<Vec<BoundVar>, AllocError>
    ensures { IfOk result (λ vars. map var_view vars.items ≡ row.count.vars) }
{
    let counter = BoundVar {
        name: String::from_str(alloc, "n")?,
        shape: Shape::Scalar(Scalar::Uint(8)),
        value: Value::Num(0),
        changes: true,
    };
    Ok(vec![in alloc; counter]?)
}

fn actions(alloc: Global) -> Result<Vec<BoundAction>, AllocError>
    ensures { IfOk result (λ actions. map action_view actions.items ≡ row.count.actions) }
{
    let action = counting(alloc)?;
    Ok(vec![in alloc; action]?)
}

fn counting(alloc: Global) -> Result<BoundAction, AllocError>
    ensures { IfOk result (λ action. action_view action ≡ row.counting) }
{
    let patterns = patterns(alloc)?;
    let outputs = outputs(alloc)?;
    let guards = guards(alloc)?;
    let locals = locals(alloc)?;
    let body = body(alloc)?;
    Ok(BoundAction {
        tag: Vec::new(alloc),
        patterns,
        outputs,
        guards,
        locals,
        body,
        initialize: false,
    })
}

fn patterns(alloc: Global) -> Result<Vec<BoundPattern>, AllocError>
    ensures { IfOk result (λ patterns. map pattern_view patterns.items ≡ row.counting.patterns) }
{
    let name = String::from_str(alloc, "x")?;
    let pattern = BoundPattern {
        port: 0,
        names: vec![in alloc; name]?,
        repeat: None,
    };
    Ok(vec![in alloc; pattern]?)
}

fn outputs(alloc: Global) -> Result<Vec<BoundOutput>, AllocError>
    ensures { IfOk result (λ outputs. map output_view outputs.items ≡ row.counting.outputs) }
{
    let value = sum(alloc, variable(alloc, "n")?, variable(alloc, "k")?)?;
    let output = BoundOutput {
        port: 0,
        values: vec![in alloc; value]?,
        repeat: None,
    };
    Ok(vec![in alloc; output]?)
}

fn guards(alloc: Global) -> Result<Vec<Expr>, AllocError>
    ensures { IfOk result (λ guards. map expr_tree guards.items ≡ row.counting.guards) }
{
    let guard = below(alloc, variable(alloc, "x")?, number(200))?;
    Ok(vec![in alloc; guard]?)
}

fn locals(alloc: Global) -> Result<Vec<BoundLocal>, AllocError>
    ensures { IfOk result (λ locals. map local_view locals.items ≡ row.counting.locals) }
{
    let name = String::from_str(alloc, "k")?;
    let start = sum(alloc, variable(alloc, "x")?, number(1))?;
    let local = BoundLocal {
        name,
        shape: Shape::Scalar(Scalar::Uint(8)),
        start: Some(start),
        changes: false,
    };
    Ok(vec![in alloc; local]?)
}

fn body(alloc: Global) -> Result<Vec<Stmt>, AllocError>
    ensures { IfOk result (λ body. listed (map stmt_tree body.items) ≡ row.counting.body) }
{
    let test = below(alloc, variable(alloc, "n")?, variable(alloc, "x")?)?;
    let again = repeat(alloc, test, one_more(alloc)?)?;
    Ok(vec![in alloc; again]?)
}

/// `n := n + 1;`
fn one_more(alloc: Global) -> Result<Stmt, AllocError>
    ensures { IfOk result (λ s. stmt_tree s ≡ tree.assign (tree.ident (codes "n") 0) tree.nil
        (row.sum (row.named (codes "n")) (row.number 1)) 0) }
{
    let value = sum(alloc, variable(alloc, "n")?, number(1))?;
    assign(alloc, "n", value)
}
