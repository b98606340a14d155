//! An actor that keeps the doubles of its last two tokens.

ghost use Rattle.std.specs.Prelude.{◌≡◌, ◌∷◌, [], IfOk, codes, map};
ghost use Rattle.cal_ast.specs.Tree as tree;
ghost use Rattle.cal_ast.specs.Tree.{listed as row_of};
ghost use Rattle.cal_ast.specs.View.{expr_tree, stmt_tree};
ghost use Rattle.cal_model.specs.Sound.{IsSound};
ghost use Rattle.cal_model.specs.Value.{Items};
ghost use Rattle.cal_model.specs.View.{action_view, actor_of, fun_view, in_order, local_view, output_view, pattern_view, proc_view, value_view, var_view};
ghost use Rattle.kit_actors.specs.Doubling as row;

use crate::actors::port;
use crate::trees::{assign_item, call, item, number, run, sum, variable};
use cal_ast::{Expr, Stmt};
use cal_model::{
    Bound, BoundAction, BoundFun, BoundLocal, BoundOutput, BoundPattern, BoundProc, BoundVar,
    Shape, Value, Values,
};
use rvc_base::Scalar;
use std::alloc::{AllocError, Global};

/// `List(type: uint(size=8), size=2) t := [0, 0];`,
/// `function twice(uint(size=8) v) --> uint(size=8): v + v end`,
/// `procedure keep(uint(size=8) v) begin t[1] := t[0]; t[0] := v; end` and
/// `action In:[x] ==> Out:[t[0] + t[1]] do keep(twice(x)); end`.
pub fn double(alloc: Global) -> Result<Bound, AllocError>
    ensures double { IfOk result (λ b. actor_of b ≡ row.double) }
    ensures sound { IfOk result (λ b. IsSound (actor_of b)) }
{
    let actor = made(alloc)?;
    Ok(actor)
}

fn made(alloc: Global) -> Result<Bound, AllocError>
    ensures { IfOk result (λ b. actor_of b ≡ row.double) }
{
    let class = String::from_str(alloc, "Double")?;
    let ins = port(alloc, "In")?;
    let outs = port(alloc, "Out")?;
    let vars = variables(alloc)?;
    let funs = functions(alloc)?;
    let procs = procedures(alloc)?;
    let actions = actions(alloc)?;
    Ok(Bound {
        class,
        ins,
        outs,
        vars,
        funs,
        procs,
        actions,
        states: Vec::new(alloc),
        moves: Vec::new(alloc),
        pairs: Vec::new(alloc),
    })
}

fn variables(alloc: Global) -> Result<Vec<BoundVar>, AllocError>
    ensures { IfOk result (λ vars. map var_view vars.items ≡ row.kept ∷ []) }
{
    let zeros = zeros(alloc)?;
    let kept = BoundVar {
        name: String::from_str(alloc, "t")?,
        shape: Shape::List(2, Box::new(alloc, Shape::Scalar(Scalar::Uint(8)))?),
        value: zeros,
        changes: true,
    };
    Ok(vec![in alloc; kept]?)
}

/// `[0, 0]`
fn zeros(alloc: Global) -> Result<Value, AllocError>
    ensures { IfOk result (λ value. value_view value ≡ row.kept.value) }
{
    let mut items = Vec::new(alloc);
    items.push(Value::Num(0))?;
    items.push(Value::Num(0))?;
    Ok(listed(items))
}

/// A list of values.
fn listed(items: Vec<Value>) -> Value
    ensures { value_view result ≡ Items (in_order (map value_view items.items)) }
{
    Value::List(Values { items })
}

fn formals(alloc: Global) -> Result<Vec<BoundLocal>, AllocError>
    ensures { IfOk result (λ formals. map local_view formals.items ≡ row.formal ∷ []) }
{
    let formal = BoundLocal {
        name: String::from_str(alloc, "v")?,
        shape: Shape::Scalar(Scalar::Uint(8)),
        start: None,
        changes: false,
    };
    Ok(vec![in alloc; formal]?)
}

fn functions(alloc: Global) -> Result<Vec<BoundFun>, AllocError>
    ensures { IfOk result (λ funs. map fun_view funs.items ≡ row.twice ∷ []) }
{
    let name = String::from_str(alloc, "twice")?;
    let formals = formals(alloc)?;
    let body = sum(alloc, variable(alloc, "v")?, variable(alloc, "v")?)?;
    let twice = BoundFun {
        name,
        formals,
        locals: Vec::new(alloc),
        result: Scalar::Uint(8),
        body,
    };
    Ok(vec![in alloc; twice]?)
}

fn procedures(alloc: Global) -> Result<Vec<BoundProc>, AllocError>
    ensures { IfOk result (λ procs. map proc_view procs.items ≡ row.keep ∷ []) }
{
    let name = String::from_str(alloc, "keep")?;
    let formals = formals(alloc)?;
    let body = keeping(alloc)?;
    let keep = BoundProc {
        name,
        formals,
        locals: Vec::new(alloc),
        body,
    };
    Ok(vec![in alloc; keep]?)
}

/// `t[1] := t[0]; t[0] := v;`
fn keeping(alloc: Global) -> Result<Vec<Stmt>, AllocError>
    ensures { IfOk result (λ body. row_of (map stmt_tree body.items) ≡ row.keep.body) }
{
    let newest = item_at(alloc, 0)?;
    let first = assign_item(alloc, "t", number(1), newest)?;
    let second = assign_item(alloc, "t", number(0), variable(alloc, "v")?)?;
    let mut body = Vec::new(alloc);
    body.push(first)?;
    body.push(second)?;
    Ok(body)
}

/// `t[place]`
fn item_at(alloc: Global, place: u128) -> Result<Expr, AllocError>
    ensures { IfOk result (λ e. expr_tree e
        ≡ tree.index (tree.variable (codes "t") 0) (tree.number place 0) 0) }
{
    item(alloc, variable(alloc, "t")?, number(place))
}

fn actions(alloc: Global) -> Result<Vec<BoundAction>, AllocError>
    ensures { IfOk result (λ actions. map action_view actions.items ≡ row.doubling ∷ []) }
{
    let action = doubling(alloc)?;
    Ok(vec![in alloc; action]?)
}

fn doubling(alloc: Global) -> Result<BoundAction, AllocError>
    ensures { IfOk result (λ action. action_view action ≡ row.doubling) }
{
    let patterns = patterns(alloc)?;
    let outputs = outputs(alloc)?;
    let body = body(alloc)?;
    Ok(BoundAction {
        tag: Vec::new(alloc),
        patterns,
        outputs,
        guards: Vec::new(alloc),
        locals: Vec::new(alloc),
        body,
        initialize: false,
    })
}

fn patterns(alloc: Global) -> Result<Vec<BoundPattern>, AllocError>
    ensures { IfOk result (λ patterns. map pattern_view patterns.items ≡ row.doubling.patterns) }
{
    let name = String::from_str(alloc, "x")?;
    let pattern = BoundPattern {
        port: 0,
        names: vec![in alloc; name]?,
        repeat: None,
    };
    Ok(vec![in alloc; pattern]?)
}

fn outputs(alloc: Global) -> Result<Vec<BoundOutput>, AllocError>
    ensures { IfOk result (λ outputs. map output_view outputs.items ≡ row.doubling.outputs) }
{
    let newest = item_at(alloc, 0)?;
    let oldest = item_at(alloc, 1)?;
    let value = sum(alloc, newest, oldest)?;
    let output = BoundOutput {
        port: 0,
        values: vec![in alloc; value]?,
        repeat: None,
    };
    Ok(vec![in alloc; output]?)
}

/// `keep(twice(x));`
fn body(alloc: Global) -> Result<Vec<Stmt>, AllocError>
    ensures { IfOk result (λ body. row_of (map stmt_tree body.items) ≡ row.doubling.body) }
{
    let double = call(alloc, "twice", variable(alloc, "x")?)?;
    let kept = run(alloc, "keep", double)?;
    Ok(vec![in alloc; kept]?)
}
