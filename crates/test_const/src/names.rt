//! The constants and functions over which rows stand.

ghost use Rattle.std.specs.Prelude.{◌≡◌, IfOk, map, true};
ghost use Rattle.cal_model.specs.Value.{Single};
ghost use Rattle.cal_model.specs.View.{fun_view, local_view, shape_view};
ghost use Rattle.const_env.specs.Sizes.{are_sized, is_size, is_sized_fun};

use crate::rows::spelled;
use cal_ast::Expr;
use cal_model::{BoundFun, BoundLocal, Shape, Value, Values};
use const_eval::{Env, is_counted};
use rvc_base::Scalar;
use std::alloc::{AllocError, Global};
use std::process::Abort;

const INT: Scalar = Scalar::Int(32);

/// A formal or a local of this type.
fn local(a: Global, text: &str, kind: Scalar, start: Option<Expr>) -> Result<BoundLocal, AllocError>
    ensures { IfOk result (λ x. shape_view x.shape ≡ Single kind) }
{
    Ok(BoundLocal {
        name: String::from_str(a, text)?,
        shape: Shape::Scalar(kind),
        start,
        changes: false,
    })
}

/// No formals or locals.
fn none(a: Global) -> Vec<BoundLocal>
    ensures { are_sized (map local_view result.items) ≡ true }
{
    Vec::new(a)
}

/// One formal, a number `x`.
fn number(a: Global, kind: Scalar) -> Result<Vec<BoundLocal>, AllocError>
    requires { is_size kind ≡ true }
    ensures { IfOk result (λ xs. are_sized (map local_view xs.items) ≡ true) }
{
    let mut formals = Vec::new(a);
    formals.push(local(a, "x", kind, None)?)?;
    Ok(formals)
}

/// The locals `y`, which starts so, and `z`, of eight bits.
fn locals(a: Global, start: Expr) -> Result<Vec<BoundLocal>, AllocError>
    ensures { IfOk result (λ xs. are_sized (map local_view xs.items) ≡ true) }
{
    let y = local(a, "y", Scalar::Int(8), Some(start))?;
    let mut locals = Vec::new(a);
    locals.push(y)?;
    locals.push(local(a, "z", Scalar::Int(8), None)?)?;
    Ok(locals)
}

/// A function.
fn function(
    rt: &impl Abort,
    a: Global,
    name: &str,
    formals: Vec<BoundLocal>,
    locals: Vec<BoundLocal>,
    gives: Scalar,
    body: &str,
) -> BoundFun
    requires formals { are_sized (map local_view formals.items) ≡ true }
    requires locals { are_sized (map local_view locals.items) ≡ true }
    requires gives { is_size gives ≡ true }
    ensures { is_sized_fun (fun_view result) ≡ true }
{
    BoundFun {
        name: String::from_str(a, name).expect(rt, "a name"),
        formals,
        locals,
        result: gives,
        body: spelled(rt, a, body),
    }
}

/// Adds a function of a name that no function has.
fn add(rt: &impl Abort, env: &mut Env, fun: BoundFun)
    requires { is_sized_fun (fun_view fun) ≡ true }
{
    assert!(rt; !env.has_fun(fun.name.as_str()));
    env.add_fun(fun).expect(rt, "a function");
}

/// Adds a function without arguments.
fn add_constant(rt: &impl Abort, env: &mut Env, a: Global, name: &str, body: &str) {
    let fun = function(rt, a, name, none(a), none(a), INT, body);
    add(rt, env, fun);
}

/// Adds a function `f` of a number `x`.
fn add_of_number(rt: &impl Abort, env: &mut Env, a: Global, gives: Scalar, body: &str)
    requires { is_size gives ≡ true }
{
    let formals = number(a, INT).expect(rt, "a formal");
    let fun = function(rt, a, "f", formals, none(a), gives, body);
    add(rt, env, fun);
}

/// Adds a function `g` of a number `x` of eight bits, with locals of which the first is `x` and 100.
fn add_with_locals(rt: &impl Abort, env: &mut Env, a: Global) {
    let formals = number(a, Scalar::Int(8)).expect(rt, "a formal");
    let locals = locals(a, spelled(rt, a, "x + 100")).expect(rt, "locals");
    let fun = function(rt, a, "g", formals, locals, Scalar::Uint(4), "y + z");
    add(rt, env, fun);
}

/// A list of one value.
pub(crate) fn list_of(a: Global, item: Value) -> Result<Value, AllocError> {
    let mut items = Vec::new(a);
    items.push(item)?;
    Ok(Value::List(Values { items }))
}

/// A list of two truth values.
fn truths(a: Global) -> Result<Value, AllocError> {
    let mut items = Vec::new(a);
    items.push(Value::Bool(true))?;
    items.push(Value::Bool(false))?;
    Ok(Value::List(Values { items }))
}

/// Adds a list.
fn add_list(rt: &impl Abort, env: &mut Env, name: &str, list: Value) {
    assert!(rt; is_counted(&list));
    env.add_value(name, list).expect(rt, "a value");
}

/// Adds what a word stands for.
fn add_word(rt: &impl Abort, env: &mut Env, a: Global, word: &str) {
    match word {
        // the number 2
        "a" | "n" => env.add_value(word, Value::Num(2)).expect(rt, "a value"),
        // true and false
        "l" => add_list(rt, env, word, truths(a).expect(rt, "a list")),
        // functions
        "f(x)=true" => add_of_number(rt, env, a, Scalar::Bool, "true"),
        "f(x)=x+1" => add_of_number(rt, env, a, INT, "x + 1"),
        "f()=n" => add_constant(rt, env, a, "f", "n"),
        "f()=1" => add_constant(rt, env, a, "f", "1"),
        "seven()=7" => add_constant(rt, env, a, "seven", "7"),
        "g(x)=y+z" => add_with_locals(rt, env, a),
        _ => rt.panic("no such name"),
    }
}

/// Adds what each of these words stands for.
pub(crate) fn add_words(rt: &impl Abort, env: &mut Env, a: Global, words: &str) {
    for word in words.split_whitespace() {
        add_word(rt, env, a, word);
    }
}
