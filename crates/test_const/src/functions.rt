//! What expressions give over functions, and which names are there.

use crate::names::{add_words, list_of};
use crate::rows::{Asked, hold};
use cal_model::{Value, Values};
use const_eval::{Env, is_counted};
use std::alloc::{AllocError, Global};
use std::process::Abort;

/// Whether one of two names is there.
fn has_either(env: &Env) -> bool {
    env.has_value("a") || env.has_fun("f")
}

/// Whether both are, each as what it is.
fn has_both(env: &Env) -> bool {
    env.has_value("a") && env.has_fun("f") && !env.has_fun("a") && !env.has_value("f")
}

/// Whether names are there once they are added, and not before.
fn become_known(rt: &impl Abort, env: &mut Env, a: Global) -> bool {
    if has_either(env) {
        return false;
    }
    add_words(rt, env, a, "a f()=1");
    has_both(env)
}

fn are_known(rt: &impl Abort, a: Global) -> bool {
    let mut env = Env::new(a);
    become_known(rt, &mut env, a)
}

#[test]
fn names_that_are_there(rt: HostRuntime) {
    assert!(rt; are_known(&rt, rt.alloc()));
}

#[test]
fn a_function_of_a_constant(rt: HostRuntime) {
    hold(&rt, rt.alloc(), "a f(x)=x+1", Asked::Value, "\n# f(a)\n= 3");
}

#[test]
fn locals_and_results_are_stored(rt: HostRuntime) {
    // 200 is -56, -56 + 100 is 44, and 44 modulo 16 is 12
    hold(
        &rt,
        rt.alloc(),
        "g(x)=y+z",
        Asked::Value,
        "\n# g(200)\n= 12",
    );
}

#[test]
fn a_function_without_arguments(rt: HostRuntime) {
    hold(
        &rt,
        rt.alloc(),
        "seven()=7",
        Asked::Value,
        "\n# seven()\n= 7",
    );
}

/// Whether the length of each list in a value is counted.
fn counts(value: Value) -> bool {
    is_counted(&value)
}

fn list_of_a_list(a: Global) -> Result<Value, AllocError> {
    let list = list_of(a, Value::Bool(true))?;
    list_of(a, list)
}

#[test]
fn short_lists_are_counted(rt: HostRuntime) {
    let a = rt.alloc();
    assert!(rt; counts(Value::Num(-1)));
    assert!(rt; counts(Value::List(Values { items: Vec::new(a) })));
    assert!(rt; counts(list_of_a_list(a).expect(&rt, "a list")));
}
