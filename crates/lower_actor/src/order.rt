//! An order of functions or procedures in which each stands behind those that it calls. Nothing is promised of it: who
//! takes them in this order looks whether those that are called are there.

use crate::calls::{calls_of_fun, calls_of_proc};
use cal_model::Bound;
use std::alloc::{AllocError, Global};

/// One that is gone through: its number, and how many of its calls were gone through.
#[derive(Clone, Copy, Debug, PartialEq, Eq)]
struct Open {
    number: usize,
    next: usize,
}

/// The functions of an actor in such an order.
pub(crate) fn functions_in_order(alloc: Global, b: &Bound) -> Result<Vec<usize>, AllocError> {
    let mut calls = Vec::new(alloc);
    for f in &b.funs {
        let called = calls_of_fun(alloc, b, f)?;
        calls.push(Vec::from_slice(alloc, called.functions())?)?;
    }
    in_order(alloc, &calls)
}

/// The procedures of an actor in such an order.
pub(crate) fn procedures_in_order(alloc: Global, b: &Bound) -> Result<Vec<usize>, AllocError> {
    let mut calls = Vec::new(alloc);
    for p in &b.procs {
        let called = calls_of_proc(alloc, b, p)?;
        calls.push(Vec::from_slice(alloc, called.procedures())?)?;
    }
    in_order(alloc, &calls)
}

/// The numbers of those that call these, each behind those that it calls.
fn in_order(alloc: Global, calls: &[Vec<usize>]) -> Result<Vec<usize>, AllocError> {
    let mut order = Vec::new(alloc);
    let mut seen = vec![in alloc; false; calls.len()]?;
    let mut open = Vec::new(alloc);
    for k in 0..calls.len() {
        enter(k, &mut seen, &mut open)?;
        go_through(calls, &mut seen, &mut open, &mut order)?;
    }
    Ok(order)
}

/// Goes through the open ones and all that they call.
fn go_through(
    calls: &[Vec<usize>],
    seen: &mut Vec<bool>,
    open: &mut Vec<Open>,
    order: &mut Vec<usize>,
) -> Result<(), AllocError> {
    for _step in 0..u64::MAX {
        let goes_on = step(calls, seen, open, order)?;
        if !goes_on {
            return Ok(());
        }
    }
    Ok(())
}

/// Takes the next call of the last open one, or closes it if there is none. Whether one was open comes back.
fn step(
    calls: &[Vec<usize>],
    seen: &mut Vec<bool>,
    open: &mut Vec<Open>,
    order: &mut Vec<usize>,
) -> Result<bool, AllocError> {
    let Some(top) = open.pop() else {
        return Ok(false);
    };
    match call_at(calls, top) {
        Some(k) => {
            open.push(Open {
                number: top.number,
                next: top.next.saturating_add(1),
            })?;
            enter(k, seen, open)?;
        }
        None => order.push(top.number)?,
    }
    Ok(true)
}

/// The next call of an open one.
fn call_at(calls: &[Vec<usize>], open: Open) -> Option<usize> {
    match calls.get(open.number) {
        Some(called) => number_at(called, open.next),
        None => None,
    }
}

/// The number at a place.
fn number_at(numbers: &[usize], place: usize) -> Option<usize> {
    match numbers.get(place) {
        Some(number) => Some(*number),
        None => None,
    }
}

/// Opens one that wasn't opened yet.
fn enter(k: usize, seen: &mut Vec<bool>, open: &mut Vec<Open>) -> Result<(), AllocError> {
    if k < seen.len() && !seen[k] {
        seen[k] = true;
        open.push(Open { number: k, next: 0 })?;
    }
    Ok(())
}
