//! One way from the texts of two guards to the answer as text.

use cal_ast::Expr;
use determinacy_cert::{CertFault, certify};
use kit_actors::{Sort, Takes, example, sort_of};
use kit_trees::expression;
use rvc_base::Memory;
use std::alloc::Global;

/// What an action takes, and the text of its guard.
pub(crate) type Row<'a> = (Takes, &'a str);

/// What is answered for an actor of these two actions: `certified`, or a state, two actions and a reason.
pub(crate) fn answer(
    alloc: Global,
    one: Row<'_>,
    two: Row<'_>,
    ranked: bool,
) -> Result<String, Memory> {
    let Some(guard) = expression(alloc, one.1)? else {
        return Ok(String::from_str(alloc, "first guard is none")?);
    };
    let Some(other) = expression(alloc, two.1)? else {
        return Ok(String::from_str(alloc, "second guard is none")?);
    };
    judged(alloc, one.0, guard, two.0, other, ranked)
}

fn judged(
    alloc: Global,
    one: Takes,
    guard: Expr,
    two: Takes,
    other: Expr,
    ranked: bool,
) -> Result<String, Memory> {
    let Sort::Truth = sort_of(&guard, one) else {
        return Ok(String::from_str(alloc, "first guard is unfit")?);
    };
    let Sort::Truth = sort_of(&other, two) else {
        return Ok(String::from_str(alloc, "second guard is unfit")?);
    };
    let actor = example(alloc, one, guard, two, other, ranked)?;
    shown(alloc, certify(alloc, &actor))
}

fn shown(alloc: Global, answer: Result<(), CertFault>) -> Result<String, Memory> {
    match answer {
        Ok(()) => Ok(String::from_str(alloc, "certified")?),
        Err(
            CertFault::Uncertified {
                state,
                a,
                b,
                reason,
            },
        ) => Ok(format!(in alloc; "{state} {} {} {reason:?}", a.0, b.0)?),
        Err(CertFault::Memory) => Ok(String::from_str(alloc, "Memory")?),
    }
}
