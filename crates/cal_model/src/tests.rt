//! Kinds of types, and the rates of actions.

ghost use Rattle.std.specs.Prelude.{IfOk, ◌<◌, length};
ghost use Rattle.cal_model.specs.Sound.{IsSound};
ghost use Rattle.cal_model.specs.View.{actor_of};

use crate::{Bound, BoundAction, BoundOutput, BoundPattern, Port, Shape, give, kind_of_type, need};
use cal_ast::{Expr, ExprForm};
use rvc_base::Scalar;
use std::alloc::{AllocError, Global};
use std::test::Fail;

#[test]
fn the_kind_of_a_list_of_truth_values(rt: HostRuntime) -> Result<(), Fail> {
    let a = rt.alloc();
    let items = Shape::List(2, Box::new(a, Shape::Scalar(Scalar::Bool))?);
    let kind = kind_of_type(a, &Shape::List(3, Box::new(a, items)?))?;
    assert_eq!(rt;
        format!(in a; "{kind:?}")?.as_str(),
        "List(3, List(2, Bool))"
    );
    Ok(())
}

#[test]
fn the_kind_of_numbers(rt: HostRuntime) -> Result<(), Fail> {
    let a = rt.alloc();
    for t in [Scalar::Int(1), Scalar::Uint(32)] {
        let kind = kind_of_type(a, &Shape::Scalar(t))?;
        assert_eq!(rt; format!(in a; "{kind:?}")?.as_str(), "Num");
    }
    Ok(())
}

/// An actor with one action, which takes one list of three tokens and sends two.
fn three_to_two(a: Global) -> Result<Bound, AllocError>
    ensures sound { IfOk result (λ b. IsSound (actor_of b)) }
    ensures action { IfOk result (λ b. 0 < length b.actions.items) }
    ensures inlet { IfOk result (λ b. 0 < length b.ins.items) }
    ensures outlet { IfOk result (λ b. 0 < length b.outs.items) }
{
    let inlet = Port {
        name: String::from_str(a, "I")?,
        kind: Scalar::Uint(8),
    };
    let outlet = Port {
        name: String::new(a),
        kind: Scalar::Uint(8),
    };
    let pattern = BoundPattern {
        port: 0,
        names: vec![in a; String::new(a)]?,
        repeat: Some(3),
    };
    let seven = Expr {
        form: ExprForm::Number(7),
        at: 0,
    };
    let eight = Expr {
        form: ExprForm::Number(8),
        at: 0,
    };
    let output = BoundOutput {
        port: 0,
        values: vec![in a; seven, eight]?,
        repeat: None,
    };
    let action = BoundAction {
        tag: Vec::new(a),
        patterns: vec![in a; pattern]?,
        outputs: vec![in a; output]?,
        guards: Vec::new(a),
        locals: Vec::new(a),
        body: Vec::new(a),
        initialize: false,
    };
    Ok(Bound {
        class: String::new(a),
        ins: vec![in a; inlet]?,
        outs: vec![in a; outlet]?,
        vars: Vec::new(a),
        funs: Vec::new(a),
        procs: Vec::new(a),
        actions: vec![in a; action]?,
        states: Vec::new(a),
        moves: Vec::new(a),
        pairs: Vec::new(a),
    })
}

#[test]
fn takes_three_and_gives_two(rt: HostRuntime) -> Result<(), Fail> {
    let b = three_to_two(rt.alloc())?;
    assert_eq!(rt; need(&b, 0, 0), 3);
    assert_eq!(rt; give(&b, 0, 0), 2);
    Ok(())
}
