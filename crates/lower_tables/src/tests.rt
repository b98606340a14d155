//! The tables of an actor with an `initialize`.

ghost use Rattle.std.specs.Prelude.{◌≡◌, [], IfOk};
ghost use Rattle.cal_ast.specs.Tree.{nil};
ghost use Rattle.cal_model.specs.Sound.{IsSound};
ghost use Rattle.cal_model.specs.View.{action_view, actor_of};

use crate::lower_tables;
use cal_model::{Bound, BoundAction};
use schedule_fsm::Fsm;
use std::alloc::{AllocError, Global};
use std::test::Fail;

/// An untagged action that does nothing.
fn bare_action(a: Global, initialize: bool) -> BoundAction
    ensures { action_view result ≡ record {
      tag = [];
      patterns = [];
      outputs = [];
      guards = [];
      locals = [];
      body = nil;
      initialize = initialize;
    } }
{
    BoundAction {
        tag: Vec::new(a),
        patterns: Vec::new(a),
        outputs: Vec::new(a),
        guards: Vec::new(a),
        locals: Vec::new(a),
        body: Vec::new(a),
        initialize,
    }
}

/// An actor that begins with an `initialize` and then does nothing again and again.
fn idle(a: Global) -> Result<Bound, AllocError>
    ensures sound { IfOk result (λ b. IsSound (actor_of b)) }
{
    let start = bare_action(a, true);
    let again = bare_action(a, false);
    Ok(Bound {
        class: String::new(a),
        ins: Vec::new(a),
        outs: Vec::new(a),
        vars: Vec::new(a),
        funs: Vec::new(a),
        procs: Vec::new(a),
        actions: vec![in a; start, again]?,
        states: Vec::new(a),
        moves: Vec::new(a),
        pairs: Vec::new(a),
    })
}

/// Where an action leads from a state.
fn target(fsm: &Fsm, state: u16, action: u16) -> Option<u16> {
    if state < fsm.states() && usize::from(action) < fsm.actions() && fsm.eligible(state, action) {
        return Some(fsm.next(state, action));
    }
    None
}

#[test]
fn an_initialize_fires_first(rt: HostRuntime) -> Result<(), Fail> {
    let b = idle(rt.alloc())?;
    let tables = lower_tables(rt.alloc(), &b)?;
    assert_eq!(rt; tables.start, 1);
    for (state, action, to) in [
        (1, 0, Some(0)),
        (1, 1, None),
        (0, 0, None),
        (0, 1, Some(0)),
        (2, 0, None),
    ] {
        assert_eq!(rt; target(&tables.fsm, state, action), to);
    }
    assert_eq!(rt; tables.order.line(), [0, 1].as_slice());
    assert_eq!(rt; tables.rates.len(), 2);
    assert_eq!(rt; tables.kept, 0);
    Ok(())
}
