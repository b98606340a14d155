//! Automata of steps and free actions.

use schedule_fsm::{FsmFault, Step, build};
use std::test::Fail;

const TURN: Step = Step {
    from: 0,
    action: 0,
    to: 1,
};

const RETURN: Step = Step {
    from: 1,
    action: 1,
    to: 0,
};

const JUMP: Step = Step {
    from: 0,
    action: 0,
    to: 2,
};

#[test]
fn steps_and_free_actions_lead(rt: HostRuntime) -> Result<(), Fail> {
    let fsm = build(rt.alloc(), &[TURN, RETURN, TURN], &[false, false, true], 3)?;
    assert!(rt; fsm.eligible(0, 0));
    assert_eq!(rt; fsm.next(0, 0), 1);
    assert!(rt; !fsm.eligible(0, 1));
    assert!(rt; fsm.eligible(2, 2));
    assert_eq!(rt; fsm.next(2, 2), 2);
    Ok(())
}

#[test]
fn two_targets_are_refused(rt: HostRuntime) {
    let refused = build(rt.alloc(), &[TURN, RETURN, JUMP], &[false, false, true], 3);
    assert!(rt;
        matches!(
            refused,
            Err(FsmFault::Ambiguous {
                state: 0,
                action: 0
            })
        )
    );
}
