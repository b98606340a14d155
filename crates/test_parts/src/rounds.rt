//! Picks and shares on small numbers.

use round_plan::{AllPolicy, Policy, SeedPolicy, TurnPolicy, split_budget};

#[test]
fn shares_of_ten_by_three(rt: HostRuntime) {
    assert_eq!(rt; split_budget(10, 3, 64, 0), 4);
    assert_eq!(rt; split_budget(10, 3, 64, 1), 3);
    assert_eq!(rt; split_budget(10, 3, 64, 2), 3);
    assert_eq!(rt; split_budget(10, 3, 2, 0), 2);
}

#[test]
fn policies_pick(rt: HostRuntime) {
    let mut picked = [false; 3];
    let mut all = AllPolicy::new();
    all.pick(1, &mut picked);
    assert_eq!(rt; picked.as_slice(), [true, true, true].as_slice());
    let mut turn = TurnPolicy::new();
    turn.pick(1, &mut picked);
    assert_eq!(rt; picked.as_slice(), [true, false, false].as_slice());
    turn.pick(2, &mut picked);
    assert_eq!(rt; picked.as_slice(), [false, true, false].as_slice());
    let mut seed = SeedPolicy::new(7);
    seed.pick(1, &mut picked);
    assert_eq!(rt; picked.as_slice(), [false, true, true].as_slice());
    seed.pick(2, &mut picked);
    assert_eq!(rt; picked.as_slice(), [false, false, false].as_slice());
}
