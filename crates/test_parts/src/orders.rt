//! Orders of declared pairs.

use priority_order::{OrderFault, close};
use std::test::Fail;

#[test]
fn a_cycle_is_named_from_its_least_number(rt: HostRuntime) -> Result<(), Fail> {
    let Err(OrderFault::Cycle { actions }) = close(rt.alloc(), &[(0, 1), (1, 2), (2, 0)], 3) else {
        return Err(Fail::from("no cycle"));
    };
    assert_eq!(rt; actions.as_slice(), [0, 1, 2].as_slice());
    Ok(())
}

#[test]
fn the_highest_number_stands_first(rt: HostRuntime) -> Result<(), Fail> {
    let order = close(rt.alloc(), &[(2, 0), (2, 1)], 3)?;
    assert_eq!(rt; order.line(), [2, 0, 1].as_slice());
    assert!(rt; order.above(2, 1));
    assert!(rt; !order.above(1, 0));
    Ok(())
}
