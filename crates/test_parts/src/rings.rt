//! A queue across the end of its block.

use std::test::Fail;
use token_ring::Ring;

#[test]
fn a_ring_is_a_list(rt: HostRuntime) -> Result<(), Fail> {
    let mut ring = Ring::new(rt.alloc(), 3)?;
    assert!(rt; ring.is_empty());
    ring.push(1);
    ring.push(2);
    ring.push(3);
    ring.take(2);
    ring.push(4);
    ring.push(5);
    assert_eq!(rt; ring.len(), 3);
    assert_eq!(rt; ring.room(), 0);
    assert_eq!(rt; ring.at(0), 3);
    assert_eq!(rt; ring.at(1), 4);
    assert_eq!(rt; ring.at(2), 5);
    let tokens = ring.peek();
    assert_eq!(rt; tokens.at(0), 3);
    assert_eq!(rt; tokens.at(2), 5);
    Ok(())
}

#[test]
fn slices_come_and_go_across_the_end(rt: HostRuntime) -> Result<(), Fail> {
    let mut ring = Ring::new(rt.alloc(), 4)?;
    ring.push_all(&[1, 2, 3]);
    ring.take(2);
    ring.push_all(&[]);
    ring.push_all(&[4, 5, 6]);
    let (front, back) = ring.as_slices();
    assert!(rt; front == [3, 4].as_slice());
    assert!(rt; back == [5, 6].as_slice());
    assert_eq!(rt; ring.room(), 0);
    Ok(())
}

#[test]
fn the_newest_is_taken_back(rt: HostRuntime) -> Result<(), Fail> {
    let mut ring = Ring::new(rt.alloc(), 2)?;
    ring.push(1);
    ring.push(2);
    ring.take(1);
    ring.push(3);
    assert_eq!(rt; ring.take_back(), 3);
    assert_eq!(rt; ring.len(), 1);
    assert_eq!(rt; ring.at(0), 2);
    ring.push(4);
    assert_eq!(rt; ring.at(1), 4);
    Ok(())
}
