//! The least orders of random recordings, beside a plain search for them.

use super::answers::least_order;
use super::plain::first_order;
use super::worked::is_same;
use events::Recording;
use sample_recordings::{Random, mostly_ordered};
use std::alloc::Global;
use std::test::Fail;
use std::thread::Threads;

/// Whether a recording has the least order that the plain program finds, or none in both; with whether it
/// has one.
fn agrees(
    rt: &(impl Threads + Sync),
    alloc: Global,
    recording: &Recording,
) -> Result<(bool, bool), Fail> {
    let found = least_order(rt, alloc, recording)?;
    let plain = first_order(alloc, recording)?;
    match (found, plain) {
        (None, None) => Ok((true, false)),
        (Some(order), Some(names)) => Ok((is_same(&order, names.as_slice()), true)),
        (found, _) => Ok((false, found.is_some())),
    }
}

#[test]
fn generated_recordings_agree_with_the_plain_program(rt: HostRuntime) -> Result<(), Fail> {
    let alloc = rt.alloc();
    let mut random = Random(2016);
    let mut orders: usize = 0;
    let mut cycles: usize = 0;
    for _ in 0..300 {
        let recording = mostly_ordered(alloc, &mut random)?;
        let (agrees, has_order) = agrees(&rt, alloc, &recording)?;
        assert!(rt; agrees);
        if has_order {
            orders = orders.saturating_add(1);
        } else {
            cycles = cycles.saturating_add(1);
        }
    }
    // Both kinds are among them.
    assert!(rt; 50 < orders);
    assert!(rt; 50 < cycles);
    Ok(())
}
