//! A text cut short, at each of its bytes.

use super::{THREE_WAY_CYCLE, has_fault, is_recording, reading};
use crate::Cause;
use std::alloc::Global;
use std::test::Fail;

/// After how many bytes each line of the three-way cycle ends.
const ENDS: [usize; 11] = [8, 19, 33, 44, 55, 71, 87, 97, 108, 119, 132];

/// The number of the line that is begun after so many bytes, from 1.
fn line_begun(length: usize) -> u32 {
    let mut line = 1u32;
    for end in ENDS {
        if end <= length {
            line = line.saturating_add(1);
        }
    }
    line
}

/// Whether reading says of the text's first bytes, so many, what it must: a line that is begun is cut, the
/// first two lines must be there, and whole lines after these are read.
fn is_right_of(alloc: Global, length: usize) -> Result<bool, Fail> {
    let Some(text) = THREE_WAY_CYCLE.as_bytes().get(..length) else {
        return Ok(false);
    };
    let said = reading(alloc, text);
    match length {
        0 => Ok(has_fault(said, 1, Cause::Header)),
        8 => Ok(has_fault(said, 2, Cause::Replicas)),
        _ => {
            if ENDS.contains(&length) {
                return is_recording(alloc, said, text);
            }
            Ok(has_fault(said, line_begun(length), Cause::Cut))
        }
    }
}

#[test]
fn every_prefix_of_the_three_way_cycle(rt: HostRuntime) -> Result<(), Fail> {
    assert_eq!(rt; THREE_WAY_CYCLE.len(), 132);
    for length in 0..=132 {
        assert!(rt; is_right_of(rt.alloc(), length)?, "of {length} bytes");
    }
    Ok(())
}
