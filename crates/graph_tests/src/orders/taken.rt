//! What is taken in turn of worked recordings, by the elements' numbers.

use super::answers::taken_and_order;
use super::worked::{SHOWN_BESIDE_NONE, TWO_REPLICAS};
use sample_recordings::{EMPTY, OPPOSITE_PAIR, PAST_A_NEIGHBOUR, READ_THE_OTHER_WAY, recording};
use std::alloc::Global;
use std::test::Fail;
use std::thread::Threads;

/// The elements are x, a, b, c and d. Reads show a and b in both orders. Both stand after x, and b after d,
/// too; c stands after b.
const CYCLE_BETWEEN_OTHERS: &str =
    "trace 1\nreplicas 3\n0 ins x 0 : x\n0 ins a 1 : x a\n1 ins b 0 : b\n2 recv 1 1\n2 ins c 1 : b c\n2 ins d 0 : d b c\n0 recv 1 1\n0 read : x a b\n1 recv 0 1\n1 recv 0 2\n1 read : x b a\n";

/// Whether these numbers are taken of the recording that a text spells.
fn takes(
    rt: &(impl Threads + Sync),
    alloc: Global,
    text: &str,
    expected: &[u32],
) -> Result<bool, Fail> {
    let recording = recording(alloc, text)?;
    let (numbers, _) = taken_and_order(rt, alloc, &recording)?;
    Ok(numbers.as_slice() == expected)
}

#[test]
fn all_are_taken_in_the_least_order(rt: HostRuntime) -> Result<(), Fail> {
    let rows: [(&str, &[u32]); 4] = [
        (TWO_REPLICAS, &[0, 1]),
        (READ_THE_OTHER_WAY, &[1, 0]),
        (EMPTY, &[]),
        (SHOWN_BESIDE_NONE, &[0, 2, 1]),
    ];
    for (text, numbers) in rows {
        assert!(rt; takes(&rt, rt.alloc(), text, numbers)?, "{text}");
    }
    Ok(())
}

#[test]
fn neither_a_cycle_nor_what_stands_after_it_is_taken(rt: HostRuntime) -> Result<(), Fail> {
    let rows: [(&str, &[u32]); 3] = [
        (CYCLE_BETWEEN_OTHERS, &[0, 4]),
        (OPPOSITE_PAIR, &[]),
        (PAST_A_NEIGHBOUR, &[]),
    ];
    for (text, numbers) in rows {
        assert!(rt; takes(&rt, rt.alloc(), text, numbers)?, "{text}");
    }
    Ok(())
}
