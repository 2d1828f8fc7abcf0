//! The least orders of worked recordings.

use super::answers::least_order;
use super::plain::first_order;
use events::Name;
use sample_recordings::{
    EMPTY, OPPOSITE_PAIR, PAST_A_NEIGHBOUR, READ_THE_OTHER_WAY, RING_OF_FOUR, THREE_WAY_CYCLE,
    recording,
};
use std::alloc::Global;
use std::test::Fail;
use std::thread::Threads;
use witness_order::Order;

pub const TWO_REPLICAS: &str = "trace 1\nreplicas 2\n0 ins a 0 : a\n1 ins b 0 : b\n";

/// Nobody else sees a, and nobody reads before it is deleted.
pub const SHOWN_BESIDE_NONE: &str =
    "trace 1\nreplicas 2\n0 ins a 0 : a\n0 del a :\n1 ins c 0 : c\n1 ins b 0 : b c\n0 read :\n";

/// Whether the least order of the recording that a text spells is the expected one, or is expected to be
/// none; and whether the plain program says so too.
fn gives(
    rt: &(impl Threads + Sync),
    alloc: Global,
    text: &str,
    expected: Option<&[&str]>,
) -> Result<bool, Fail> {
    let recording = recording(alloc, text)?;
    let found = least_order(rt, alloc, &recording)?;
    let plain = first_order(alloc, &recording)?;
    match (expected, found, plain) {
        (None, None, None) => Ok(true),
        (Some(texts), Some(order), Some(names)) => {
            Ok(has_texts(&order, texts) && is_same(&order, names.as_slice()))
        }
        _ => Ok(false),
    }
}

/// Whether a name is there, and has this text.
fn has_text(name: Option<&Name>, text: &str) -> bool {
    match name {
        Some(name) => name.bytes() == text.as_bytes(),
        None => false,
    }
}

/// Whether an order has these texts as its names.
fn has_texts(order: &Order, texts: &[&str]) -> bool {
    for i in 0..texts.len() {
        if !has_text(order.get(i), texts[i]) {
            return false;
        }
    }
    order.len() == texts.len()
}

/// Whether an order has these names.
pub fn is_same(order: &Order, names: &[Name]) -> bool {
    for (i, name) in names.iter().enumerate() {
        if order.get(i).copied() != Some(*name) {
            return false;
        }
    }
    order.len() == names.len()
}

#[test]
fn the_least_of_several_orders(rt: HostRuntime) -> Result<(), Fail> {
    let rows: [(&str, &[&str]); 4] = [
        (TWO_REPLICAS, &["a", "b"]),
        (READ_THE_OTHER_WAY, &["b", "a"]),
        (EMPTY, &[]),
        (SHOWN_BESIDE_NONE, &["a", "b", "c"]),
    ];
    for (text, names) in rows {
        assert!(rt; gives(&rt, rt.alloc(), text, Some(names))?, "{text}");
    }
    Ok(())
}

#[test]
fn cycles_have_no_order(rt: HostRuntime) -> Result<(), Fail> {
    let texts = [
        THREE_WAY_CYCLE,
        OPPOSITE_PAIR,
        RING_OF_FOUR,
        PAST_A_NEIGHBOUR,
    ];
    for text in texts {
        assert!(rt; gives(&rt, rt.alloc(), text, None)?, "{text}");
    }
    Ok(())
}
