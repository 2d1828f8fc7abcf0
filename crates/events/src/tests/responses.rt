//! Responses as lists of names, their copies, and for how many names two of them go on alike.

use super::{LONG_NAMES, OTHER_LONG_NAMES, has_at, name, of_names, pushed, put, response};
use crate::{Memory, NameFault, PushFault, Response};
use std::alloc::Global;

/// The names `a`, `a` and `b`.
fn listed(alloc: Global) -> Option<Response> {
    let a = name("a").ok()?;
    let b = name("b").ok()?;
    let mut made = response(alloc, a, 2).ok()?;
    pushed(&mut made, b).ok()?;
    Some(made)
}

/// The same names, copied.
fn listed_again(alloc: Global) -> Option<Response> {
    let made = listed(alloc)?;
    match made.copy(alloc) {
        Err(Memory) => made.copy(alloc).ok(),
        Ok(copied) => Some(copied),
    }
}

/// An empty response with little room.
fn roomy(alloc: Global) -> Option<Response> {
    match Response::with_room(alloc, 1, 4) {
        Err(Memory) => Response::with_room(alloc, 1, 4).ok(),
        Ok(made) => Some(made),
    }
}

/// The bytes of the names `left` and `right`, put into a room that is too small for them.
fn put_together(alloc: Global) -> Option<Response> {
    let mut made = roomy(alloc)?;
    put(&mut made, b"left").ok()?;
    put(&mut made, b"right").ok()?;
    Some(made)
}

/// Whether these names stand in it: `a`, `a` and `b`.
fn has_three(made: &Response) -> bool {
    made.len() == 3
        && made.get(3).is_none()
        && has_at(made, 0, "a")
        && has_at(made, 1, "a")
        && has_at(made, 2, "b")
}

/// Whether these two names stand in it, and no other.
fn has_left_and_right(made: &Response) -> bool {
    made.len() == 2
        && made.text_len() == 11
        && made.text() == b" left right".as_slice()
        && made.bytes_at(0) == Some(b"left".as_slice())
        && has_at(made, 1, "right")
}

/// Whether bytes that are no name are refused for what is wrong with them.
fn refuses_no_names(made: &mut Response) -> bool {
    made.push_bytes(b"") == Err(PushFault::Name(NameFault::Empty))
        && made.push_bytes(b"a b") == Err(PushFault::Name(NameFault::BadByte { at: 1 }))
}

#[test]
fn responses_are_lists(rt: HostRuntime) {
    let made = listed(rt.alloc()).expect(&rt, "a response");
    assert!(rt; has_three(&made));
}

#[test]
fn responses_are_copied(rt: HostRuntime) {
    let again = listed_again(rt.alloc()).expect(&rt, "a response");
    assert!(rt; has_three(&again));
}

#[test]
fn responses_are_put_together_from_bytes(rt: HostRuntime) {
    let mut made = put_together(rt.alloc()).expect(&rt, "a response");
    assert!(rt;
        has_left_and_right(&made) && refuses_no_names(&mut made) && has_left_and_right(&made)
    );
}

/// Whether these names from a place and the others from a place are alike for so many.
fn are_alike(
    alloc: Global,
    names: &[&str],
    i: usize,
    others: &[&str],
    j: usize,
    count: usize,
) -> bool {
    let (Some(one), Some(other)) = (of_names(alloc, names), of_names(alloc, others)) else {
        return false;
    };
    one.same_names(i, &other, j) == count
}

const NAMES_IN_ORDER: &[&str] = &["left", "a", "b", "c", "d"];

const OTHERS_IN_ORDER: &[&str] = &["a", "b", "c", "right", "d"];

/// Names from a place, others from a place, and for how many they are alike.
#[derive(Clone, Copy)]
struct Alike(
    &'static [&'static str],
    usize,
    &'static [&'static str],
    usize,
    usize,
);

const ALIKE: &[Alike] = &[
    Alike(NAMES_IN_ORDER, 1, OTHERS_IN_ORDER, 0, 3),
    Alike(NAMES_IN_ORDER, 4, OTHERS_IN_ORDER, 4, 1),
    Alike(NAMES_IN_ORDER, 0, OTHERS_IN_ORDER, 0, 0),
    Alike(NAMES_IN_ORDER, 6, OTHERS_IN_ORDER, 0, 0),
    Alike(&["ab", "c"], 0, &["a", "bc"], 0, 0),
    Alike(&["a", "bc"], 0, &["a", "b", "c"], 0, 1),
    Alike(LONG_NAMES, 0, OTHER_LONG_NAMES, 0, 3),
    Alike(LONG_NAMES, 1, LONG_NAMES, 1, 3),
];

#[test]
fn responses_go_on_alike(rt: HostRuntime) {
    for Alike(names, i, others, j, count) in ALIKE.iter().copied() {
        assert!(rt;
            are_alike(rt.alloc(), names, i, others, j, count),
            "from {i} and {j}"
        );
    }
}
