//! The two versions of the text, of which the second alone has views.

use super::round_trips::{PLAIN, first_changed};
use super::{first_wrong, first_wrong_in_pieces};
use crate::Cause;
use std::test::Fail;

/// Texts with views, of which each is written as it is here.
pub const WITH_VIEWS: &[&str] = &[
    "trace 2\nreplicas 1\n0 view :\n",
    "trace 2\nreplicas 2\n0 ins a 0 : a\n0 ins b 1 : a b\n1 recv 0 2\n1 view : b\n",
    "trace 2\nreplicas 3\n0 ins a 0 : a\n1 ins b 0 : b\n2 ins c 0 : c\n0 recv 1 1\n0 recv 2 1\n0 view : a b\n0 view : b c\n0 view : c a\n",
    "trace 2\nreplicas 2\n0 ins a 0 : a\n1 ins b 0 : b\n0 recv 1 1\n1 recv 0 1\n0 view : a b\n1 view : b a\n",
    // What no view of a sound recording holds is read all the same.
    "trace 2\nreplicas 1\n0 ins a 0 : a\n0 del a :\n0 view : a\n",
    "trace 2\nreplicas 1\n0 ins a 0 : a\n0 view : a a\n",
    // A view before, between and after other entries.
    "trace 2\nreplicas 1\n0 view :\n0 read :\n0 read :\n",
    "trace 2\nreplicas 1\n0 read :\n0 view :\n0 read :\n",
    "trace 2\nreplicas 1\n0 read :\n0 read :\n0 view :\n",
    "trace 2\nreplicas 2\n0 ins view 0 : view\n0 view : view\n1 recv 0 2\n1 view : view trace 2\n",
];

#[test]
fn views_are_read_and_written_again(rt: HostRuntime) -> Result<(), Fail> {
    assert_eq!(rt; first_changed(rt.alloc(), b"trace 2", WITH_VIEWS)?, None);
    Ok(())
}

#[test]
fn what_has_no_view_is_written_in_version_one(rt: HostRuntime) -> Result<(), Fail> {
    assert_eq!(rt; first_changed(rt.alloc(), b"trace 2", PLAIN)?, None);
    Ok(())
}

/// Texts of version one, with the line of their first view and what is wrong with it.
const VIEWS_IN_ONE: &[(&str, u32, Cause)] = &[
    ("replicas 1\n0 view :\n", 3, Cause::Shape),
    ("replicas 1\n0 view :", 3, Cause::Cut),
    ("replicas 1\n0 view : a b\n", 3, Cause::Shape),
    ("replicas 1\n0 view : a\n0 view : a  a\n", 3, Cause::Shape),
    ("replicas 1\n0 ins a 0 : a\n0 view : a\n", 4, Cause::Shape),
    (
        "replicas 1\n0 read :\n0 read :\n0 view :\n",
        5,
        Cause::Shape,
    ),
    // What `record` would refuse too.
    ("replicas 1\n1 view :\n", 3, Cause::Shape),
    ("replicas 1\n4294967295 view : a\n", 3, Cause::Shape),
];

#[test]
fn version_one_has_no_views(rt: HostRuntime) -> Result<(), Fail> {
    assert_eq!(rt; first_wrong(rt.alloc(), b"trace 1\n", VIEWS_IN_ONE)?, None);
    for size in 1..9 {
        let wrong = first_wrong_in_pieces(rt.alloc(), b"trace 1\n", VIEWS_IN_ONE, size)?;
        assert_eq!(rt; wrong, None);
    }
    Ok(())
}
