//! Names of operations.

use crate::OpName;

/// Whether it is the operation of this replica with this number.
fn is_operation(made: Option<OpName>, replica: u32, n: u32) -> bool {
    match made {
        Some(made) => made.replica == replica && made.n == n,
        None => false,
    }
}

/// Whether both are names of operations, and the first is less.
fn is_lower(lower: Option<OpName>, higher: Option<OpName>) -> bool {
    match (lower, higher) {
        (Some(lower), Some(higher)) => lower < higher,
        _ => false,
    }
}

/// Whether operations count from 1, and are ordered by their replicas first.
fn count_from_one() -> bool {
    OpName::new(3, 0).is_none()
        && is_operation(OpName::new(3, 1), 3, 1)
        && is_lower(OpName::new(2, 9), OpName::new(3, 1))
}

#[test]
fn operations_count_from_one(rt: HostRuntime) {
    assert!(rt; count_from_one());
}
