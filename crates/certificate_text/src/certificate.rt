//! What a certificate claims.

use events::OpName;
use witnesses::{Layers, Order, Steps};

/// Why a verdict is right, to be checked without a search.
#[derive(Drop)]
pub enum Certificate {
    /// A name is inserted twice: `again` is the least operation that inserts a name which a lesser operation
    /// inserts too, and `first` the least that inserts that name.
    Doubled {
        first: OpName,
        again: OpName,
    },
    /// The contents of `at` are wrong, and no lesser operation has a fault.
    Contents {
        at: OpName,
    },
    /// The name that `at` inserts does not stand where it was asked for, and no lesser operation has a fault.
    Position {
        at: OpName,
    },
    /// An order that every response follows.
    Accepted(Order),
    /// A cycle of `k` steps, 2 or more; for `k` of 3 and more `layers` has a row for each element, in order
    /// of numbers, which shows that no cycle through the row's source is shorter than `k`.
    Refused {
        k: u32,
        steps: Steps,
        layers: Layers,
    },
}
