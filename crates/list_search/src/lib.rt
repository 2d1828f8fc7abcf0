//! The search by levels for a shortest cycle, and distances, over the lists of an order graph.
//!
//! A search looks at each place of a list once. `level_search` searches so where a table of bits would cost
//! more, and calls `distances` for the ring of the least cycle.
#![tactic(auto)]

mod searching;

pub use order_graph::Looked;
pub use searching::{
    BoundSource, PlainBound, ReadyScratch, Scratch, distances, distances_ready, reset_marks,
    restore_marks, search, search_by_number, search_ready,
};
