//! The least order of a recording's elements that follows every response, and which elements can be taken
//! in turn where there is none.
//!
//! Each time the least element is taken that stands right after none that is left. What is taken is a front
//! of every response, so neighbouring places tell what any two places do.
#![tactic(auto)]

mod free;
mod least_order;
mod successors;

pub use least_order::{Sorted, order, sort, taken};
pub use successors::{Edge, Successors, successors_of};
pub use witnesses::Order;
