//! Which element of a recording stands before which, in which response.
//!
//! The responses of all operations, or of some that cover all, are kept as lists of the elements' numbers, in
//! the order of the operations' names, and for each element the places where it stands. All of it is linear
//! in the places.
#![tactic(auto)]

mod emptying;
mod looked;
mod narrowing;
mod order_graph;
mod pairs;
mod spot;
mod spots;
mod turning;

pub use looked::Looked;
pub use order_graph::OrderGraph;
pub use spot::Spot;
