//! What a verdict and a certificate show as their reasons: orders of elements, steps of a cycle, and rows of
//! layers. They are lists, and contracts see them as such.
#![tactic(auto)]

mod element_order;
mod fixed_list;
mod layers;
mod steps;

pub use element_order::Order;
pub use fixed_list::FixedList;
pub use layers::{Layer, Layers, Row};
pub use steps::{Step, Steps};

#[cfg(test)]
mod tests;
