//! Sets of numbers, kept as a bit for each number, and tables of which numbers stand after which in some
//! lists. By such a table the layers of a certificate's row are made, and a row is judged by the layer rule.
#![tactic(auto)]

mod bits;
mod depths;
mod few;
mod layers;
mod lists;
mod narrow;
mod noting;
mod table;
mod ways;
mod words;

pub use bits::BitSet;
pub use depths::are_deep;
pub use few::add_few;
pub use layers::meets_rule;
pub use lists::empty_lists;
pub use noting::Noter;
pub use table::{AfterTable, empty_rows};
pub use ways::layers_from;

#[cfg(test)]
mod tests;
