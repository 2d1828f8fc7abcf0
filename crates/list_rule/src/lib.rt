//! The layer rule along lists.
//!
//! `bit_tables` judges a row by a table of which numbers stand after which, at a word for each 64 numbers and
//! each number of the row. Here a row is judged along the lists themselves: it costs no more than the places
//! behind its numbers, each place once. Where lists are long and few, that is cheaper.
#![tactic(auto)]

mod kept;
mod list_rule;
mod marks;
mod parts;
mod passing;
mod spot;
mod spots;

pub use list_rule::ListRule;

#[cfg(test)]
mod tests;
