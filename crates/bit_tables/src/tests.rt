//! Tests of the sets of numbers and of the tables.

mod sets;
mod tables;
mod ways;
