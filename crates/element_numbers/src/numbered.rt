//! The elements of a recording with their numbers, and the operations that cover all.

use super::covering::Covering;
use super::numbers::NameNumbers;
use events::Name;

/// The elements of a recording: their names in the order of their inserts' operations, and each name's
/// number, its place among these, from 0; and operations whose responses cover those of all, as rows of these
/// numbers.
#[derive(Drop)]
pub struct NumberedElements {
    pub names: Vec<Name>,
    pub numbers: NameNumbers,
    pub covering: Covering,
}
