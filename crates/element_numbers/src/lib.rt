//! The elements of a recording, their numbers, and its responses as lists of these.
//!
//! Elements are numbered from 0 in the order of their inserts' operations. Search and checker both keep
//! responses as lists of these numbers. It takes memory and time linear in the places of all responses.
#![tactic(auto)]

mod covering;
mod name_key;
mod names;
mod numbered;
mod numbers;
mod places;
mod rows;

pub use covering::Covering;
pub use name_key::NameKey;
pub use names::inserted_names;
pub use numbered::NumberedElements;
pub use numbers::{NameNumbers, number_or_count, numbers_of};
pub use places::places_of;
pub use rows::Rows;
