//! The numbers of an order graph by how many steps lead to them, along its lists.
//!
//! Each list is gone through once from its end, so that a call costs no more than the places behind what it
//! reaches. `bit_tables` makes the same layers along a table of bits, at a word for each 64 numbers and each
//! number that is reached: where many numbers are, the lists are cheaper.
#![tactic(auto)]

mod expand;
mod layers;
mod list_layers;
mod restore;
mod state;
mod sweep;

pub use list_layers::ListLayers;
