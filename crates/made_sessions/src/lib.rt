//! Sessions that are made up from a seed, as the texts of traces: what the benchmark has judged.
//!
//! No call has a contract, and no clause says what a text holds. The same shape and seed give the same text;
//! `front` takes no seed. A call takes time linear in the names that its session's editors show, and memory
//! linear in the text. It fails where memory runs out, and `small_cycle` also where an editor has inserted all
//! that it may.
#![tactic(auto)]

mod elements;
mod families;
mod fronts;
mod random;
mod replica;
mod seeds;
mod session;
mod shape;

pub use families::{
    accepted, concurrent, exchanged, lacking, long_responses, nameless, ring, short_lived,
    small_cycle,
};
pub use fronts::{FrontShape, front};
pub use random::Random;
pub use seeds::Seeds;
pub use shape::{DAY, NEAR_ALL, NEAR_NAMES, SMALL_TEAM, Shape};
