//! The verdict on a recording: its first fault; or an order of the elements that every response follows; or
//! the fewest responses that no order follows together.
//!
//! `judge` looks for the first fault, then for the least order that every response follows, and only where
//! there is none for the conflict number and the least cycle.
#![tactic(auto)]

mod judging;
mod verdict;

pub use judging::{Judged, judge, verdict_and_graph, verdict_and_graph_in_turn};
pub use level_search::{Gate, NoGate, SearchFault};
pub use verdict::Verdict;
pub use witnesses::{Order, Step, Steps};
