//! The conflict number of a recording, which is the least number of responses that no order of the elements
//! follows together, and the least cycle of elements that shows it. Workers search in threads.
//!
//! `search` and `distances` of `list_search` are handed out too.
//!
//! - The search goes on in the core: the elements through which a cycle leads. It holds every cycle, and the
//!   answers there are those of the whole (proofs/Cores). These are the strongly connected components with
//!   more than one element: they are guessed, and then tested (proofs/OnCycles).
//! - It starts from few elements. An order of the core is guessed, and the elements out of place in it are
//!   found. Each cycle leads through one of these, whatever the guess was. That they are few is not claimed:
//!   the fewest are hard to find.
//! - Searches go over the lists; or over one table of bits, where a layer is a union of rows, if that has no
//!   more words than the lists have places (`ways`): at most 8 bytes for each.
//! - Workers take all memory before they start, so no worker can run out of memory in a search. A worker
//!   takes the next source by one addition, and waits for nobody.
#![tactic(auto)]

mod before_table;
mod components;
mod conflict;
mod cycle_core;
mod cycles;
mod gate;
mod guesses;
mod laws;
mod lower_bounds;
mod search_fault;
mod sources;
mod tabled;
mod thinning;
mod ways;
mod workers;

pub use before_table::BeforeTable;
pub use conflict::{
    Conflict, conflict_number, least_conflict, least_conflict_along, least_conflict_in_turn,
};
pub use cycles::least_cycle;
pub use gate::{Gate, NoGate};
pub use laws::{least_offer_is_shortest, looks_are_determined, most_workers_is_the_number};
pub use list_search::{BoundSource, PlainBound, Scratch, distances, search};
pub use order_graph::Looked;
pub use search_fault::SearchFault;
pub use tabled::{Sets, search_by_table};
pub use thinning::thinned;
pub use witnesses::{Step, Steps};

/// How many workers may search side by side: each has a seat at the shared bound.
pub const MOST_WORKERS: u32 = 64;
