//! Which elements stand before which in some list of an order graph, as one table of bits.

mod front;
mod table;

pub use table::BeforeTable;
