//! Readers and writers of bytes that tell contracts how their calls went.
//!
//! They are small types of our own. `std`'s traits tell a contract which bytes a call moved, and not whether
//! it failed. `Reader` and `Writer` record each call. `Source` and `Sink` are proved over any of these: after
//! a call that failed none is made, and a stream that failed is closed. Nothing is known of the calls of
//! `std`'s own streams, and the code can't tell them apart, so it does the same with them.
#![tactic(auto)]

mod reader;
mod sink;
mod source;
mod writer;

pub use reader::Reader;
pub use sink::{Sink, WriteFault};
pub use source::{READS, ReadFault, Source};
pub use writer::Writer;
