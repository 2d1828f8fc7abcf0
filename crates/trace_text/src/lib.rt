//! The trace text of a recording, read and written.
//!
//! A trace text is lines of ASCII, each ended by one LF: `trace 1` or `trace 2`, `replicas R` with R from 1
//! to 16, and a line for each entry: `r ins a k : names`, `r del a : names`, `r read : names`, `r recv q n`,
//! and where the first line is `trace 2`, `r view : names`. Words stand apart by one space, numbers have no
//! leading zeros and are below 2^32, operations count from 1.
//!
//! A recording with a view has one spelling. One without a view has two, which differ in the first line
//! alone: both are read, and `trace 1` is written.
//!
//! - A line is read beside its replica's last response, since most responses repeat the one before them but
//!   for a few names. So the texts are compared in chunks, and runs that are the same are copied. Only a word
//!   that differs is read as a name. Each run is compared, so a wrong guess costs time alone, and the
//!   contract of the reading does not mention the other response.
//! - A line that pieces cut is kept short, however long it grows (`KeptLine`). Contracts say that the short
//!   line stands for the long one (`StandsFor`): whatever follows, a fault of the one is the fault of the
//!   other.
#![tactic(auto)]

mod begun;
mod cause;
mod entry;
mod kept;
mod laws;
mod pieces;
mod reader;
mod reading;
mod version;
mod versioned;
mod whole;
mod writing;

pub use cause::{Cause, LineFault};
pub use laws::{
    each_text_spells_or_has_a_fault, spelled_texts_have_no_fault, texts_have_one_first_fault,
    texts_spell_one_recording, written_texts_spell,
};
pub use reader::Reader;
pub use whole::read;
pub use writing::write;

#[cfg(test)]
mod tests;
