//! Certificates and their text.
//!
//! A certificate shows why a verdict is right: it names the first fault, gives an order, or gives a cycle
//! with rows of layers that show that none is shorter. Its text is lines of ASCII, each ended by one LF:
//! `cert 1` or `cert 2`; then `doubled F G`, `contents E` or `position E`; or `accepted` and `order : names`;
//! or `refused k`, `k` lines `step a b E`, and for `k` of 3 and more rows `layers` with `k - 1` layers of
//! names, ` /` between two. In version 2 a row speaks of the elements alone that are not numbered below its
//! source.
//!
//! No crate that searches stands below this one, so that a checker can stand on it.
#![tactic(auto)]

mod ahead;
mod certificate;
mod cycle;
mod entries;
mod fault;
mod first_lines;
mod kind;
mod laws;
mod outline;
mod progress;
mod reading;
mod version;
mod writing;

pub use ahead::first_step;
pub use certificate::Certificate;
pub use entries::StepWords;
pub use fault::{CertCause, CertFault};
pub use laws::{
    certificates_are_of_streams, certificates_are_unique, certificates_are_valid,
    each_text_spells_or_has_a_fault, spelled_texts_have_no_fault, texts_have_one_first_fault,
    texts_spell_one_certificate,
};
pub use outline::Outline;
pub use version::Version;
pub use witnesses::{Layer, Layers, Order, Row, Step, Steps};
pub use writing::push_row;

#[cfg(test)]
mod tests;
