//! The verdict on a recording, and its certificate: a text that shows why the verdict is right, so that a
//! checker needs no search.
//!
//! `judge`, of the crate `verdict`, gives the verdict. `certify` shows why it is right, and
//! `write_certificate` gives the text of that. `judge_and_write` does both, with threads, and
//! `judge_and_write_in_turn` without.
//!
//! Rows do not depend on one another, so threads make them side by side, in pieces. The pieces are not put
//! together, which would copy some tens of megabytes: the command `cert` writes them one after the other. A
//! row is let go once its line is written, since rows as values take seven times their text.
#![tactic(auto)]

mod certifying;
mod listed;
mod pieces;
mod rows;
mod ways;
mod writing;

pub use certificate_text::{CertCause, CertFault, Certificate, Layer, Layers, Row, Version};
pub use certifying::certify;
pub use specification::{
    conflict_numbers_fall, conflicts_stay, doubled_names_stay, faults_stay, verdicts_follow,
};
pub use verdict::{Gate, NoGate, SearchFault, Verdict, judge};
pub use witnesses::{Order, Step, Steps};
pub use writing::{
    Certified, Written, judge_and_write, judge_and_write_in_turn, write_certificate,
};

#[cfg(test)]
mod tests;
