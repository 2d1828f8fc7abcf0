//! The checker: whether a certificate is valid for the recording that a trace spells, and if not, why.
//!
//! No crate that searches stands below this one: who trusts its contract trusts no search.
//!
//! - It keeps what long responses showed. A step costs the response that it cites. But where a certificate
//!   has 4,096 steps or more, the places of a response's names are kept once as many steps were right in it as
//!   cost what sorting them does. A later step then costs a search by halving for each name, or one look into
//!   4 MB of slots. Without that a gigabyte of right steps in long responses would take minutes.
//! - It starts no thread. Near the limit on names a second thread took 7 and 8 milliseconds of processor
//!   more, a tenth of what the checker does beyond reading (two recordings, least of seven runs, 2026-11-26).
//!   `check` and `check_recording` take a handle, which they don't use.
#![tactic(auto)]

mod answer;
mod checking;
mod cycle;
mod faults;
mod found;
mod guesses;
mod judging;
mod laws;
mod numbered;
mod order;
mod row_depths;
mod rows;
mod shown;
mod steps;
mod values;
mod ways;

pub use answer::{Answer, Kind, Reason};
pub use checking::{check, check_in_turn, check_recording, check_recording_in_turn};
pub use laws::{
    answers_are_unique, layers_bound_cycles, valid_certificates_get_yes,
    valid_certificates_have_no_reason, valid_certificates_imply, verdicts_certificates_get_yes,
};

#[cfg(test)]
mod tests;
