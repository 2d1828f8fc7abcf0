//! The report of a verdict, as text and as JSON.
//!
//! Both are functions of the recording's streams and the verdict alone. A report asks nothing of its verdict:
//! `text` and `json` write the one that they are given, right or not. That it is the recording's is the word
//! of `judge`; `run` of `engines` joins the two.
#![tactic(auto)]

mod counts;
mod json_report;
mod laws;
mod lines;
mod object;
mod words;

pub use json_report::json;
pub use laws::reports_are_of_streams;
pub use lines::text;
