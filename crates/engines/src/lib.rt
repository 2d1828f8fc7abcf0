//! The engines that need no session, over any reader and writer: [`run`] is the command `verdict`,
//! [`run_cert`] is `cert`, and [`run_verify`] is `verify`.
//!
//! - They say by [`Status`] what they found, or by [`RunFault`] why they wrote no output, or not the whole of
//!   it.
//! - [`report_on_text`] and [`certificate_on_text`] do what [`run`] and [`run_cert`] do for a trace in memory, in
//!   the caller's thread.
//! - [`line_of`] is the line that [`run_verify`] writes for an answer, and [`status_of_answer`] its status.
//! - [`recording_from`], [`verdict_on`], [`status_of`], [`Output`] and [`write_output`] are parts that the
//!   engine `live` has too. That stands in `live_engine`, so this crate needs no sessions.
#![tactic(auto)]

mod answer_line;
mod certified;
mod in_memory;
mod output;
mod reported;
mod status;
mod trace_source;
mod verified;

pub use answer_line::line_of;
pub use certified::run_cert;
pub use in_memory::{certificate_on_text, report_on_text};
pub use output::{Output, status_of, verdict_on, write_output};
pub use reported::run;
pub use status::{RunFault, Status};
pub use trace_source::recording_from;
pub use verified::{run_verify, status_of_answer};

#[cfg(test)]
mod tests;
