//! The program Domepeeler: reads a recording of collaborative editors, judges it, and writes the report or a
//! certificate; or checks a certificate; or replays a recording by threads in one session.
//!
//! `run`, `run_cert` and `run_verify` of the crate `engines`, and `live` of `live_engine`, are the engines,
//! over any readers and writers. `engine` calls those that read one trace. `program` joins them, `run_verify`
//! and the words of the command line, in any world that opens streams; `machine` is the real world. `fault`
//! has the exit statuses 2 and 3.
//!
//! - The program runs in a `World`: a trait that opens the stream of a word, is told when that is done with,
//!   and writes a fault's line; contracts see what was done. Which files are opened, which engine runs with
//!   which arguments, and the status: the contract of `finder` says it.
#![tactic(auto)]

mod engine;
mod fault;
mod machine;
mod program;
#[cfg(test)]
mod tests;
mod world;

use byte_streams::Sink;
use machine::Machine;
use program::{all_words, finder};
use std::io;
use std::process::ExitCode;

fn main(rt: HostRuntime) -> ExitCode {
    ExitCode::from(finder(
        &rt,
        all_words(&rt),
        &mut Machine::new(&rt),
        &mut Sink::new(io::writer(&rt)),
    ))
}
