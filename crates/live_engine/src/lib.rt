//! The engine that replays a trace in a session, over any reader and writer: [`live`] is the command `live`.
//!
//! It stands in a crate of its own, since it alone of the engines needs sessions: those of `engines` are proved
//! without them. The parts that it shares with these are in `engines`.
#![tactic(auto)]

mod rehearsed;

pub use rehearsed::{Lived, live};

#[cfg(test)]
mod tests;
