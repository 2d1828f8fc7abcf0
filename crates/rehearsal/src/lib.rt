//! A recording replayed: one recorder thread for each replica hands its stream in to one session, while a
//! watcher judges snapshots of it. What the session has in the end has the recording's streams, in whatever
//! order the threads came to run.
#![tactic(auto)]

mod board;
mod fault;
mod recorder;
mod rehearsing;
mod team;
mod watcher;

pub use fault::RehearsalFault;
pub use rehearsing::{Rehearsed, rehearse, rehearse_watched};
pub use sessions::Verdicts;

#[cfg(test)]
mod tests;
