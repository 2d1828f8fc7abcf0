//! The command line of the program: its words, and the task that they ask for.
#![tactic(auto)]

mod task;
mod words;

pub use task::{Form, Task, Word};
pub use words::{MOST_WORKERS, VERSION, WORKERS, WordsFault, read_words};

#[cfg(test)]
mod tests;
