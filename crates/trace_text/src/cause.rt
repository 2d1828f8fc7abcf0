//! Why a line is no line of a trace.

use events::Refusal;
use thiserror::Error;

/// What is wrong with a line of a trace text.
#[derive(Clone, Copy, Debug, PartialEq, Eq, Error)]
pub enum Cause {
    /// The first line is missing, or is neither `trace 1` nor `trace 2`.
    #[error("header")]
    Header,
    /// The second line is missing, or is not `replicas R` with R from 1 to 16.
    #[error("replicas")]
    Replicas,
    /// A later line spells no entry: in a text that begins with `trace 1`, a view too is none.
    #[error("shape")]
    Shape,
    /// The last line has no LF.
    #[error("cut")]
    Cut,
    /// The recording so far refuses the line's entry, or the line's reading found no memory.
    #[error(transparent)]
    Refused(Refusal),
}

/// The first faulty line of a text, and what is wrong with it.
#[derive(Clone, Copy, Debug, PartialEq, Eq, Error)]
#[error("line {line}: {cause}")]
pub struct LineFault {
    /// The line's number, from 1.
    pub line: u32,
    /// What is wrong with it.
    pub cause: Cause,
}
