//! A recording read from its text.

use events::Recording;
use std::alloc::Global;
use trace_text::{LineFault, read};

/// The recording that a text spells.
pub fn recording(alloc: Global, text: &str) -> Result<Recording, LineFault> {
    match read(alloc, text.as_bytes()) {
        Ok(recording) => Ok(recording),
        Err(_) => read(alloc, text.as_bytes()),
    }
}
