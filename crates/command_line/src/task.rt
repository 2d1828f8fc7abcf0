//! What a command line asks for.

use std::alloc::{AllocError, Global};
use std::fmt;
use std::marker::Model;

/// How a report is written.
#[derive(Clone, Copy, Debug, PartialEq, Eq)]
pub enum Form {
    /// As lines of text.
    Text,
    /// As one JSON object, and a LF.
    Json,
}

/// A word of a command line.
#[derive(Debug, Drop)]
pub struct Word {
    text: String,
}

impl Model for Word {
    ghost use Rattle.std.specs.Prelude.{List, ℕ, string_bytes};

    ghost Value = { List ℕ };

    ghost view = { λ word. string_bytes word.text };
}

impl Word {
    ghost use Rattle.std.specs.Prelude.{◌≡◌, IfOk};

    /// A copy of the text.
    pub fn new(alloc: Global, text: &str) -> Result<Word, AllocError>
        ensures { IfOk result (λ word. word ≡ text.now) }
    {
        Ok(Word {
            text: String::from_str(alloc, text)?,
        })
    }

    /// The word's text.
    pub fn as_str(&self) -> &str
        ensures { result.now ≡ self.now }
    {
        self.text.as_str()
    }
}

impl fmt::Display for Word {
    fn fmt<W: fmt::Write>(&self, f: &mut fmt::Formatter<W>) -> fmt::Result {
        f.write_str(self.as_str())
    }
}

/// What a command line asks for.
#[derive(Debug, Drop)]
pub enum Task {
    /// The report of the verdict on the recording that a file spells; `-` is standard input.
    Verdict {
        /// How many workers search: 1 to 64.
        workers: u32,
        /// How the report is written.
        form: Form,
        file: Word,
    },
    /// The certificate of the verdict on the recording that a file spells; `-` is standard input.
    Cert {
        file: Word,
    },
    /// The report of a recording that recorder threads replay into one session, while a watcher judges
    /// snapshots of it; `-` is standard input.
    Live {
        /// How many workers search: 1 to 64.
        workers: u32,
        file: Word,
    },
    /// Whether a certificate is valid for the recording that a file spells; `-` is standard input, which
    /// is read to its end for the trace and then again for the certificate where both are so.
    Verify {
        file: Word,
        cert: Word,
    },
}
