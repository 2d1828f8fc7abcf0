//! Why the program did not do what it was asked for.

ghost use Rattle.std.specs.Prelude.{◌≡◌};
ghost use Rattle.finder_cli.specs.Endings.{number_of_fault};

use command_line::Word;
use thiserror::Error;
use trace_text::LineFault;

/// Why the program did not do what it was asked for. Its text stands on standard error, behind `finder: `.
#[derive(Debug, Drop, Error)]
pub enum ProgramFault {
    /// The words are no command.
    #[error("usage")]
    Usage,
    /// The file can't be opened or read. Where a certificate was opened and can't be read, it is the trace.
    #[error("cannot read {file}")]
    Read { file: Word },
    /// The text spells no recording.
    #[error("{0}")]
    Trace(LineFault),
    /// A thread couldn't be started.
    #[error("thread")]
    Thread,
    /// A recorder gave up on a receipt of an operation that had not come.
    #[error("stalled")]
    Stalled,
    /// Standard output can't be written.
    #[error("cannot write")]
    Write,
    /// An allocation failed.
    #[error("memory")]
    Memory,
}

impl ProgramFault {
    /// The exit status: 3 for out of memory, 2 for any other fault.
    pub fn number(&self) -> u8
        ensures { result ≡ number_of_fault self.now }
    {
        match self {
            ProgramFault::Memory => 3,
            _ => 2,
        }
    }
}
