//! How an engine ends.

use events::Memory;
use thiserror::Error;
use trace_text::LineFault;

/// How an engine ended that wrote its output.
#[derive(Clone, Copy, Debug, PartialEq, Eq)]
pub enum Status {
    /// The recording is accepted: it has no fault, and some order follows every response. Of the checker:
    /// yes. Of a help: it was written.
    Good,
    /// It has a fault, or no order follows every response. Of the checker: no.
    Bad,
}

impl Status {
    ghost use Rattle.std.specs.Prelude.{◌≡◌};
    ghost use Rattle.engines.specs.Runs.{number_of_status};

    /// The exit status: 0 for `Good`, 1 for `Bad`.
    pub fn number(self) -> u8
        ensures { result ≡ number_of_status self }
    {
        match self {
            Status::Good => 0,
            Status::Bad => 1,
        }
    }
}

/// Why an engine wrote no output, or not the whole of it. `Workers` is tested first. Out of memory is
/// answered where it is met; by `live`, in a session, after its threads are joined. `Thread` and `Stalled`
/// are of `live` alone.
#[derive(Clone, Copy, Debug, PartialEq, Eq, Error)]
pub enum RunFault {
    /// The number of workers is not 1 to 64.
    #[error("workers")]
    Workers,
    /// A read failed, or the limit of reads was reached.
    #[error("cannot read")]
    Read,
    /// The text spells no recording: its first faulty line.
    #[error(transparent)]
    Trace(LineFault),
    /// A recorder or the watcher of `live` couldn't be started.
    #[error("thread")]
    Thread,
    /// A recorder gave up on a receipt of an operation that had not come.
    #[error("stalled")]
    Stalled,
    /// A write failed or took no byte. A prefix of the output was written, and not all of it.
    #[error("cannot write")]
    Write,
    /// An allocation failed.
    #[error("memory")]
    Memory,
}

impl From<Memory> for RunFault {
    ghost use Rattle.std.specs.Prelude.{◌≡◌};
    ghost use Rattle.engines.specs.declared.status.RunFault.TheVariants as run;

    ghost from_gives = { λ _ fault. fault ≡ run.Memory };

    fn from(_error: Memory) -> RunFault {
        RunFault::Memory
    }
}
