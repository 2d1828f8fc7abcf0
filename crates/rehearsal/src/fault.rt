//! Why a rehearsal ended without a recording.
ghost use Rattle.std.specs.Prelude.{◌≡◌};
ghost use Rattle.rehearsal.specs.Faults.{replay_fault, watch_fault};
ghost use Rattle.rehearsal.specs.Foremost.{foremost_of};
ghost use Rattle.rehearsal.specs.declared.fault.RehearsalFault.TheVariants as fault;

use events::{Memory, Refusal};
use sessions::{ReplayFault, SearchFault, Verdicts};
use thiserror::Error;

/// Why a rehearsal ended without a recording. `Workers` is tested first; after all threads are joined, out of
/// memory in any of them is answered before `Thread`, and `Thread` before `Stalled`.
#[derive(Clone, Copy, Debug, PartialEq, Eq, Error)]
pub enum RehearsalFault {
    /// The number of workers is not 1 to 64.
    #[error("workers")]
    Workers,
    /// A thread couldn't be started.
    #[error("thread")]
    Thread,
    /// A recorder gave up on a receipt of an operation that had not come.
    #[error("stalled")]
    Stalled,
    /// An allocation failed.
    #[error("memory")]
    Memory,
}

impl From<Memory> for RehearsalFault {
    ghost from_gives = { λ _ given. given ≡ fault.Memory };

    fn from(_error: Memory) -> RehearsalFault {
        RehearsalFault::Memory
    }
}

/// What a replay that stopped ends the rehearsal with.
pub fn of_replay(answer: &Result<u32, ReplayFault>) -> Option<RehearsalFault>
    ensures { result ≡ replay_fault answer.now }
{
    match answer {
        Ok(_) => None,
        Err(
            ReplayFault::Refused {
                at: _,
                why: Refusal::Memory,
            },
        ) => Some(RehearsalFault::Memory),
        // A legal recording's entries meet no other refusal than that an operation has not come yet.
        Err(_) => Some(RehearsalFault::Stalled),
    }
}

/// What a watch that failed ends the rehearsal with.
pub fn of_watch(answer: &Result<Verdicts, SearchFault>) -> Option<RehearsalFault>
    ensures { result ≡ watch_fault answer.now }
{
    match answer {
        Ok(_) => None,
        Err(_) => Some(RehearsalFault::Memory),
    }
}

/// The one of two faults that is answered: `Memory` before `Thread`, and `Thread` before `Stalled`.
pub fn foremost(
    one: Option<RehearsalFault>,
    other: Option<RehearsalFault>,
) -> Option<RehearsalFault>
    ensures { result ≡ foremost_of one other }
{
    match (one, other) {
        (None, fault) => fault,
        (fault, None) => fault,
        (Some(RehearsalFault::Memory), _) => one,
        (_, Some(RehearsalFault::Memory)) => other,
        (Some(RehearsalFault::Thread), _) => one,
        (_, Some(RehearsalFault::Thread)) => other,
        (fault, _) => fault,
    }
}
