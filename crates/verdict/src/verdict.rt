//! What is said of a recording.

use contents_check::Fault;
use events::OpName;
use witnesses::{Order, Steps};

/// The verdict on a recording.
#[derive(Drop)]
pub enum Verdict {
    /// A name is inserted twice: `again` is the least operation that inserts a name which a lesser operation
    /// inserts too, and `first` is the least operation that inserts that name. Such a recording is judged no
    /// further: neither list specification speaks of it.
    Doubled { first: OpName, again: OpName },
    /// The response of `at` repeats a name, or does not hold exactly what is visible; a view's may hold a
    /// part of that. No lesser operation has a fault.
    Contents { at: OpName },
    /// The name that `at` inserts does not stand where it was asked for. No lesser operation has a fault.
    Position { at: OpName },
    /// No fault, and this is the least order of the elements that every response follows.
    Accepted(Order),
    /// No fault, and no order that every response follows: `k` is the conflict number, 2 or more, and these
    /// are the `k` steps of the least conflict cycle.
    Refused { k: u32, steps: Steps },
}

impl Verdict {
    ghost use Rattle.std.specs.Prelude.{◌≡◌};
    ghost use Rattle.specification.specs.Verdict.{faulty};
    ghost use Rattle.contents_check.specs.FaultOf.{fault_of};
    ghost use Rattle.verdict.specs.VerdictOf.{verdict_of};

    /// The verdict that a recording has this first fault.
    pub fn of_fault(fault: Fault) -> Verdict
        ensures { verdict_of result ≡ faulty (fault_of fault) }
    {
        match fault {
            Fault::Doubled { first, again } => Verdict::Doubled { first, again },
            Fault::Contents { at } => Verdict::Contents { at },
            Fault::Position { at } => Verdict::Position { at },
        }
    }
}
