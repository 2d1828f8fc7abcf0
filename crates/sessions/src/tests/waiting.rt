//! What no clause says: whom a replay asks, how often and with what.
ghost use Rattle.std.specs.Prelude.{◌≡◌, [], IfSome};
ghost use Rattle.sessions.specs.Shown.{mine};

use super::opened;
use crate::waiting::Yields;
use crate::{Pass, ReplayFault, Session, Waiter};
use events::{OpName, Refusal};
use sample_recordings::{THREE_WAY_CYCLE, recording};
use std::alloc::Global;
use std::sync::Wait;

/// Replica 0 receives the second operation of replica 1, after two of its own.
const LATER_OPERATION: &str =
    "trace 1\nreplicas 3\n1 read :\n1 read :\n0 read :\n0 read :\n0 recv 1 2\n";

/// Counts what it is told and asked, and lets so many tries be made.
#[derive(Clone, Copy, Debug, PartialEq, Eq)]
struct Counts {
    tries: u32,
    told: u32,
    asked: u32,
    lacking: Option<OpName>,
}

impl Waiter for Counts {
    ghost knows_of = { λ _ _. Unit {0} };

    fn recorded<R: Wait>(&mut self, _rt: &R) {
        self.told = self.told.saturating_add(1);
    }

    fn waits_for<R: Wait>(&mut self, _rt: &R, lacking: OpName, tries: u32) -> bool {
        self.asked = self.asked.saturating_add(1);
        self.lacking = Some(lacking);
        self.asked == tries && tries < self.tries
    }
}

/// A session of three replicas, and the first pass.
fn first_of_three(alloc: Global) -> Option<(Session, Pass)>
    ensures session { IfSome result (λ s. s.1.session ≡ s.0) }
    ensures new { IfSome result (λ s. mine s.1 ≡ []) }
{
    let (session, mut passes) = opened(alloc, 3).ok()?;
    let first = passes.remove(0);
    Some((session, first))
}

/// How the first replica's part of the recording is replayed with nobody else there, who waits, and how many
/// entries there are then.
fn alone<H: AllocGlobal + Wait>(
    rt: &H,
    text: &str,
    tries: u32,
) -> Option<(Result<u32, ReplayFault>, Counts, u64)> {
    let alloc = rt.alloc();
    let recording = recording(alloc, text).ok()?;
    let (session, mut first) = first_of_three(alloc)?;
    let mut counts = Counts {
        tries,
        told: 0,
        asked: 0,
        lacking: None,
    };
    let answer = session.replay_with(rt, alloc, &mut first, &recording, &mut counts);
    let count = session.count(&mut first);
    Some((answer, counts, count))
}

/// The same, made again where it finds no memory.
fn alone_with_memory<H: AllocGlobal + Wait>(
    rt: &H,
    text: &str,
    tries: u32,
) -> Option<(Result<u32, ReplayFault>, Counts, u64)> {
    match alone(rt, text, tries) {
        None => alone(rt, text, tries),
        Some(
            (
                Err(
                    ReplayFault::Refused {
                        at: _,
                        why: Refusal::Memory,
                    },
                ),
                _,
                _,
            ),
        ) => alone(rt, text, tries),
        answer => answer,
    }
}

/// Whether the replay stalls at the first replica's third entry, which lacks this operation of replica 1, and
/// the waiter was asked for that so many times.
fn asks_for<H: AllocGlobal + Wait>(rt: &H, text: &str, n: u32, tries: u32) -> bool {
    let Some((answer, counts, count)) = alone_with_memory(rt, text, tries) else {
        return false;
    };
    let wanted = Counts {
        tries,
        told: 2,
        asked: tries,
        lacking: OpName::new(1, n),
    };
    answer == Err(ReplayFault::Stalled { at: 2 }) && count == 2 && counts == wanted
}

#[test]
fn waiter_says_how_often(rt: HostRuntime) {
    for tries in 1..4 {
        assert!(rt; asks_for(&rt, THREE_WAY_CYCLE, 1, tries));
        assert!(rt; asks_for(&rt, LATER_OPERATION, 2, tries));
    }
}

#[test]
fn yields_as_often_as_told(rt: HostRuntime) {
    let lacking = OpName::new(1, 1).expect(&rt, "a name");
    for tries in 1..5 {
        let mut waiter = Yields { tries };
        for tried in 1..tries {
            assert!(rt; waiter.waits_for(&rt, lacking, tried));
        }
        assert!(rt; !waiter.waits_for(&rt, lacking, tries));
    }
}
