//! The gate of a live session.

use crate::{Lived, live};
use byte_streams::{Sink, Source};
use engines::{RunFault, Status};
use std::alloc::Global;
use std::sync::Wait;
use std::sync::atomic::{AtomicU64, Ordering};
use std::thread::Threads;
use verdict::Gate;

/// The three-way cycle, with three searches at its end.
const TRACE: &str =
    "trace 1\nreplicas 3\n0 ins x 0 : x\n1 recv 0 1\n2 recv 0 1\n1 ins a 0 : a x\n2 ins b 1 : x b\n0 del x :\n0 recv 1 1\n0 recv 2 1\n0 read : b a\n";

/// Counts the replays of each of three replicas, begun and then ended, and calls that name something else or
/// come in another order.
#[derive(Drop)]
struct Counts {
    begun: [AtomicU64; 3],
    ended: [AtomicU64; 3],
    others: AtomicU64,
}

impl Counts {
    fn none() -> Counts {
        Counts {
            begun: three(),
            ended: three(),
            others: AtomicU64::new(0),
        }
    }

    /// Whether just one replay of each replica was begun and ended.
    fn are_one_each(&self) -> bool {
        is_one_each(&self.begun)
            && is_one_each(&self.ended)
            && self.others.load(Ordering::SeqCst) == 0
    }
}

fn three() -> [AtomicU64; 3] {
    [AtomicU64::new(0), AtomicU64::new(0), AtomicU64::new(0)]
}

fn is_one_each(counts: &[AtomicU64; 3]) -> bool {
    for count in counts.iter() {
        if count.load(Ordering::SeqCst) != 1 {
            return false;
        }
    }
    true
}

/// Whether the one count is less than the other.
fn is_less(count: &AtomicU64, other: &AtomicU64) -> bool {
    count.load(Ordering::SeqCst) < other.load(Ordering::SeqCst)
}

impl Gate for Counts {
    fn before(&self, replica: u32, source: u32) {
        match self.begun.get(replica as usize) {
            Some(count) if source == 0 => count.fetch_add(1, Ordering::SeqCst),
            _ => self.others.fetch_add(1, Ordering::SeqCst),
        };
    }

    fn after(&self, replica: u32, source: u32) {
        match (
            self.begun.get(replica as usize),
            self.ended.get(replica as usize),
        ) {
            (Some(begun), Some(ended)) if source == 0 && is_less(ended, begun) => {
                ended.fetch_add(1, Ordering::SeqCst)
            }
            _ => self.others.fetch_add(1, Ordering::SeqCst),
        };
    }
}

/// What a live session of the trace answers, and the calls of its gate.
fn counted<H: Threads + Wait + Sync>(rt: &H, alloc: Global) -> (Result<Lived, RunFault>, Counts) {
    let counts = Counts::none();
    let mut report = Vec::new(alloc);
    let mut source = Source::new(TRACE.as_bytes());
    let answer = live(
        rt,
        alloc,
        &mut source,
        &mut Sink::new(&mut report),
        2,
        &counts,
    );
    (answer, counts)
}

/// Whether it was judged four times, and refused in the end.
fn has_refused(answer: &Result<Lived, RunFault>) -> bool {
    match answer {
        Ok(lived) => lived.status == Status::Bad && lived.verdicts.len() == 4,
        Err(_) => false,
    }
}

#[test]
fn the_gate_of_a_live_session_is_called_round_each_replay(rt: HostRuntime) {
    let alloc = rt.alloc();
    // Where memory or a thread is missing, it is tried again.
    let (answer, counts) = match counted(&rt, alloc) {
        (Err(RunFault::Memory | RunFault::Thread), _) => counted(&rt, alloc),
        counted => counted,
    };
    assert!(rt; has_refused(&answer) && counts.are_one_each());
}
