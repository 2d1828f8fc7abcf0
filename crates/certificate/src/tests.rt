//! Tests of verdicts on worked recordings.

mod certificates;
mod listed;
mod views;

use super::{Gate, NoGate, SearchFault, Verdict, judge};
use events::Recording;
use sample_recordings::{EMPTY, OPPOSITE_PAIR, READ_THE_OTHER_WAY, THREE_WAY_CYCLE, recording};
use std::alloc::Global;
use std::sync::atomic::{AtomicU64, Ordering};
use std::thread::Threads;

/// What a test looks at of a verdict.
#[derive(Clone, Copy, PartialEq, Eq)]
enum Said {
    Faulty,
    Accepted(usize),
    Refused(u32, usize),
    Workers,
    Memory,
    NoText,
}

fn in_short(verdict: Result<Verdict, SearchFault>) -> Said {
    match verdict {
        Ok(Verdict::Accepted(order)) => Said::Accepted(order.len()),
        Ok(Verdict::Refused { k, steps }) => Said::Refused(k, steps.len()),
        Ok(_) => Said::Faulty,
        Err(SearchFault::Workers) => Said::Workers,
        Err(SearchFault::Memory) => Said::Memory,
    }
}

/// What is said of a recording; where memory is wanted, what the second call says.
fn said_of<H: Threads + Sync, G: Gate>(
    rt: &H,
    alloc: Global,
    recording: &Recording,
    workers: u32,
    gate: &G,
) -> Said {
    match in_short(judge(rt, alloc, recording, workers, gate)) {
        Said::Memory => in_short(judge(rt, alloc, recording, workers, gate)),
        answer => answer,
    }
}

/// What is said of the recording that the text spells.
fn answered<H: Threads + Sync, G: Gate>(
    rt: &H,
    alloc: Global,
    text: &str,
    workers: u32,
    gate: &G,
) -> Said {
    let Ok(recording) = recording(alloc, text) else {
        return Said::NoText;
    };
    said_of(rt, alloc, &recording, workers, gate)
}

/// What is said of texts by four workers.
static ROWS: [(&str, Said); 5] = [
    (THREE_WAY_CYCLE, Said::Refused(3, 3)),
    (OPPOSITE_PAIR, Said::Refused(2, 2)),
    (READ_THE_OTHER_WAY, Said::Accepted(2)),
    (EMPTY, Said::Accepted(0)),
    ("trace 1\nreplicas 1\n0 read : a\n", Said::Faulty),
];

#[test]
fn verdicts_of_worked_recordings(rt: HostRuntime) {
    for (text, wanted) in ROWS.iter().copied() {
        let said = answered(&rt, rt.alloc(), text, 4, &NoGate);
        assert!(rt; said == wanted, "at {text}");
    }
}

#[test]
fn any_number_of_workers(rt: HostRuntime) {
    for workers in [1, 2, 7, 64] {
        let said = answered(&rt, rt.alloc(), THREE_WAY_CYCLE, workers, &NoGate);
        assert!(rt; said == Said::Refused(3, 3), "{workers}");
    }
}

#[test]
fn workers_out_of_range(rt: HostRuntime) {
    for workers in [0, 65, 4294967295] {
        let said = answered(&rt, rt.alloc(), THREE_WAY_CYCLE, workers, &NoGate);
        assert!(rt; said == Said::Workers, "{workers}");
    }
}

/// How many turns a search is held up at most.
const TURNS: u32 = 50_000_000;

/// Holds up the search that begins first until another has begun, and notes whether one did.
#[derive(Drop)]
struct Hold {
    begun: AtomicU64,
    ended: AtomicU64,
    seen: AtomicU64,
}

impl Hold {
    fn new() -> Hold {
        Hold {
            begun: AtomicU64::new(0),
            ended: AtomicU64::new(0),
            seen: AtomicU64::new(0),
        }
    }

    /// Whether it held up three searches: the first saw another beside it, and all have ended. Where memory
    /// was wanted after them, they were made again.
    fn saw_three(&self) -> bool {
        let ended = self.ended.load(Ordering::SeqCst);
        self.seen.load(Ordering::SeqCst) == 1 && (ended == 3 || ended == 6)
    }
}

impl Gate for Hold {
    fn before(&self, _worker: u32, _source: u32) {
        if self.begun.fetch_add(1, Ordering::SeqCst) != 0 {
            return;
        }
        for _ in 0..TURNS {
            if self.begun.load(Ordering::SeqCst) >= 2 {
                self.seen.store(1, Ordering::SeqCst);
                return;
            }
        }
    }

    fn after(&self, _worker: u32, _source: u32) {
        self.ended.fetch_add(1, Ordering::SeqCst);
    }
}

#[test]
fn two_searches_at_once(rt: HostRuntime) {
    let hold = Hold::new();
    let answer = answered(&rt, rt.alloc(), THREE_WAY_CYCLE, 2, &hold);
    assert!(rt; answer == Said::Refused(3, 3));
    assert!(rt; hold.saw_three());
}
