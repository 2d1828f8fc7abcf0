//! Which calls a gate sees, and searches that it holds up.
use super::conflicts::number_on;
use level_search::Gate;
use sample_recordings::{RING_OF_FOUR, THREE_WAY_CYCLE};
use std::alloc::Global;
use std::sync::atomic::{AtomicU64, Ordering};
use std::test::Fail;
use std::thread::Threads;

/// Counts the searches of each of four sources by two workers, begun and then ended, and calls that name
/// something else or come in another order.
#[derive(Drop)]
struct Counts {
    begun: [AtomicU64; 4],
    ended: [AtomicU64; 4],
    others: AtomicU64,
}

impl Counts {
    fn none() -> Counts {
        Counts {
            begun: four(),
            ended: four(),
            others: AtomicU64::new(0),
        }
    }
}

fn four() -> [AtomicU64; 4] {
    [
        AtomicU64::new(0),
        AtomicU64::new(0),
        AtomicU64::new(0),
        AtomicU64::new(0),
    ]
}

impl Gate for Counts {
    fn before(&self, worker: u32, source: u32) {
        match self.begun.get(source as usize) {
            Some(count) if worker < 2 => count.fetch_add(1, Ordering::SeqCst),
            _ => self.others.fetch_add(1, Ordering::SeqCst),
        };
    }

    fn after(&self, worker: u32, source: u32) {
        match (
            self.begun.get(source as usize),
            self.ended.get(source as usize),
        ) {
            (Some(begun), Some(ended)) if worker < 2 && is_less(ended, begun) => {
                ended.fetch_add(1, Ordering::SeqCst)
            }
            _ => self.others.fetch_add(1, Ordering::SeqCst),
        };
    }
}

/// Whether the one count is less than the other.
fn is_less(count: &AtomicU64, other: &AtomicU64) -> bool {
    count.load(Ordering::SeqCst) < other.load(Ordering::SeqCst)
}

/// Whether so many searches were counted of each source.
fn are(counts: &[AtomicU64; 4], expected: [u64; 4]) -> bool {
    for (source, times) in expected.iter().enumerate() {
        if counts[source].load(Ordering::SeqCst) != *times {
            return false;
        }
    }
    true
}

#[test]
fn a_gate_is_called_round_each_search(rt: HostRuntime) -> Result<(), Fail> {
    let counts = Counts::none();
    let found = number_on(&rt, rt.alloc(), RING_OF_FOUR, 2, &counts)?;
    assert_eq!(rt; found, Some(4));
    assert!(rt; are(&counts.begun, [1; 4]));
    assert!(rt; are(&counts.ended, [1; 4]));
    assert_eq!(rt; counts.others.load(Ordering::SeqCst), 0);
    Ok(())
}

/// The elements are x, a and b. Replica 0 reads a before b, and replica 1 the other way; x stands before
/// both.
const PAIR_AFTER_ANOTHER: &str =
    "trace 1\nreplicas 2\n0 ins x 0 : x\n0 ins a 1 : x a\n1 ins b 0 : b\n0 recv 1 1\n0 read : x a b\n1 recv 0 1\n1 recv 0 2\n1 read : x b a\n";

#[test]
fn a_gate_is_told_the_numbers_of_the_whole_graph(rt: HostRuntime) -> Result<(), Fail> {
    let counts = Counts::none();
    let found = number_on(&rt, rt.alloc(), PAIR_AFTER_ANOTHER, 2, &counts)?;
    assert_eq!(rt; found, Some(2));
    assert!(rt; are(&counts.begun, [0, 1, 1, 0]));
    assert!(rt; are(&counts.ended, [0, 1, 1, 0]));
    assert_eq!(rt; counts.others.load(Ordering::SeqCst), 0);
    Ok(())
}

const TURNS: u32 = 50_000_000;

/// Holds up the first search until so many have begun and so many have ended, or for `TURNS` turns, and
/// notes whether it saw them. It counts the searches that each of two workers has begun.
#[derive(Drop)]
pub struct Hold {
    until_begun: u64,
    until_ended: u64,
    begun: AtomicU64,
    ended: AtomicU64,
    seen: AtomicU64,
    by_first: AtomicU64,
    by_second: AtomicU64,
}

impl Hold {
    pub fn until(begun: u64, ended: u64) -> Hold {
        Hold {
            until_begun: begun,
            until_ended: ended,
            begun: AtomicU64::new(0),
            ended: AtomicU64::new(0),
            seen: AtomicU64::new(0),
            by_first: AtomicU64::new(0),
            by_second: AtomicU64::new(0),
        }
    }

    /// Whether the first search saw the others, and both workers have begun some.
    pub fn saw_both(&self) -> bool {
        self.seen.load(Ordering::SeqCst) == 1
            && self.by_first.load(Ordering::SeqCst) > 0
            && self.by_second.load(Ordering::SeqCst) > 0
    }

    fn is_over(&self) -> bool {
        self.begun.load(Ordering::SeqCst) >= self.until_begun
            && self.ended.load(Ordering::SeqCst) >= self.until_ended
    }
}

impl Gate for Hold {
    fn before(&self, worker: u32, _source: u32) {
        match worker {
            0 => self.by_first.fetch_add(1, Ordering::SeqCst),
            1 => self.by_second.fetch_add(1, Ordering::SeqCst),
            _ => 0,
        };
        if self.begun.fetch_add(1, Ordering::SeqCst) != 0 {
            return;
        }
        for _ in 0..TURNS {
            if self.is_over() {
                self.seen.store(1, Ordering::SeqCst);
                return;
            }
        }
    }

    fn after(&self, _worker: u32, _source: u32) {
        self.ended.fetch_add(1, Ordering::SeqCst);
    }
}

/// Whether two workers find this number while the first search is held, which sees what it waits for.
fn is_found_while_held(
    rt: &(impl Threads + Sync),
    alloc: Global,
    text: &str,
    hold: &Hold,
    number: u32,
) -> Result<bool, Fail> {
    let found = number_on(rt, alloc, text, 2, hold)?;
    Ok(found == Some(number) && hold.saw_both())
}

#[test]
fn two_searches_at_once(rt: HostRuntime) -> Result<(), Fail> {
    let hold = Hold::until(2, 0);
    assert!(rt; is_found_while_held(&rt, rt.alloc(), THREE_WAY_CYCLE, &hold, 3)?);
    Ok(())
}

#[test]
fn a_search_held_until_the_others_have_ended(rt: HostRuntime) -> Result<(), Fail> {
    let hold = Hold::until(0, 3);
    assert!(rt; is_found_while_held(&rt, rt.alloc(), RING_OF_FOUR, &hold, 4)?);
    Ok(())
}
