//! What no clause says: that recorders run beside one another, that they wake each other, and that the gate
//! is called round each replay.
mod watched;

use super::{RehearsalFault, rehearse};
use events::{Body, Entry, OpName, Recording, Response};
use level_search::{Gate, NoGate};
use sample_recordings::{EMPTY, RING_OF_FOUR, THREE_WAY_CYCLE, recording};
use std::alloc::Global;
use std::sync::Wait;
use std::sync::atomic::{AtomicU64, Ordering};
use std::test::Fail;
use std::thread::Threads;

/// How many turns a gate waits at most.
const TURNS: u32 = 50_000_000;

/// Holds up the first replay until another has begun, or for `TURNS` turns, and notes whether one did; and
/// how many replays have begun and ended, and calls that name another source than 0.
#[derive(Drop)]
struct Hold {
    begun: AtomicU64,
    ended: AtomicU64,
    met: AtomicU64,
    others: AtomicU64,
}

impl Hold {
    fn new() -> Hold {
        Hold {
            begun: AtomicU64::new(0),
            ended: AtomicU64::new(0),
            met: AtomicU64::new(0),
            others: AtomicU64::new(0),
        }
    }

    /// Waits until another replay has begun.
    fn wait(&self) {
        for _ in 0..TURNS {
            if self.begun.load(Ordering::SeqCst) > 1 {
                self.met.fetch_add(1, Ordering::SeqCst);
                return;
            }
        }
    }

    fn note(&self, source: u32) {
        if source != 0 {
            self.others.fetch_add(1, Ordering::SeqCst);
        }
    }
}

impl Gate for Hold {
    fn before(&self, _worker: u32, source: u32) {
        self.note(source);
        if self.begun.fetch_add(1, Ordering::SeqCst) == 0 {
            self.wait();
        }
    }

    fn after(&self, _worker: u32, source: u32) {
        self.note(source);
        self.ended.fetch_add(1, Ordering::SeqCst);
    }
}

/// What a rehearsal answers; where the first finds no memory or no thread, what the second does.
fn rehearsed<H: Threads + Wait + Sync, G: Gate>(
    rt: &H,
    alloc: Global,
    recording: &Recording,
    workers: u32,
    gate: &G,
) -> Result<Recording, RehearsalFault> {
    match rehearse(rt, alloc, recording, workers, gate) {
        Err(RehearsalFault::Memory | RehearsalFault::Thread) => {
            rehearse(rt, alloc, recording, workers, gate)
        }
        answer => answer,
    }
}

/// Whether two recordings have the same counts in each replica's stream.
fn have_alike(one: &Recording, other: &Recording) -> bool {
    for r in 0..one.replicas() {
        if one.stream_len(r) != other.stream_len(r) || one.count(r) != other.count(r) {
            return false;
        }
    }
    one.replicas() == other.replicas() && one.len() == other.len()
}

#[test]
fn two_recorders_run_at_once(rt: HostRuntime) -> Result<(), Fail> {
    let alloc = rt.alloc();
    let recording = recording(alloc, THREE_WAY_CYCLE)?;
    let hold = Hold::new();
    let closed = rehearse(&rt, alloc, &recording, 2, &hold);
    assert!(rt; closed.is_ok());
    assert!(rt; hold.met.load(Ordering::SeqCst) == 1);
    assert!(rt; hold.begun.load(Ordering::SeqCst) == 3 && hold.ended.load(Ordering::SeqCst) == 3);
    assert!(rt; hold.others.load(Ordering::SeqCst) == 0);
    Ok(())
}

#[test]
fn what_is_closed_has_the_streams(rt: HostRuntime) -> Result<(), Fail> {
    let alloc = rt.alloc();
    let recording = recording(alloc, THREE_WAY_CYCLE)?;
    let closed = rehearsed(&rt, alloc, &recording, 1, &NoGate)?;
    assert!(rt; have_alike(&recording, &closed));
    Ok(())
}

#[test]
fn workers_are_1_to_64(rt: HostRuntime) -> Result<(), Fail> {
    let alloc = rt.alloc();
    let recording = recording(alloc, EMPTY)?;
    for workers in [0, 65, u32::MAX] {
        assert!(rt;
            rehearse(&rt, alloc, &recording, workers, &NoGate).err()
                == Some(RehearsalFault::Workers)
        );
    }
    assert!(rt; rehearsed(&rt, alloc, &recording, 64, &NoGate).is_ok());
    Ok(())
}

/// The replays that a gate holds up: that of the first until that of the second has begun, or for `TURNS`
/// turns.
#[derive(Drop)]
struct HoldOne {
    first: u32,
    second: u32,
    has_begun: AtomicU64,
}

impl Gate for HoldOne {
    fn before(&self, replica: u32, _source: u32) {
        if replica == self.second {
            self.has_begun.store(1, Ordering::SeqCst);
        }
        if replica == self.first {
            for _ in 0..TURNS {
                if self.has_begun.load(Ordering::SeqCst) == 1 {
                    return;
                }
            }
        }
    }

    fn after(&self, _replica: u32, _source: u32) {}
}

/// A recording in which each replica reads so many times, once the replica before it has.
fn chain(alloc: Global, replicas: u32, reads: u32) -> Option<Recording> {
    let mut recording = Recording::new(alloc, replicas).ok()?;
    for replica in 0..replicas {
        if replica > 0 {
            let seen = OpName::new(replica - 1, reads)?;
            let body = Body::Recv { seen };
            recording.record(Entry { replica, body }).ok()?;
        }
        for _ in 0..reads {
            let response = Response::new(alloc);
            let body = Body::Read { response };
            recording.record(Entry { replica, body }).ok()?;
        }
    }
    Some(recording)
}

/// A recording in which two replicas read in turn, so often, each once the other has.
fn in_turn(alloc: Global, reads: u32) -> Option<Recording> {
    let mut recording = Recording::new(alloc, 2).ok()?;
    for n in 0..reads {
        for replica in 0..2 {
            if n > 0 || replica > 0 {
                let seen = OpName::new(1 - replica, if replica == 0 { n } else { n + 1 })?;
                let body = Body::Recv { seen };
                recording.record(Entry { replica, body }).ok()?;
            }
            let response = Response::new(alloc);
            let body = Body::Read { response };
            recording.record(Entry { replica, body }).ok()?;
        }
    }
    Some(recording)
}

/// Whether so many rehearsals of a recording answer one with the same counts.
fn all_alike<H: Threads + Wait + Sync>(
    rt: &H,
    alloc: Global,
    recording: &Recording,
    times: u32,
) -> bool {
    for _ in 0..times {
        match rehearsed(rt, alloc, recording, 1, &NoGate) {
            Ok(closed) if have_alike(recording, &closed) => {}
            _ => return false,
        }
    }
    true
}

/// The chain, made again where it finds no memory.
fn chain_of(alloc: Global, replicas: u32, reads: u32) -> Option<Recording> {
    match chain(alloc, replicas, reads) {
        None => chain(alloc, replicas, reads),
        made => made,
    }
}

/// The readers in turn, made again where they find no memory.
fn readers_in_turn(alloc: Global, reads: u32) -> Option<Recording> {
    match in_turn(alloc, reads) {
        None => in_turn(alloc, reads),
        made => made,
    }
}

#[test]
fn each_waits_for_the_one_before(rt: HostRuntime) {
    let alloc = rt.alloc();
    let few = chain_of(alloc, 16, 3).expect(&rt, "a recording");
    assert!(rt; all_alike(&rt, alloc, &few, 100));
    let many = chain_of(alloc, 16, 300).expect(&rt, "a recording");
    assert!(rt; all_alike(&rt, alloc, &many, 3));
}

#[test]
fn two_wake_each_other(rt: HostRuntime) {
    let alloc = rt.alloc();
    let turns = readers_in_turn(alloc, 2000).expect(&rt, "a recording");
    assert!(rt; all_alike(&rt, alloc, &turns, 10));
}

#[test]
fn any_two_held_up(rt: HostRuntime) -> Result<(), Fail> {
    let alloc = rt.alloc();
    let ring = recording(alloc, RING_OF_FOUR)?;
    for first in 0..6 {
        for second in 0..6 {
            let gate = HoldOne {
                first,
                second,
                has_begun: AtomicU64::new(0),
            };
            let closed = rehearsed(&rt, alloc, &ring, 1, &gate)?;
            assert!(rt; have_alike(&ring, &closed));
        }
    }
    Ok(())
}

/// Holds replica 0 up for `TURNS` turns, so that others sleep before it records.
#[derive(Drop)]
struct HoldFirst {
    never: AtomicU64,
}

impl Gate for HoldFirst {
    fn before(&self, replica: u32, _source: u32) {
        if replica == 0 {
            for _ in 0..TURNS {
                if self.never.load(Ordering::SeqCst) == 1 {
                    return;
                }
            }
        }
    }

    fn after(&self, _replica: u32, _source: u32) {}
}

/// Records a receipt of an operation and then a read.
fn receive_and_read(
    alloc: Global,
    recording: &mut Recording,
    replica: u32,
    from: u32,
    n: u32,
) -> Option<u32> {
    let seen = OpName::new(from, n)?;
    let body = Body::Recv { seen };
    recording.record(Entry { replica, body }).ok()?;
    let response = Response::new(alloc);
    let body = Body::Read { response };
    recording.record(Entry { replica, body }).ok()
}

/// A recording in which one replica waits for the first operation of replica 0, another for the second, and
/// replica 0 in between for the first of the one.
fn two_wait(alloc: Global, one: u32, other: u32) -> Option<Recording> {
    let mut recording = Recording::new(alloc, 3).ok()?;
    let response = Response::new(alloc);
    let body = Body::Read { response };
    recording.record(Entry { replica: 0, body }).ok()?;
    receive_and_read(alloc, &mut recording, one, 0, 1)?;
    receive_and_read(alloc, &mut recording, 0, one, 1)?;
    receive_and_read(alloc, &mut recording, other, 0, 2)?;
    Some(recording)
}

/// The same, made again where it finds no memory.
fn two_wait_for_one(alloc: Global, one: u32, other: u32) -> Option<Recording> {
    match two_wait(alloc, one, other) {
        None => two_wait(alloc, one, other),
        made => made,
    }
}

#[test]
fn two_sleep_for_different_operations_of_one(rt: HostRuntime) -> Result<(), Fail> {
    let alloc = rt.alloc();
    let gate = HoldFirst {
        never: AtomicU64::new(0),
    };
    for (one, other) in [(1, 2), (2, 1), (1, 2), (2, 1)] {
        let recording = two_wait_for_one(alloc, one, other).expect(&rt, "a recording");
        let closed = rehearsed(&rt, alloc, &recording, 1, &gate)?;
        assert!(rt; have_alike(&recording, &closed));
    }
    Ok(())
}
