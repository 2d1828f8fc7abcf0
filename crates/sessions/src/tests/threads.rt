//! Many threads record, and others look on.
ghost use Rattle.std.specs.Prelude.{◌≡◌, ◌<◌, ◌+◌, ◌^◌, All};
ghost use Rattle.std.specs.Thread.{IsSync};

use super::observing::watched;
use super::{opened, recorded, snapped};
use crate::{Observer, Pass, Session};
use events::{Body, Recording, Response};
use std::alloc::Global;
use std::sync::Wait;
use std::sync::atomic::{AtomicU64, Ordering};
use std::thread::{self, Threads};

/// Whether a read is answered as the replica's next entry, and every hundredth time a snapshot has so
/// many of them.
fn records_next<R: Wait>(
    rt: &R,
    alloc: Global,
    session: &Session,
    pass: &mut Pass,
    next: u32,
) -> bool
    requires { pass.old.session ≡ session.now }
    ensures { pass.new.session ≡ session.now }
{
    let response = Response::new(alloc);
    if recorded(rt, session, pass, Body::Read { response }).ok() != Some(next) {
        return false;
    }
    if next % 100 != 0 {
        return true;
    }
    match snapped(rt, alloc, session, pass) {
        Some(seen) => seen.stream_len(session.replica(pass)) == next,
        None => false,
    }
}

/// Whether so many reads are answered in order.
fn records<R: Wait>(rt: &R, alloc: Global, session: &Session, pass: &mut Pass, times: u32) -> bool
    requires { pass.old.session ≡ session.now }
    ensures { pass.new.session ≡ session.now }
{
    for i in 0..times {
        if !records_next(rt, alloc, session, pass, i + 1) {
            return false;
        }
    }
    true
}

/// Each pass records so many reads, in a thread of its own; it counts the passes that were answered
/// otherwise.
fn all_record<H: Threads + Wait + Sync>(
    rt: &H,
    alloc: Global,
    session: &Session,
    passes: Vec<Pass>,
    times: u32,
    wrong: &AtomicU64,
) -> Vec<Pass>
    requires { All (λ p. p.session ≡ session.now) passes.items }
    ensures { All (λ p. p.session ≡ session.now) result.items }
{
    let mut passes = passes;
    thread::for_each_mut(
        rt,
        passes.as_mut_slice(),
        16,
        &|_: usize, pass: &mut Pass|
            requires { pass.old.session ≡ session.now }
            ensures { pass.new.session ≡ session.entry.now }
        {
            if !records(rt, alloc, session, pass, times) {
                wrong.fetch_add(1, Ordering::SeqCst);
            }
        },
    );
    passes
}

/// Whether a snapshot has as many entries as were counted after it, or fewer, and no fewer than were counted
/// before.
fn is_between(seen: Option<Recording>, before: u64, after: u64) -> bool {
    match seen {
        Some(seen) => {
            let entries = u64::from(seen.len());
            before <= entries && entries <= after
        }
        None => false,
    }
}

/// An observer looks on until all entries are there, at most so many times; it counts what was answered
/// otherwise.
fn looks_on<R: Wait>(
    rt: &R,
    alloc: Global,
    session: &Session,
    observer: Observer,
    entries: u64,
    wrong: &AtomicU64,
) -> Observer
    requires { observer.session ≡ session.now }
    ensures { result.session ≡ session.now }
{
    let mut observer = observer;
    for _ in 0..100_000 {
        let before = session.watch_count(&mut observer);
        let seen = watched(rt, alloc, session, &mut observer);
        if !is_between(seen, before, session.watch_count(&mut observer)) {
            wrong.fetch_add(1, Ordering::SeqCst);
        }
        if before >= entries {
            break;
        }
        thread::yield_now();
    }
    observer
}

/// All passes record while an observer looks on; both come back.
fn record_and_look_on<H: Threads + Wait + Sync>(
    rt: &H,
    alloc: Global,
    session: &Session,
    passes: Vec<Pass>,
    observer: Observer,
    times: u32,
    entries: u32,
    wrong: &AtomicU64,
) -> (Vec<Pass>, Observer)
    requires passes { All (λ p. p.session ≡ session.now) passes.items }
    requires observer { observer.session ≡ session.now }
    ensures passes { All (λ p. p.session ≡ session.now) result.0.items }
    ensures observer { result.1.session ≡ session.now }
{
    thread::join(
        rt,
        || -> Vec<Pass>
            requires { IsSync H.row × All (λ p. p.session ≡ session.now) passes.items }
            ensures { All (λ p. p.session ≡ session.entry.now) result.items }
        { all_record(rt, alloc, session, passes, times, wrong) },
        || -> Observer
            requires { IsSync H.row × (observer.session ≡ session.now) }
            ensures { result.session ≡ session.entry.now }
        { looks_on(rt, alloc, session, observer, u64::from(entries), wrong) },
    )
}

/// Whether each replica has so many entries.
fn have_each(recording: &Recording, times: u32) -> bool {
    for replica in 0..recording.replicas() {
        if recording.stream_len(replica) != times {
            return false;
        }
    }
    true
}

/// The recording of a session in which each pass has recorded so many reads, and whether all answers were
/// right.
fn recorded_by_all<H: Threads + Wait + Sync>(
    rt: &H,
    alloc: Global,
    replicas: u32,
    times: u32,
    entries: u32,
) -> Option<(Recording, bool)> {
    let (session, passes) = opened(alloc, replicas).ok()?;
    let mut passes = passes;
    let first = passes.get_mut(0)?;
    let observer = session.observer(first);
    let wrong = AtomicU64::new(0);
    let (passes, observer) = record_and_look_on(
        rt, alloc, &session, passes, observer, times, entries, &wrong,
    );
    let mut passes = passes;
    session.end(observer, passes.get_mut(0)?);
    let recording = session.close(passes).ok()?;
    Some((recording, wrong.load(Ordering::SeqCst) == 0))
}

/// Replicas, how many entries each of them records, and all of them.
static RUNS: [(u32, u32, u32); 2] = [(3, 1000, 3000), (16, 625, 10000)];

#[test]
fn many_recorders(rt: HostRuntime) {
    for (replicas, times, entries) in RUNS.iter().copied() {
        let answer = recorded_by_all(&rt, rt.alloc(), replicas, times, entries);
        let (recording, right) = answer.expect(&rt, "a recording");
        assert!(rt; right && recording.len() == entries);
        assert!(rt; have_each(&recording, times));
    }
}
