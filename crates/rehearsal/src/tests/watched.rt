//! That the watcher judges what the recorders record, while they do.
use crate::rehearse_watched;
use events::{Body, Entry, Name, Recording, Response};
use level_search::NoGate;
use std::alloc::Global;
use std::sync::Wait;
use std::thread::Threads;
use verdict::Verdict;

/// How often the recording is rehearsed at most.
const TIMES: u32 = 400;

/// A response of this one name.
fn response_of(alloc: Global, name: Name) -> Option<Response> {
    let mut response = Response::new(alloc);
    response.push(name).ok()?;
    Some(response)
}

/// Records that a replica inserts a name into its empty document.
fn insert(alloc: Global, recording: &mut Recording, replica: u32, name: Name) -> Option<u32> {
    let body = Body::Ins {
        name,
        at: 0,
        response: response_of(alloc, name)?,
    };
    recording.record(Entry { replica, body }).ok()
}

/// Records that a replica reads this name.
fn read(alloc: Global, recording: &mut Recording, replica: u32, name: Name) -> Option<u32> {
    let response = response_of(alloc, name)?;
    let body = Body::Read { response };
    recording.record(Entry { replica, body }).ok()
}

/// A recording in which each of two replicas inserts a name, and then reads it so many times.
fn readers(alloc: Global, reads: u32) -> Option<Recording> {
    let mut recording = Recording::new(alloc, 2).ok()?;
    for (replica, text) in [(0, "a"), (1, "b")] {
        let name = Name::new(text.as_bytes()).ok()?;
        insert(alloc, &mut recording, replica, name)?;
        for _ in 0..reads {
            read(alloc, &mut recording, replica, name)?;
        }
    }
    Some(recording)
}

/// Whether the verdict is on an entry at least: each recorder begins with an insert, so it orders an element.
fn is_on_an_entry(verdict: &Verdict) -> bool {
    match verdict {
        Verdict::Accepted(order) => order.len() > 0,
        _ => false,
    }
}

/// Whether the watcher judges a snapshot with an entry in one of many rehearsals.
fn judges_an_entry<H: Threads + Wait + Sync>(rt: &H, alloc: Global, recording: &Recording) -> bool {
    for _ in 0..TIMES {
        if let Ok(rehearsed) = rehearse_watched(rt, alloc, recording, 1, &NoGate)
            && rehearsed.verdicts.items().iter().any(is_on_an_entry)
        {
            return true;
        }
    }
    false
}

#[test]
fn snapshots_with_entries_are_judged(rt: HostRuntime) {
    let alloc = rt.alloc();
    let recording = match readers(alloc, 1000) {
        None => readers(alloc, 1000),
        made => made,
    };
    let recording = recording.expect(&rt, "a recording");
    assert!(rt; judges_an_entry(&rt, alloc, &recording));
}
