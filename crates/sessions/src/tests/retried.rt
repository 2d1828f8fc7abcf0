//! A replay beside a thread that records what it waits for.
ghost use Rattle.std.specs.Prelude.{◌≡◌, ◌≤◌};
ghost use Rattle.std.specs.Thread.{IsSync};

use super::replayed::{record_copy, replayed, team};
use super::three_way;
use crate::{Pass, ReplayFault, Session};
use events::Recording;
use std::sync::Wait;
use std::sync::atomic::{AtomicU64, Ordering};
use std::thread::{self, Threads};

/// How many turns one thread waits for the other at most.
const TURNS: u32 = 50_000_000;

/// For how many turns the replay has nothing to receive.
const MORE: u32 = 1_000_000;

/// How often it is tried.
const TIMES: u32 = 20;

/// Whether each of two threads is there.
#[derive(Drop)]
struct Meeting {
    recorder: AtomicU64,
    replayer: AtomicU64,
}

/// Says that one thread is there, and waits for the other. Answers whether it came.
fn meets(one: &AtomicU64, other: &AtomicU64) -> bool {
    one.store(1, Ordering::SeqCst);
    for _ in 0..TURNS {
        if other.load(Ordering::SeqCst) == 1 {
            return true;
        }
    }
    false
}

/// Records the first entry of replica 0, some time after the other thread came. Answers whether that was
/// recorded.
fn records_late<H: AllocGlobal + Wait>(
    rt: &H,
    session: &Session,
    first: Pass,
    recording: &Recording,
    meeting: &Meeting,
) -> bool
    requires { first.session ≡ session.now }
{
    let mut first = first;
    if meets(&meeting.recorder, &meeting.replayer) {
        for _ in 0..MORE {
            if meeting.replayer.load(Ordering::SeqCst) != 1 {
                break;
            }
        }
    }
    record_copy(rt, session, &mut first, recording.stream(0, 0)) == Ok(1)
}

/// Replays the stream of replica 1, which begins with a receipt of that entry; none where the other thread
/// doesn't come.
fn replays<H: AllocGlobal + Wait>(
    rt: &H,
    session: &Session,
    second: Pass,
    recording: &Recording,
    meeting: &Meeting,
) -> Option<Result<u32, ReplayFault>>
    requires { second.session ≡ session.now }
{
    let mut second = second;
    if !meets(&meeting.replayer, &meeting.recorder) {
        return None;
    }
    Some(replayed(rt, session, &mut second, recording, u32::MAX))
}

/// What the replay answers beside the recorder; none where they don't meet.
fn both_act<H: AllocGlobal + Threads + Wait + Sync>(
    rt: &H,
    session: &Session,
    first: Pass,
    second: Pass,
    recording: &Recording,
    meeting: &Meeting,
) -> Option<Result<u32, ReplayFault>>
    requires { (first.session ≡ session.now) × (second.session ≡ session.now) }
{
    let (_, answer) = thread::join(
        rt,
        || -> bool
            requires { IsSync H.row × (first.session ≡ session.now) }
        { records_late(rt, session, first, recording, meeting) },
        || -> Option<Result<u32, ReplayFault>>
            requires { IsSync H.row × (second.session ≡ session.now) }
        { replays(rt, session, second, recording, meeting) },
    );
    answer
}

/// The same in a session of its own; none also where memory runs out.
fn replayed_beside<H: AllocGlobal + Threads + Wait + Sync>(
    rt: &H,
) -> Option<Result<u32, ReplayFault>> {
    let recording = three_way(rt.alloc())?;
    let (session, first, second, _) = team(rt.alloc())?;
    let meeting = Meeting {
        recorder: AtomicU64::new(0),
        replayer: AtomicU64::new(0),
    };
    both_act(rt, &session, first, second, &recording, &meeting)
}

#[test]
fn a_replay_tries_again_until_what_it_waits_for_has_come(rt: HostRuntime) {
    for _ in 0..TIMES {
        let answer = match replayed_beside(&rt) {
            None => replayed_beside(&rt),
            answer => answer,
        };
        assert!(rt; answer == Some(Ok(2)));
    }
}
