//! Passes replay a recording, and stop where an entry is refused.
ghost use Rattle.std.specs.Prelude.{◌≡◌, ◌<◌, ◌≤◌, IfSome};

use super::{copied, opened, recorded, three_way};
use crate::{Pass, ReplayFault, Session};
use events::{Body, Recording, Refusal};
use std::alloc::Global;
use std::sync::Wait;

/// A session of three replicas and its passes.
pub fn team(alloc: Global) -> Option<(Session, Pass, Pass, Pass)>
    ensures first { IfSome result (λ s. s.1.session ≡ s.0) }
    ensures others { IfSome result (λ s. (s.2.session ≡ s.0) × (s.3.session ≡ s.0)) }
{
    let (session, mut passes) = opened(alloc, 3).ok()?;
    let third = passes.pop()?;
    let second = passes.pop()?;
    let first = passes.pop()?;
    Some((session, first, second, third))
}

/// The fault of a refusal.
fn fault(at: u32, why: Refusal) -> ReplayFault {
    match why {
        Refusal::NotYet { .. } => ReplayFault::Stalled { at },
        why => ReplayFault::Refused { at, why },
    }
}

/// Records a copy of this entry of the replica's stream, and answers how many entries the replica has.
pub fn record_copy<H: AllocGlobal + Wait>(
    rt: &H,
    session: &Session,
    pass: &mut Pass,
    body: Option<&Body>,
) -> Result<u32, Refusal>
    requires { pass.old.session ≡ session.now }
    ensures { pass.new.session ≡ session.now }
{
    let Some(body) = body else {
        return Ok(0);
    };
    let Some(body) = copied(rt.alloc(), body) else {
        return Err(Refusal::Memory);
    };
    recorded(rt, session, pass, body).map_err(|refused| refused.why)
}

/// Records the rest of the replica's stream, from a place on, and answers how long the stream is.
fn resumed<H: AllocGlobal + Wait>(
    rt: &H,
    session: &Session,
    pass: &mut Pass,
    recording: &Recording,
    from: u32,
) -> Result<u32, ReplayFault>
    requires { pass.old.session ≡ session.now }
    ensures { pass.new.session ≡ session.now }
{
    let mut count = 0;
    for at in from..recording.stream_len(session.replica(pass)) {
        let body = recording.stream(session.replica(pass), at);
        match record_copy(rt, session, pass, body) {
            Ok(now) => count = now,
            Err(why) => return Err(fault(at, why)),
        }
    }
    Ok(count)
}

/// What a replay answers; where it finds no memory for an entry, it goes on from there.
pub fn replayed<H: AllocGlobal + Wait>(
    rt: &H,
    session: &Session,
    pass: &mut Pass,
    recording: &Recording,
    tries: u32,
) -> Result<u32, ReplayFault>
    requires { (pass.old.session ≡ session.now) × (1 ≤ tries) }
    ensures { pass.new.session ≡ session.now }
{
    match session.replay(rt, rt.alloc(), pass, recording, tries) {
        Err(
            ReplayFault::Refused {
                at,
                why: Refusal::Memory,
            },
        ) => resumed(rt, session, pass, recording, at),
        answer => answer,
    }
}

#[test]
fn stalled_replay(rt: HostRuntime) {
    let alloc = rt.alloc();
    let recording = three_way(alloc).expect(&rt, "a recording");
    let (session, mut first, mut second, _) = team(alloc).expect(&rt, "a session");
    let stalled = replayed(&rt, &session, &mut second, &recording, 10);
    assert!(rt; stalled == Err(ReplayFault::Stalled { at: 0 }));
    let body = recording.stream(0, 0);
    assert!(rt; record_copy(&rt, &session, &mut first, body) == Ok(1));
    assert!(rt; replayed(&rt, &session, &mut second, &recording, 10) == Ok(2));
}

#[test]
fn stalled_and_resumed(rt: HostRuntime) {
    let alloc = rt.alloc();
    let recording = three_way(alloc).expect(&rt, "a recording");
    let (session, mut first, mut second, mut third) = team(alloc).expect(&rt, "a session");
    let stalled = replayed(&rt, &session, &mut first, &recording, 3);
    assert!(rt; stalled == Err(ReplayFault::Stalled { at: 2 }) && session.count(&mut first) == 2);
    assert!(rt; replayed(&rt, &session, &mut second, &recording, 3) == Ok(2));
    assert!(rt; replayed(&rt, &session, &mut third, &recording, 1) == Ok(2));
    let receipt = recording.stream(0, 2);
    assert!(rt; record_copy(&rt, &session, &mut first, receipt) == Ok(3));
    assert!(rt; resumed(&rt, &session, &mut first, &recording, 3) == Ok(5));
    assert!(rt; session.count(&mut second) == 9);
}

#[test]
fn receipt_out_of_range(rt: HostRuntime) {
    let alloc = rt.alloc();
    let recording = three_way(alloc).expect(&rt, "a recording");
    let (session, mut passes) = opened(alloc, 1).expect(&rt, "a session");
    let mut pass = passes.pop().expect(&rt, "the pass");
    let why = Refusal::NoReplica;
    let refused = replayed(&rt, &session, &mut pass, &recording, 1);
    assert!(rt; refused == Err(ReplayFault::Refused { at: 2, why }));
    assert!(rt; session.count(&mut pass) == 2);
}
