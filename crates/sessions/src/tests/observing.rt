//! Observers see what is recorded, and a session waits for them.
ghost use Rattle.std.specs.Prelude.{◌≡◌};

use super::{both, comes_too_early, inserts_a, pair, receives, recorded};
use crate::{Missing, Observer, Pass, SearchFault, Session, Verdict, Verdicts};
use events::{Body, Memory, Recording, Response};
use std::alloc::Global;
use std::sync::Wait;
use std::thread::Threads;

/// A copy of all that has been recorded.
pub fn watched<R: Wait>(
    rt: &R,
    alloc: Global,
    session: &Session,
    observer: &mut Observer,
) -> Option<Recording>
    requires { observer.old.session ≡ session.now }
    ensures { observer.new.session ≡ session.now }
{
    match session.watch_snapshot(rt, alloc, observer) {
        Err(Memory) => session.watch_snapshot(rt, alloc, observer).ok(),
        Ok(seen) => Some(seen),
    }
}

/// Whether the pass and both observers see two entries.
fn see_two<R: Wait>(
    rt: &R,
    alloc: Global,
    session: &Session,
    pass: &mut Pass,
    one: &mut Observer,
    other: &mut Observer,
) -> bool
    requires pass { pass.old.session ≡ session.now }
    requires observers { (one.old.session ≡ session.now) × (other.old.session ≡ session.now) }
    ensures pass { pass.new.session ≡ session.now }
    ensures observers { (one.new.session ≡ session.now) × (other.new.session ≡ session.now) }
{
    let counted = session.count(pass) == 2 && session.watch_count(one) == 2;
    match watched(rt, alloc, session, other) {
        Some(seen) => counted && seen.len() == 2,
        None => false,
    }
}

/// Whether it accepts with the order of one element.
fn accepts_one(verdict: Option<&Verdict>) -> bool {
    match verdict {
        Some(Verdict::Accepted(order)) => order.len() == 1,
        _ => false,
    }
}

/// The verdicts of so many turns.
pub fn judged<H: Threads + Wait + Sync>(
    rt: &H,
    alloc: Global,
    session: &Session,
    observer: &mut Observer,
    turns: u32,
    workers: u32,
) -> Result<Verdicts, SearchFault>
    requires { observer.old.session ≡ session.now }
    ensures { observer.new.session ≡ session.now }
{
    match session.watch(rt, alloc, observer, turns, workers) {
        Err(SearchFault::Memory) => session.watch(rt, alloc, observer, turns, workers),
        answer => answer,
    }
}

/// Whether three turns accept, each with the order of one element.
fn accepts_thrice<H: Threads + Wait + Sync>(
    rt: &H,
    alloc: Global,
    session: &Session,
    observer: &mut Observer,
) -> bool
    requires { observer.old.session ≡ session.now }
    ensures { observer.new.session ≡ session.now }
{
    match judged(rt, alloc, session, observer, 3, 1) {
        Ok(verdicts) => {
            verdicts.len() == 3
                && accepts_one(verdicts.get(0))
                && accepts_one(verdicts.get(1))
                && accepts_one(verdicts.get(2))
        }
        Err(_) => false,
    }
}

/// Whether the session, of which these observers are out, is closed as soon as they have ended.
fn closes_without(
    alloc: Global,
    session: Session,
    first: Pass,
    second: Pass,
    one: Observer,
    other: Observer,
) -> bool
    requires passes { (first.session ≡ session) × (second.session ≡ session) }
    requires observers { (one.session ≡ session) × (other.session ≡ session) }
{
    let (mut first, mut second) = (first, second);
    session.end(one, &mut second);
    session.end(other, &mut first);
    let Some(passes) = both(alloc, &session, first, second) else {
        return false;
    };
    match session.close(passes) {
        Ok(recording) => recording.len() == 2,
        Err(_) => false,
    }
}

#[test]
fn session_of_two(rt: HostRuntime) {
    let alloc = rt.alloc();
    let (session, mut first, mut second) = pair(alloc).expect(&rt, "a session");
    assert!(rt; inserts_a(&rt, alloc, &session, &mut first) && session.count(&mut first) == 1);
    let mut one = session.observer(&mut first);
    let mut other = session.observer(&mut first);
    assert!(rt; first.made() == 2 && second.made() == 0);
    assert!(rt; comes_too_early(&rt, &session, &mut second));
    assert!(rt; receives(&rt, &session, &mut second, 1));
    assert!(rt; see_two(&rt, alloc, &session, &mut first, &mut one, &mut other));
    assert!(rt; accepts_thrice(&rt, alloc, &session, &mut other));
    assert!(rt; closes_without(alloc, session, first, second, one, other));
}

/// Whether the number of workers was refused.
fn is_refused(answer: Result<Verdicts, SearchFault>) -> bool {
    answer.err() == Some(SearchFault::Workers)
}

#[test]
fn workers_are_tested_first(rt: HostRuntime) {
    let alloc = rt.alloc();
    let (session, mut first, _) = pair(alloc).expect(&rt, "a session");
    let mut observer = session.observer(&mut first);
    assert!(rt; is_refused(judged(&rt, alloc, &session, &mut observer, 0, 0)));
    assert!(rt; is_refused(judged(&rt, alloc, &session, &mut observer, 1, 65)));
    assert!(rt; is_refused(judged(&rt, alloc, &session, &mut observer, 0, 4294967295)));
}

#[test]
fn observer_ended_elsewhere(rt: HostRuntime) {
    let alloc = rt.alloc();
    let (session, mut first, mut second) = pair(alloc).expect(&rt, "a session");
    assert!(rt; inserts_a(&rt, alloc, &session, &mut first));
    let observer = session.observer(&mut first);
    session.end(observer, &mut second);
    assert!(rt; session.count(&mut second) == 1);
    assert!(rt; comes_too_early(&rt, &session, &mut second));
    let passes = both(alloc, &session, second, first).expect(&rt, "both passes");
    let closed = session.close(passes).ok().expect(&rt, "a recording");
    assert!(rt; closed.len() == 1);
}

#[test]
fn a_session_waits_for_its_observers(rt: HostRuntime) {
    let alloc = rt.alloc();
    let (session, mut first, second) = pair(alloc).expect(&rt, "a session");
    let _observer = session.observer(&mut first);
    let passes = both(alloc, &session, first, second).expect(&rt, "both passes");
    let missing = session
        .close(passes)
        .err()
        .expect(&rt, "an observer is out");
    let Missing { session, passes } = missing;
    assert!(rt; passes.len() == 2 && session.close(passes).is_err());
}

/// Whether the pass records that its replica reads an empty document.
fn reads<R: Wait>(rt: &R, alloc: Global, session: &Session, pass: &mut Pass) -> bool
    requires { pass.old.session ≡ session.now }
    ensures session { pass.new.session ≡ session.now }
    ensures made { pass.new.made ≡ pass.old.made }
{
    let response = Response::new(alloc);
    recorded(rt, session, pass, Body::Read { response }).is_ok()
}

/// Whether a pass records after each of so many observers that it makes, the first ones of its own.
fn records_beside<R: Wait>(
    rt: &R,
    alloc: Global,
    session: &Session,
    pass: &mut Pass,
    observers: u32,
) -> bool
    requires { (pass.old.session ≡ session.now) × (pass.old.made ≡ 0) }
{
    for _ in 0..observers {
        let _observer = session.observer(pass);
        if !reads(rt, alloc, session, pass) {
            return false;
        }
    }
    pass.made() == observers
}

#[test]
fn a_pass_records_however_many_observers_it_made(rt: HostRuntime) {
    let alloc = rt.alloc();
    let (session, mut first, _) = pair(alloc).expect(&rt, "a session");
    assert!(rt; records_beside(&rt, alloc, &session, &mut first, 100));
}
