//! Passes record, and see what others recorded.
ghost use Rattle.std.specs.Prelude.{◌≡◌};

use super::{comes_too_early, inserts_a, is_insert_of_a, opened, pair, receives, snapped};
use crate::{Pass, Session};
use events::NewFault;
use std::alloc::Global;
use std::sync::Wait;

/// Sessions that can't be opened.
static NO_SESSIONS: [(u32, NewFault); 3] = [
    (0, NewFault::NoReplicas),
    (17, NewFault::ManyReplicas),
    (4294967295, NewFault::ManyReplicas),
];

#[test]
fn sessions_have_1_to_16_replicas(rt: HostRuntime) {
    for (replicas, fault) in NO_SESSIONS.iter().copied() {
        assert!(rt; opened(rt.alloc(), replicas).err() == Some(fault));
    }
    let (_, passes) = opened(rt.alloc(), 16).expect(&rt, "a session");
    assert!(rt; passes.len() == 16);
}

/// Whether a snapshot of the pass has the insert of a as the last entry of replica 0, and so many entries.
fn shows_a<R: Wait>(rt: &R, alloc: Global, session: &Session, pass: &mut Pass, entries: u32) -> bool
    requires { pass.old.session ≡ session.now }
    ensures { pass.new.session ≡ session.now }
{
    match snapped(rt, alloc, session, pass) {
        Some(seen) => {
            seen.replicas() == 2
                && seen.len() == entries
                && seen.stream_len(0) == 1
                && is_insert_of_a(seen.stream(0, 0))
        }
        None => false,
    }
}

#[test]
fn two_passes(rt: HostRuntime) {
    let alloc = rt.alloc();
    let (session, mut first, mut second) = pair(alloc).expect(&rt, "a session");
    assert!(rt; session.replica(&first) == 0 && session.replica(&second) == 1);
    assert!(rt; inserts_a(&rt, alloc, &session, &mut first));
    assert!(rt; shows_a(&rt, alloc, &session, &mut first, 1));
    // What is there and what isn't, nobody told the second pass.
    assert!(rt; comes_too_early(&rt, &session, &mut second));
    assert!(rt; receives(&rt, &session, &mut second, 1));
    assert!(rt; shows_a(&rt, alloc, &session, &mut first, 2));
}
