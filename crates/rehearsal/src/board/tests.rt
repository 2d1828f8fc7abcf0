//! That who sleeps looks again, also where nobody wakes it.
use super::Desk;
use std::sync::Wait;
use std::sync::atomic::{AtomicU64, Ordering};
use std::thread::{self, Threads};

/// How many turns are waited at most.
const TURNS: u32 = 20_000_000;

/// Waits until the word is 1, or for `TURNS` turns.
fn wait_for_one(word: &AtomicU64) {
    for _ in 0..TURNS {
        if word.load(Ordering::SeqCst) == 1 {
            return;
        }
    }
}

/// Records the first operation some time after the other thread wanted it, and tells nobody.
fn record_in_silence(desk: &Desk) {
    wait_for_one(&desk.wanted);
    wait_for_one(&desk.made);
    desk.made.store(1, Ordering::SeqCst);
}

/// Whether a sleeper sees the first operation, of which nobody told.
fn sees_it<H: Threads + Wait + Sync>(rt: &H, desk: &Desk) -> bool {
    let (_, is_there) = thread::join(rt, || record_in_silence(desk), || desk.waits_for(rt, 1));
    is_there
}

#[test]
fn who_is_not_woken_looks_again(rt: HostRuntime) {
    let desk = Desk::new();
    assert!(rt; sees_it(&rt, &desk));
    assert!(rt; desk.calls.load(Ordering::SeqCst) == 0);
}

/// Ends some time after the other thread wanted the first operation, and tells nobody.
fn end_in_silence<R: Wait>(rt: &R, desk: &Desk) {
    wait_for_one(&desk.wanted);
    wait_for_one(&desk.made);
    *desk.has_ended.lock(rt) = true;
}

#[test]
fn who_is_not_told_of_an_end_looks_again(rt: HostRuntime) {
    let desk = Desk::new();
    let (_, is_there) = thread::join(
        &rt,
        || end_in_silence(&rt, &desk),
        || desk.waits_for(&rt, 1),
    );
    assert!(rt; !is_there);
}
