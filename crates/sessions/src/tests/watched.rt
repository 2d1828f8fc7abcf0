//! An observer's verdicts follow what is recorded.
ghost use Rattle.std.specs.Prelude.{◌≡◌, All};

use super::observing::judged;
use super::replayed::record_copy;
use super::{opened, three_way};
use crate::{Pass, SearchFault, Session, Verdict, Verdicts};
use events::Recording;
use std::ops::Range;
use std::sync::Wait;
use verdict::Order;

/// Whether the entries at these places are recorded in their order, each by its replica's pass.
fn hand_in<H: AllocGlobal + Wait>(
    rt: &H,
    session: &Session,
    passes: &mut [Pass],
    recording: &Recording,
    places: Range<u32>,
) -> bool
    requires { All (λ p. p.session ≡ session.now) passes.old }
    ensures { All (λ p. p.session ≡ session.now) passes.new }
{
    for i in places {
        let Some(entry) = recording.entry(i) else {
            return false;
        };
        let replica = entry.replica as usize;
        if replica >= passes.len() {
            return false;
        }
        if record_copy(rt, session, &mut passes[replica], Some(&entry.body)).is_err() {
            return false;
        }
    }
    true
}

/// Whether the order is this one.
fn is_order(order: &Order, names: [&str; 3]) -> bool {
    for (i, name) in names.iter().enumerate() {
        match order.get(i) {
            Some(there) => {
                if there.bytes() != name.as_bytes() {
                    return false;
                }
            }
            None => return false,
        }
    }
    order.len() == 3
}

/// What a turn has found: three steps where it refuses, and none where it accepts, with the order that both
/// have seen. Nothing where it has found something else.
fn steps_of(turn: Result<Verdicts, SearchFault>) -> Option<u32> {
    let verdicts = turn.ok()?;
    match verdicts.get(0)? {
        Verdict::Accepted(order) if is_order(order, ["a", "x", "b"]) => Some(0),
        Verdict::Refused { k, steps } if *k == 3 && steps.len() == 3 => Some(3),
        _ => None,
    }
}

#[test]
fn watched_three_way_cycle(rt: HostRuntime) {
    let alloc = rt.alloc();
    let recording = three_way(alloc).expect(&rt, "a recording");
    let (session, passes) = opened(alloc, 3).expect(&rt, "a session");
    let mut passes = passes;
    let first = passes.get_mut(0).expect(&rt, "a pass");
    let mut observer = session.observer(first);
    let passes = passes.as_mut_slice();
    let before = hand_in(&rt, &session, passes, &recording, 0..8);
    let accepted = judged(&rt, alloc, &session, &mut observer, 1, 2);
    assert!(rt; before && steps_of(accepted) == Some(0));
    let last = hand_in(&rt, &session, passes, &recording, 8..9);
    let refused = judged(&rt, alloc, &session, &mut observer, 1, 2);
    assert!(rt; last && steps_of(refused) == Some(3));
}
