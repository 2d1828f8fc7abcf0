//! The jobs that a user waits for: which traces each has, and what is done with them.

use super::judged::Judged;
use super::short::{count_of_entries, leave_out, line_begins, new_session};
use super::user::{Form, User, WORKERS};
use anyhow::Result;
use made_sessions::{
    DAY, FrontShape, NEAR_ALL, NEAR_NAMES, Random, SMALL_TEAM, Seeds, Shape, accepted, concurrent,
    exchanged, front, lacking, long_responses, nameless, ring, short_lived, small_cycle,
};
use std::sync::Wait;
use std::thread::Threads;

/// How large a job's sessions are.
#[derive(Clone, Copy)]
pub enum Scale {
    /// As in the benchmark.
    Full,
    /// So small that a run takes no time.
    Small,
}

impl Scale {
    /// The shape at this scale.
    fn of(self, shape: Shape) -> Shape {
        match self {
            Scale::Full => shape,
            Scale::Small => Shape {
                entries: (shape.entries / 16).min(120),
                inserts: (shape.inserts / 8).min(20),
                places: (shape.places / 64).min(1500),
                ..shape
            },
        }
    }

    /// So many times at full scale, and once at the small one.
    fn times(self, times: u64) -> u64 {
        match self {
            Scale::Full => times,
            Scale::Small => 1,
        }
    }
}

/// When a session is judged whose making takes long beside that: at each eighth.
const OFTEN: &[usize] = &[2, 4, 6, 8, 10, 12, 14];

/// When others are: at each quarter.
const SOMETIMES: &[usize] = &[4, 8, 12];

/// When one is judged in which groups have heard of each other.
const HEARD: &[usize] = &[10, 11, 12, 13, 14, 15];

/// Sessions with a conflict at the front: writers, elements of each in a phase, phases at most, the elements of
/// the cycle, and whether all elements are in its component.
const FRONTS: &[(usize, usize, usize, usize, bool)] = &[
    (8, 16, 256, 8, false),
    (13, 4, 1024, 3, false),
    (12, 16, 256, 4, false),
    (8, 16, 256, 8, true),
    (13, 4, 1024, 3, true),
    (12, 16, 256, 4, true),
];

/// Long sessions, accepted or with a first fault, from the text of the trace to the report, as they grow.
pub fn long<H: Threads + Sync>(user: &mut User<H>, seed: u64, scale: Scale) -> Result<()> {
    let alloc = user.alloc;
    let mut seeds = Seeds::new(seed, 0);
    for _ in 0..scale.times(4) {
        let trace = accepted(alloc, scale.of(SMALL_TEAM), seeds.take())?;
        user.verdict_as_it_grows(&trace, OFTEN, WORKERS, Form::Json)?;
    }
    let trace = accepted(alloc, scale.of(DAY), seeds.take())?;
    user.verdict_as_it_grows(&trace, OFTEN, WORKERS, Form::Text)?;
    let trace = accepted(alloc, scale.of(NEAR_NAMES), seeds.take())?;
    user.verdict_as_it_grows(&trace, SOMETIMES, 1, Form::Text)?;
    let trace = lacking(alloc, scale.of(DAY), seeds.take())?;
    user.verdict_as_it_grows(&trace, OFTEN, WORKERS, Form::Text)?;
    let trace = long_responses(alloc, scale.of(NEAR_NAMES), seeds.take())?;
    user.verdict_as_it_grows(&trace, SOMETIMES, 1, Form::Json)?;
    let trace = accepted(alloc, scale.of(NEAR_ALL), seeds.take())?;
    user.verdict_as_it_grows(&trace, OFTEN, 1, Form::Text)
}

/// Thousands of short sessions, and what a shrinker makes of them; no text is judged twice.
pub fn short<H: Threads + Sync>(user: &mut User<H>, seed: u64, scale: Scale) -> Result<()> {
    let alloc = user.alloc;
    let mut seeds = Seeds::new(seed, 1);
    let mut random = Random::new(seeds.take());
    let mut judged = Judged::new(alloc);
    let mut rest = Vec::new(alloc);
    for _ in 0..scale.times(3000) {
        let trace = new_session(alloc, &mut random, &mut seeds, &mut judged)?;
        user.verdict(&trace, 1, Form::Json)?;
        let begins = line_begins(alloc, &trace)?;
        for entry in 0..count_of_entries(&begins) {
            leave_out(&mut rest, &trace, &begins, entry)?;
            if judged.add(&rest)? {
                user.verdict(&rest, 1, Form::Json)?;
            }
        }
    }
    Ok(())
}

/// Sessions in which two and more responses can't be right together. What groups show is judged on the way
/// too, when they have heard of each other.
pub fn refused<H: Threads + Sync>(user: &mut User<H>, seed: u64, scale: Scale) -> Result<()> {
    let alloc = user.alloc;
    let mut seeds = Seeds::new(seed, 2);
    let trace = exchanged(alloc, scale.of(NEAR_NAMES), seeds.take())?;
    user.verdict(&trace, WORKERS, Form::Text)?;
    let trace = small_cycle(alloc, scale.of(NEAR_NAMES), seeds.take())?;
    user.verdict(&trace, WORKERS, Form::Text)?;
    for groups in [3, 8, 16] {
        let shape = Shape {
            groups,
            grows: groups == 8,
            ..NEAR_NAMES
        };
        let trace = ring(alloc, scale.of(shape), seeds.take())?;
        user.verdict_as_it_grows(&trace, HEARD, WORKERS, Form::Text)?;
    }
    let shape = Shape { groups: 5, ..DAY };
    let trace = ring(alloc, scale.of(shape), seeds.take())?;
    user.verdict_as_it_grows(&trace, HEARD, WORKERS, Form::Text)?;
    let shape = Shape {
        replicas: 3,
        groups: 3,
        inserts: 1200,
        ..NEAR_NAMES
    };
    for _ in 0..scale.times(2) {
        let trace = ring(alloc, scale.of(shape), seeds.take())?;
        user.verdict_as_it_grows(&trace, HEARD, WORKERS, Form::Json)?;
    }
    Ok(())
}

/// Sessions whose conflict stands first in a long document: alone, or in a component of all elements. The seed
/// says how many phases each has beyond half of what fits.
pub fn fronts<H: Threads + Sync>(user: &mut User<H>, seed: u64, scale: Scale) -> Result<()> {
    let alloc = user.alloc;
    let mut seeds = Seeds::new(seed, 6);
    let mut random = Random::new(seeds.take());
    for (writers, inserts, most, k, closed) in FRONTS.iter().copied() {
        let phases = match scale {
            Scale::Full => random.below(most / 2).saturating_add(most / 2),
            Scale::Small => 2,
        };
        let shape = FrontShape {
            writers,
            inserts,
            phases,
            ring: k,
            closed,
        };
        let trace = front(alloc, shape)?;
        user.verdict(&trace, WORKERS, Form::Text)?;
    }
    Ok(())
}

/// Certificates of sessions that are refused with three and more responses, made and checked.
pub fn certificates<H: Threads + Sync>(user: &mut User<H>, seed: u64, scale: Scale) -> Result<()> {
    let alloc = user.alloc;
    let mut seeds = Seeds::new(seed, 3);
    let trace = small_cycle(alloc, scale.of(NEAR_NAMES), seeds.take())?;
    user.certify(&trace)?;
    for groups in [3, 8, 16] {
        let shape = Shape {
            groups,
            grows: groups == 8,
            ..NEAR_NAMES
        };
        let trace = ring(alloc, scale.of(shape), seeds.take())?;
        user.certify(&trace)?;
    }
    let shape = Shape {
        groups: 16,
        inserts: 1024,
        places: 65_536,
        ..NEAR_ALL
    };
    let trace = ring(alloc, scale.of(shape), seeds.take())?;
    user.certify(&trace)
}

/// Live sessions: a recorder for each replica beside a watcher.
pub fn lively<H: Threads + Wait + Sync>(user: &mut User<H>, seed: u64, scale: Scale) -> Result<()> {
    let alloc = user.alloc;
    let mut seeds = Seeds::new(seed, 4);
    for _ in 0..scale.times(8) {
        let trace = accepted(alloc, scale.of(SMALL_TEAM), seeds.take())?;
        user.live_as_it_grows(&trace)?;
    }
    for _ in 0..scale.times(4) {
        let trace = small_cycle(alloc, scale.of(DAY), seeds.take())?;
        user.live_as_it_grows(&trace)?;
        let trace = accepted(alloc, scale.of(DAY), seeds.take())?;
        user.live_as_it_grows(&trace)?;
    }
    for _ in 0..scale.times(2) {
        let trace = accepted(alloc, scale.of(NEAR_NAMES), seeds.take())?;
        user.live_as_it_grows(&trace)?;
    }
    Ok(())
}

/// Awkward sessions: windows of long lists, long names, lists without a name, elements that all come at the
/// same time, and elements that are gone before another replica shows them.
pub fn awkward<H: Threads + Sync>(user: &mut User<H>, seed: u64, scale: Scale) -> Result<()> {
    let alloc = user.alloc;
    let mut seeds = Seeds::new(seed, 5);
    let shape = Shape {
        views: 900,
        ..NEAR_NAMES
    };
    let trace = accepted(alloc, scale.of(shape), seeds.take())?;
    user.verdict_as_it_grows(&trace, SOMETIMES, 1, Form::Text)?;
    let trace = long_responses(alloc, scale.of(shape), seeds.take())?;
    user.verdict_as_it_grows(&trace, SOMETIMES, 1, Form::Text)?;
    let trace = accepted(alloc, scale.of(Shape { width: 32, ..DAY }), seeds.take())?;
    user.verdict_as_it_grows(&trace, SOMETIMES, 1, Form::Text)?;
    let trace = nameless(alloc, scale.of(NEAR_ALL), seeds.take())?;
    user.verdict_as_it_grows(&trace, SOMETIMES, 1, Form::Text)?;
    let trace = concurrent(
        alloc,
        scale.of(Shape {
            inserts: 240,
            ..NEAR_NAMES
        }),
        seeds.take(),
    )?;
    user.verdict_as_it_grows(&trace, SOMETIMES, 1, Form::Text)?;
    let trace = short_lived(alloc, scale.of(NEAR_ALL), seeds.take())?;
    user.verdict_as_it_grows(&trace, SOMETIMES, 1, Form::Text)
}
