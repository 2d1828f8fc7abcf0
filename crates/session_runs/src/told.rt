//! Recorders that may be refused memory: the closed recording is exactly what they were told was recorded.
ghost use Rattle.std.specs.Prelude.{◌≡◌, All, IfOk};

use super::planned::{PLANNED, REPLICAS, is_planned, planned};
use super::recorders::{Task, record_all};
use anyhow::{Result, anyhow};
use events::{Body, Memory, NewFault, Recording, Refusal};
use sessions::{Pass, RefusedBody, Session};
use std::alloc::Global;
use std::sync::Wait;
use std::sync::atomic::{AtomicU64, Ordering};
use std::thread;
use std::thread::Threads;

/// How many sessions there are.
pub const SESSIONS: u64 = 100;

/// How often an entry is made and handed in at most, and how often a session is opened.
const TRIES: u32 = 1000;

/// What the recorders of a session were told. It is there before the session begins.
#[derive(Drop)]
struct Told {
    /// By replica: a bit for each planned entry, whether it was recorded.
    recorded: [AtomicU64; 4],
    /// How many bodies came back since there was no memory.
    refused: AtomicU64,
    /// How many answers were wrong: another count, or another body that came back.
    wrong: AtomicU64,
}

/// Nothing yet.
fn nothing() -> Told {
    Told {
        recorded: [
            AtomicU64::new(0),
            AtomicU64::new(0),
            AtomicU64::new(0),
            AtomicU64::new(0),
        ],
        refused: AtomicU64::new(0),
        wrong: AtomicU64::new(0),
    }
}

/// The pseudo-random number after this one.
fn next(chance: u64) -> u64 {
    chance
        .wrapping_mul(6_364_136_223_846_793_005)
        .wrapping_add(1_442_695_040_888_963_407)
}

/// Whether chance wants that a refused entry is left out; else it is tried again.
fn is_left_out(chance: u64) -> bool {
    (chance >> 33) % 4 == 0
}

/// The planned entry; none where chance wants that it is left out after a refusal.
fn made(alloc: Global, replica: u32, n: u32, chance: u64) -> Option<Body> {
    let mut chance = chance;
    for _ in 0..TRIES {
        match planned(alloc, replica, n) {
            Ok(body) => return body,
            Err(Memory) => chance = next(chance),
        }
        if is_left_out(chance) {
            return None;
        }
    }
    None
}

/// Notes what came back.
fn note(told: &Told, why: Refusal, is_same: bool) {
    if why == Refusal::Memory {
        told.refused.fetch_add(1, Ordering::SeqCst);
    }
    if !is_same {
        told.wrong.fetch_add(1, Ordering::SeqCst);
    }
}

/// Hands the planned entry in until it is recorded, or chance wants that it is left out. It answers what
/// the recorder was told: how many entries its replica now has.
fn record_planned<R: Wait>(
    rt: &R,
    alloc: Global,
    session: &Session,
    pass: &mut Pass,
    n: u32,
    seed: u64,
    told: &Told,
) -> Option<u32>
    requires { pass.old.session ≡ session.now }
    ensures { pass.new.session ≡ session.now }
{
    let replica = session.replica(pass);
    let mut chance = next(seed.wrapping_add(u64::from(n)));
    let mut body = made(alloc, replica, n, chance)?;
    for _ in 0..TRIES {
        match session.record(rt, pass, body) {
            Ok(count) => return Some(count),
            Err(RefusedBody { why, body: back }) => {
                note(told, why, is_planned(&back, replica, n));
                body = back;
            }
        }
        chance = next(chance);
        if is_left_out(chance) {
            return None;
        }
        thread::yield_now();
    }
    None
}

/// Records the pass's plan, and notes what it was told.
fn record_plan<R: Wait>(
    rt: &R,
    alloc: Global,
    session: &Session,
    pass: &mut Pass,
    seed: u64,
    told: &Told,
)
    requires { pass.old.session ≡ session.now }
    ensures { pass.new.session ≡ session.now }
{
    let mut recorded = 0u64;
    for n in 0..PLANNED {
        if let Some(count) = record_planned(rt, alloc, session, pass, n, seed, told) {
            recorded |= 1 << n;
            if count != recorded.count_ones() {
                told.wrong.fetch_add(1, Ordering::SeqCst);
            }
        }
    }
    if let Some(place) = told.recorded.get(session.replica(pass) as usize) {
        place.store(recorded, Ordering::SeqCst);
    }
}

/// Each recorder records its plan, with a seed of its own, and notes what it was told.
#[derive(Drop)]
struct Plan<'a> {
    seed: u64,
    told: &'a Told,
}

impl Task for Plan<'_> {
    fn act<R: Wait>(&self, rt: &R, alloc: Global, session: &Session, at: usize, pass: &mut Pass) {
        record_plan(
            rt,
            alloc,
            session,
            pass,
            next(self.seed ^ at as u64),
            self.told,
        );
    }
}

/// Whether the replica's stream is exactly the planned entries that its recorder was told were recorded.
fn is_as_told(recording: &Recording, replica: u32, recorded: u64) -> bool {
    let mut at = 0u32;
    for n in 0..PLANNED {
        if recorded >> n & 1 == 1 {
            match recording.stream(replica, at) {
                Some(body) => {
                    if !is_planned(body, replica, n) {
                        return false;
                    }
                }
                None => return false,
            }
            at = at.wrapping_add(1);
        }
    }
    recording.stream_len(replica) == at
}

/// Whether each replica's stream is what its recorder was told, and no answer was wrong.
fn are_as_told(recording: &Recording, told: &Told) -> bool {
    for (replica, recorded) in (0..REPLICAS).zip(told.recorded.iter()) {
        if !is_as_told(recording, replica, recorded.load(Ordering::SeqCst)) {
            return false;
        }
    }
    told.wrong.load(Ordering::SeqCst) == 0
}

/// A session and its passes; it is opened again where there was no memory.
fn opened(alloc: Global) -> Result<(Session, Vec<Pass>)>
    ensures { IfOk result (λ s. All (λ p. p.session ≡ s.0) s.1.items) }
{
    for _ in 0..TRIES {
        match Session::open(alloc, REPLICAS) {
            Ok(opened) => return Ok(opened),
            Err(NewFault::Memory) => {}
            Err(fault) => return Err(anyhow!("{fault}")),
        }
    }
    Err(anyhow!("memory"))
}

/// Whether a body came back in a session since there was no memory. It is an error where the closed recording
/// is not what the recorders were told.
fn met_refusal<H: AllocGlobal + Threads + Wait + Sync>(rt: &H, seed: u64) -> Result<bool> {
    let alloc = rt.alloc();
    let told = nothing();
    let (session, passes) = opened(alloc)?;
    let mut passes = passes;
    let plan = Plan { seed, told: &told };
    record_all(rt, alloc, &session, passes.as_mut_slice(), &plan);
    let Ok(recording) = session.close(passes) else {
        return Err(anyhow!("session {seed} was not closed"));
    };
    if !are_as_told(&recording, &told) {
        return Err(anyhow!("session {seed} has not what its recorders were told"));
    }
    Ok(told.refused.load(Ordering::SeqCst) > 0)
}

/// In how many of the sessions a body came back since there was no memory.
pub fn refusals_met<H: AllocGlobal + Threads + Wait + Sync>(rt: &H) -> Result<u64> {
    let mut met = 0u64;
    for seed in 0..SESSIONS {
        if met_refusal(rt, seed)? {
            met = met.wrapping_add(1);
        }
    }
    Ok(met)
}
