//! One thread hands in all streams, and chances which recorder is next.
ghost use Rattle.std.specs.Prelude.{◌≡◌, All};

use anyhow::{Result, anyhow};
use events::{Recording, Refusal};
use sessions::{Pass, RefusedBody, Session};
use std::sync::Wait;

/// How often a recorder is chosen at most.
const MOST_TURNS: u32 = 1_000_000;

/// Hands in the entry at this place of the pass's stream, and answers the next place. Where the stream
/// has ended, or what is received is not there yet, nothing happens.
fn record_next<H: AllocGlobal + Wait>(
    rt: &H,
    session: &Session,
    pass: &mut Pass,
    recording: &Recording,
    place: u32,
) -> Result<u32>
    requires { pass.old.session ≡ session.now }
    ensures { pass.new.session ≡ session.now }
{
    let Some(body) = recording.stream(session.replica(pass), place) else {
        return Ok(place);
    };
    let body = body.copy(rt.alloc())?;
    match session.record(rt, pass, body) {
        Ok(count) => Ok(count),
        Err(
            RefusedBody {
                why: Refusal::NotYet { .. },
                body: _,
            },
        ) => Ok(place),
        Err(refused) => Err(anyhow!("{}", refused.why)),
    }
}

/// Hands in all streams.
fn hand_in<H: AllocGlobal + Wait>(
    rt: &H,
    session: &Session,
    passes: &mut [Pass],
    recording: &Recording,
    seed: u64,
) -> Result<()>
    requires { All (λ p. p.session ≡ session.now) passes.old }
    ensures { All (λ p. p.session ≡ session.now) passes.new }
{
    let mut places = [0u32; 16];
    let mut chance = seed;
    for _ in 0..MOST_TURNS {
        chance = chance
            .wrapping_mul(6_364_136_223_846_793_005)
            .wrapping_add(1_442_695_040_888_963_407);
        let next = (chance >> 33) as usize % 16;
        if next < passes.len() {
            let pass = &mut passes[next];
            places[next] = record_next(rt, session, pass, recording, places[next])?;
            if session.count(pass) == u64::from(recording.len()) {
                return Ok(());
            }
        }
    }
    Err(anyhow!("not all entries came"))
}

/// The recording of a session of which each pass has recorded its stream.
pub fn interleaved<H: AllocGlobal + Wait>(
    rt: &H,
    recording: &Recording,
    seed: u64,
) -> Result<Recording> {
    let (session, passes) = Session::open(rt.alloc(), recording.replicas())?;
    let mut passes = passes;
    hand_in(rt, &session, passes.as_mut_slice(), recording, seed)?;
    match session.close(passes) {
        Ok(merged) => Ok(merged),
        Err(_) => Err(anyhow!("not closed")),
    }
}
