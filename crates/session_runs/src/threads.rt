//! Each pass replays its stream in a thread of its own.
use super::recorders::{Task, record_all};
use anyhow::{Result, anyhow};
use events::Recording;
use sessions::{Pass, Session};
use std::alloc::Global;
use std::sync::Wait;
use std::thread::Threads;

/// How often a recorder tries to hand in a receipt.
const TRIES: u32 = 1_000_000;

/// Each recorder records its replica's stream of this recording.
#[derive(Drop)]
struct Replay<'a>(&'a Recording);

impl Task for Replay<'_> {
    fn act<R: Wait>(&self, rt: &R, alloc: Global, session: &Session, _at: usize, pass: &mut Pass) {
        let _ = session.replay(rt, alloc, pass, self.0, TRIES);
    }
}

/// The recording of a session whose passes have replayed this one. A replay that stopped would leave
/// entries out.
pub fn replayed_by_threads<H: Threads + Wait + Sync>(
    rt: &H,
    alloc: Global,
    recording: &Recording,
) -> Result<Recording> {
    let (session, passes) = Session::open(alloc, recording.replicas())?;
    let mut passes = passes;
    record_all(
        rt,
        alloc,
        &session,
        passes.as_mut_slice(),
        &Replay(recording),
    );
    match session.close(passes) {
        Ok(merged) => Ok(merged),
        Err(_) => Err(anyhow!("not closed")),
    }
}
