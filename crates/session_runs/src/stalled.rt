//! A replay that stalls leaves what it recorded, and its recorder goes on later.
ghost use Rattle.std.specs.Prelude.{◌≡◌};

use super::reports::reports_of;
use anyhow::{Result, anyhow};
use events::Recording;
use sessions::{Pass, ReplayFault, Session};
use std::sync::Wait;
use std::thread::Threads;
use trace_text::read;

const THREE_WAY: &str =
    "trace 1\nreplicas 3\n0 ins x 0 : x\n1 recv 0 1\n2 recv 0 1\n1 ins a 0 : a x\n2 ins b 1 : x b\n0 del x :\n0 recv 1 1\n0 recv 2 1\n0 read : b a\n";

/// Records the rest of the first replica's stream.
fn resume<H: AllocGlobal + Wait>(
    rt: &H,
    session: &Session,
    pass: &mut Pass,
    recording: &Recording,
    from: u32,
) -> Result<()>
    requires { pass.old.session ≡ session.now }
    ensures { pass.new.session ≡ session.now }
{
    for at in from..recording.stream_len(0) {
        let Some(body) = recording.stream(0, at) else {
            return Err(anyhow!("no entry"));
        };
        if session.record(rt, pass, body.copy(rt.alloc())?).ok() != Some(at + 1) {
            return Err(anyhow!("another answer at {at}"));
        }
    }
    Ok(())
}

/// The first replica's replay stalls at its third entry; the others replay theirs, and then the first one
/// goes on. It answers the report.
pub fn stalled_and_resumed<H: AllocGlobal + Threads + Wait + Sync>(rt: &H) -> Result<Vec<u8>> {
    let alloc = rt.alloc();
    let recording = read(alloc, THREE_WAY.as_bytes())?;
    let (session, mut passes) = Session::open(alloc, 3)?;
    let Some(mut third) = passes.pop() else {
        return Err(anyhow!("no pass"));
    };
    let Some(mut second) = passes.pop() else {
        return Err(anyhow!("no pass"));
    };
    let Some(mut first) = passes.pop() else {
        return Err(anyhow!("no pass"));
    };
    let stalled = session.replay(rt, alloc, &mut first, &recording, 3);
    if stalled != Err(ReplayFault::Stalled { at: 2 }) {
        return Err(anyhow!("not stalled"));
    }
    session.replay(rt, alloc, &mut second, &recording, 3)?;
    session.replay(rt, alloc, &mut third, &recording, 3)?;
    resume(rt, &session, &mut first, &recording, 2)?;
    let Ok(merged) = session.close(vec![in alloc; third, first, second]?) else {
        return Err(anyhow!("not closed"));
    };
    let reports = reports_of(rt, alloc, &merged)?;
    Ok(Vec::from_slice(alloc, reports.text())?)
}
