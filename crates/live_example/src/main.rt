//! An example of a live session. Two editors type into one session, each in a thread of its own, and a third
//! thread looks on. Then the session is closed, and the report of its recording is printed.
#![tactic(auto)]

ghost use Rattle.std.specs.Prelude.{◌≡◌};
ghost use Rattle.std.specs.Thread.{IsSync};

use anyhow::{Result, anyhow};
use certificate::{NoGate, judge};
use events::{Body, Memory, Name, Response};
use report::text;
use sessions::{Observer, Pass, Session};
use std::alloc::Global;
use std::io;
use std::io::Write;
use std::sync::Wait;
use std::thread::{Threads, join};

/// The insert of a name at the beginning of a list that was empty.
fn typed(alloc: Global, name: Name) -> Result<Body, Memory> {
    let mut response = Response::new(alloc);
    response.push(name)?;
    Ok(Body::Ins {
        name,
        at: 0,
        response,
    })
}

/// One editor's thread: its user types a name, and the editor tells the session what it shows then.
fn edit<R: Wait>(rt: &R, alloc: Global, session: &Session, pass: Pass, text: &str) -> Pass
    requires { pass.session ≡ session.now }
    ensures { result.session ≡ session.now }
{
    let mut pass = pass;
    let Ok(name) = Name::new(text.as_bytes()) else {
        return pass;
    };
    if let Ok(body) = typed(alloc, name) {
        // What is refused comes back with the reason, and can be handed in again.
        if let Err(refused) = session.record(rt, &mut pass, body) {
            let _ = session.record(rt, &mut pass, refused.body);
        }
    }
    pass
}

/// The threads of both editors.
fn edit_both<H: Threads + Wait + Sync>(
    rt: &H,
    alloc: Global,
    session: &Session,
    first: Pass,
    second: Pass,
) -> (Pass, Pass)
    requires { (first.session ≡ session.now) × (second.session ≡ session.now) }
    ensures { (result.0.session ≡ session.now) × (result.1.session ≡ session.now) }
{
    join(
        rt,
        || edit(rt, alloc, session, first, "a"),
        || edit(rt, alloc, session, second, "b"),
    )
}

/// A third thread: three verdicts on what is recorded by then. It answers how many there are.
fn look_on<H: Threads + Wait + Sync>(
    rt: &H,
    alloc: Global,
    session: &Session,
    observer: Observer,
) -> (Observer, usize)
    requires { observer.session ≡ session.now }
    ensures { result.0.session ≡ session.now }
{
    let mut observer = observer;
    let verdicts = match session.watch(rt, alloc, &mut observer, 3, 4) {
        Ok(verdicts) => verdicts.len(),
        Err(_) => 0,
    };
    (observer, verdicts)
}

/// The threads of the editors, beside the third one.
fn edit_and_look_on<H: Threads + Wait + Sync>(
    rt: &H,
    alloc: Global,
    session: &Session,
    first: Pass,
    second: Pass,
    observer: Observer,
) -> ((Pass, Pass), (Observer, usize))
    requires passes { (first.session ≡ session.now) × (second.session ≡ session.now) }
    requires observer { observer.session ≡ session.now }
    ensures first { result.0.0.session ≡ session.now }
    ensures second { result.0.1.session ≡ session.now }
    ensures observer { result.1.0.session ≡ session.now }
{
    join(
        rt,
        || -> (Pass, Pass)
            requires { IsSync H.row × (first.session ≡ session.now) × (second.session ≡ session.now) }
            ensures first { result.0.session ≡ session.entry.now }
            ensures second { result.1.session ≡ session.entry.now }
        { edit_both(rt, alloc, session, first, second) },
        || -> (Observer, usize)
            requires { IsSync H.row × (observer.session ≡ session.now) }
            ensures { result.0.session ≡ session.entry.now }
        { look_on(rt, alloc, session, observer) },
    )
}

fn main(rt: HostRuntime) -> Result<()> {
    let alloc = rt.alloc();
    let (session, mut passes) = Session::open(alloc, 2)?;
    let Some(second) = passes.pop() else {
        return Err(anyhow!("no pass"));
    };
    let Some(mut first) = passes.pop() else {
        return Err(anyhow!("no pass"));
    };
    let observer = session.observer(&mut first);
    let ((mut first, second), (observer, verdicts)) = edit_and_look_on(
        &rt, alloc, &session, first, second, observer,
    );
    session.end(observer, &mut first);
    println!(rt;
        "{verdicts} verdicts, {} entries",
        session.count(&mut first)
    )?;
    let Ok(recording) = session.close(vec![in alloc; first, second]?) else {
        return Err(anyhow!("a pass is missing"));
    };
    let verdict = judge(&rt, alloc, &recording, 4, &NoGate)?;
    let report = text(alloc, &recording, &verdict)?;
    io::writer(&rt).write_all(&report)?;
    Ok(())
}
