//! The rehearsal: a session is opened, its recorders and its watcher act, and it is closed.
ghost use Rattle.std.specs.Prelude.{◌≡◌, ◌≤◌, ◌<◌, ◌⊎◌, ◌↔◌, ℕ, List, All, Some, None, Ok, [], IfOk, IfErr};
ghost use Rattle.std.specs.Prelude.{IsErrOf, length};
ghost use Rattle.events.specs.History.{SameStreams, IsLegal};
ghost use Rattle.sessions.specs.Prefixes.{HasPrefix};
ghost use Rattle.sessions.specs.Replays.{operations_of};
ghost use Rattle.sessions.specs.Shown.{PassShown};
ghost use Rattle.rehearsal.specs.Ends.{IsEndOf, MayEnd};
ghost use Rattle.rehearsal.specs.Faults.{fault_of_all};
ghost use Rattle.rehearsal.specs.Opened.{AreOpened};
ghost use Rattle.rehearsal.specs.Replays.{AreReplayed, HasStalled, HaveActed};
ghost use Rattle.rehearsal.specs.Watched.{HasWatched, WasWatched};

use super::board::Board;
use super::fault::{RehearsalFault, foremost, of_watch};
use super::team::{Back, Team, joined, started};
use super::watcher::{Watched, Watches, watch_turns};
use events::{MOST_REPLICAS, Memory, Recording};
use level_search::{Gate, MOST_WORKERS};
use sessions::{Observer, Pass, SearchFault, Session, Verdicts};
use std::alloc::Global;
use std::snapshot::Snapshot;
use std::sync::Wait;
use std::thread;
use std::thread::{Scope, Threads};

/// A session with its passes, an observer that the first of them made, and the recorders' board.
#[derive(Drop)]
struct Opened {
    session: Session,
    passes: Vec<Pass>,
    observer: Observer,
    board: Board,
}

/// What comes back when all threads have ended.
#[derive(Drop)]
struct Returns {
    passes: Vec<Pass>,
    observer: Observer,
    verdicts: Verdicts,
}

/// What a rehearsal comes to: what the session has in the end, and the watcher's verdicts, the earliest
/// first.
#[derive(Drop)]
pub struct Rehearsed {
    pub recording: Recording,
    pub verdicts: Verdicts,
}

/// Replays a recording in a session of its own, and answers what the session then has: a recording with the
/// same streams.
///
/// For each replica a recorder thread replays its stream; where an operation that it receives is not there
/// yet, it sleeps until that has been recorded. A watcher judges four snapshots, each with so many workers, 1
/// to 64. The gate's `before(r, 0)` and `after(r, 0)` are called round the replay of replica r, by its
/// thread, and by no search. All threads have ended when it returns. The recording is held twice at the end,
/// and once more while the watcher judges a snapshot.
pub fn rehearse<H: Threads + Wait + Sync, G: Gate>(
    rt: &H,
    alloc: Global,
    recording: &Recording,
    workers: u32,
    gate: &G,
) -> Result<Recording, RehearsalFault>
    ensures streams { IfOk result (λ closed. SameStreams recording.now closed) }
    ensures workers { IsErrOf result RehearsalFault.Workers ↔ ((workers < 1) ⊎ (MOST_WORKERS < workers)) }
    // `Stalled` is the foremost of what recorders may tell of such replays; no clause ties it to those that
    // ran.
    ensures ended { IfErr result (IsEndOf recording.now) }
    ensures stalled { IsErrOf result RehearsalFault.Stalled → HasStalled recording.now }
{
    let rehearsed = match rehearse_watched(rt, alloc, recording, workers, gate) {
        Ok(rehearsed) => rehearsed,
        Err(fault) => return Err(fault),
    };
    let Rehearsed {
        recording: closed,
        verdicts: _,
    } = rehearsed;
    Ok(closed)
}

/// As `rehearse`, and hands back the watcher's verdicts too: each is on a list of entries of which the list
/// before is a prefix, and the last list is a prefix of what the session has in the end. The lists may be
/// empty.
pub fn rehearse_watched<H: Threads + Wait + Sync, G: Gate>(
    rt: &H,
    alloc: Global,
    recording: &Recording,
    workers: u32,
    gate: &G,
) -> Result<Rehearsed, RehearsalFault>
    ensures streams { IfOk result (λ rehearsed. SameStreams recording.now rehearsed.recording) }
    ensures watched { IfOk result (λ rehearsed. WasWatched rehearsed.recording rehearsed.verdicts) }
    ensures workers { IsErrOf result RehearsalFault.Workers ↔ ((workers < 1) ⊎ (MOST_WORKERS < workers)) }
    ensures ended { IfErr result (IsEndOf recording.now) }
    ensures stalled { IsErrOf result RehearsalFault.Stalled → HasStalled recording.now }
{
    if workers == 0 || workers > MOST_WORKERS {
        return Err(RehearsalFault::Workers);
    }
    let Opened {
        session,
        passes,
        observer,
        board,
    } = open(alloc, recording.replicas())?;
    let Returns {
        passes,
        observer,
        verdicts,
    } = act(
        rt, alloc, &session, recording, passes, observer, workers, gate, &board,
    )?;
    let closed = close(session, recording, passes, observer);
    Ok(Rehearsed {
        recording: closed,
        verdicts,
    })
}

/// A session of so many replicas, an observer that pass 0 made, and a board.
fn open(alloc: Global, replicas: u32) -> Result<Opened, Memory>
    requires { (1 ≤ replicas) × (replicas ≤ MOST_REPLICAS) }
    ensures replicas { IfOk result (λ o. o.session.replicas ≡ replicas) }
    ensures passes { IfOk result (λ o. AreOpened o.session o.passes.items) }
    ensures observer { IfOk result (λ o. o.observer ≡ record { session = o.session; seen = [] }) }
{
    let Ok((session, mut passes)) = Session::open(alloc, replicas) else {
        return Err(Memory);
    };
    let observer = session.observer(&mut passes[0]);
    Ok(Opened {
        session,
        passes,
        observer,
        board: Board::new(alloc, replicas)?,
    })
}

/// Recorders and watcher act in threads of their own, which have ended when it returns.
fn act<H: Threads + Wait + Sync, G: Gate>(
    rt: &H,
    alloc: Global,
    session: &Session,
    recording: &Recording,
    passes: Vec<Pass>,
    observer: Observer,
    workers: u32,
    gate: &G,
    board: &Board,
) -> Result<Returns, RehearsalFault>
    requires workers { (1 ≤ workers) × (workers ≤ MOST_WORKERS) }
    requires some { 0 < length passes.items }
    requires passes { All (λ p. p.session ≡ session.now) passes.items }
    requires new { All (λ p. operations_of p ≡ 0) passes.items }
    requires observer { observer.session ≡ session.now }
    ensures acted { IfOk result (HaveActed recording.now observer passes.items) }
    ensures ended { IfErr result (MayEnd recording.now passes.items) }
{
    thread::scope(
        thread::scope_env(),
        rt,
        move |scope| -> Result<Returns, RehearsalFault>
            requires workers { (1 ≤ workers) × (workers ≤ MOST_WORKERS) }
            requires some { 0 < length passes.items }
            requires passes { All (λ p. p.session ≡ session.now) passes.items }
            requires new { All (λ p. operations_of p ≡ 0) passes.items }
            requires observer { observer.session ≡ session.now }
            ensures acted { IfOk result (HaveActed recording.entry.now observer passes.items) }
            ensures ended { IfErr result (MayEnd recording.entry.now passes.items) }
        {
            act_in(
                rt, alloc, scope, session, recording, passes, observer, workers, gate, board,
            )
        },
    )
}

/// The same, with threads of this scope.
fn act_in<'s, E, H: Threads + Wait + Sync, G: Gate>(
    rt: &'s H,
    alloc: Global,
    scope: &'s Scope<'s, E>,
    session: &'s Session,
    recording: &'s Recording,
    passes: Vec<Pass>,
    observer: Observer,
    workers: u32,
    gate: &'s G,
    board: &'s Board,
) -> Result<Returns, RehearsalFault>
    requires workers { (1 ≤ workers) × (workers ≤ MOST_WORKERS) }
    requires some { 0 < length passes.items }
    requires passes { All (λ p. p.session ≡ session.now) passes.items }
    requires new { All (λ p. operations_of p ≡ 0) passes.items }
    requires observer { observer.session ≡ session.now }
    ensures acted { IfOk result (HaveActed recording.now observer passes.items) }
    ensures ended { IfErr result (MayEnd recording.now passes.items) }
{
    let handles = Vec::with_capacity(alloc, passes.len()).map_err(|_| RehearsalFault::Memory)?;
    let room = Vec::with_capacity(alloc, passes.len()).map_err(|_| RehearsalFault::Memory)?;
    let promise = Watches {
        observer: Snapshot::of(&observer),
    };
    let Ok(watcher) = scope.spawn_with(
        promise,
        move || -> Watched
            requires session { observer.session ≡ session.now }
            requires workers { (1 ≤ workers) × (workers ≤ MOST_WORKERS) }
            ensures { HasWatched observer result }
        { watch_turns(rt, alloc, session, observer, workers) },
    ) else {
        return Err(RehearsalFault::Thread);
    };
    let Team { handles, is_whole } = started(
        rt, alloc, scope, session, recording, gate, board, passes, handles,
    );
    let back = joined(rt, recording, handles, room);
    let watched = watcher.join(rt);
    returned(back, watched, is_whole)
}

/// What is answered where all threads have ended: the foremost of the recorders' faults, the watcher's, and
/// that not all recorders could be started; else what came back.
fn returned(back: Back, watched: Watched, is_whole: bool) -> Result<Returns, RehearsalFault>
    ensures none { IfOk result (λ _. fault_of_all back.fault watched.answer is_whole ≡ None) }
    ensures fault { IfErr result (λ fault. fault_of_all back.fault watched.answer is_whole ≡ Some fault) }
    ensures back { IfOk result (λ returns. (returns.passes.items ≡ back.passes.items)
        × (returns.observer ≡ watched.observer) × (watched.answer ≡ Ok returns.verdicts)) }
{
    let Back { passes, fault } = back;
    let Watched { observer, answer } = watched;
    if let Some(fault) = fault_at_end(fault, &answer, is_whole) {
        return Err(fault);
    }
    let Ok(verdicts) = answer else { unreachable!() };
    Ok(Returns {
        passes,
        observer,
        verdicts,
    })
}

/// The foremost of the recorders' faults, the watcher's, and that not all recorders could be started.
fn fault_at_end(
    recorders: Option<RehearsalFault>,
    answer: &Result<Verdicts, SearchFault>,
    is_whole: bool,
) -> Option<RehearsalFault>
    ensures { result ≡ fault_of_all recorders answer.now is_whole }
{
    let unstarted = if is_whole {
        None
    } else {
        Some(RehearsalFault::Thread)
    };
    foremost(foremost(recorders, of_watch(answer)), unstarted)
}

/// Ends the observer at pass 0 and closes the session, all of whose passes have replayed the recording.
fn close(
    session: Session,
    recording: &Recording,
    passes: Vec<Pass>,
    observer: Observer,
) -> Recording
    requires legal { IsLegal recording.now }
    requires replicas { session.replicas ≡ recording.now.replicas }
    requires observer { observer.session ≡ session }
    requires replayed { (before : List PassShown) × AreOpened session before
        × AreReplayed recording.now before passes.items }
    ensures streams { SameStreams recording.now result }
    ensures replicas { result.replicas ≡ session.replicas }
    ensures watched { HasPrefix result.entries observer.seen }
{
    let mut passes = passes;
    session.end(observer, &mut passes[0]);
    let Ok(closed) = session.close(passes) else {
        unreachable!()
    };
    // Its contract has that the recording is legal.
    let _ = closed.replicas();
    closed
}
