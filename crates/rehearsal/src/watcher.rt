//! What the watcher does in its thread, and what is known of it after the join.
ghost use Rattle.std.specs.Prelude.{◌≡◌, ◌≤◌};
ghost use Rattle.rehearsal.specs.Watched.{HasWatched};

use level_search::MOST_WORKERS;
use sessions::{Observer, SearchFault, Session, Verdicts};
use std::alloc::Global;
use std::snapshot::Snapshot;
use std::sync::Wait;
use std::thread::{Promise, Threads};

/// How many snapshots the watcher judges.
const TURNS: u32 = 4;

/// What the watcher hands back: its observer, and the verdicts on what that has seen, the earliest first.
#[derive(Drop)]
pub struct Watched {
    pub observer: Observer,
    pub answer: Result<Verdicts, SearchFault>,
}

/// The promise that this observer watches.
#[derive(Drop)]
pub struct Watches {
    pub observer: Snapshot<Observer>,
}

impl Promise<Watched> for Watches {
    ghost use Rattle.rehearsal.specs.Watched.{HasWatched};

    ghost kept_by = { λ p watched. HasWatched p.observer.value watched };
}

/// Judges some snapshots, one after the other.
pub fn watch_turns<H: Threads + Wait + Sync>(
    rt: &H,
    alloc: Global,
    session: &Session,
    observer: Observer,
    workers: u32,
) -> Watched
    requires session { observer.session ≡ session.now }
    requires workers { (1 ≤ workers) × (workers ≤ MOST_WORKERS) }
    ensures { HasWatched observer result }
{
    let mut observer = observer;
    let answer = session.watch(rt, alloc, &mut observer, TURNS, workers);
    Watched { observer, answer }
}
