//! What a recorder does in its thread, and what is known of it after the join.
ghost use Rattle.std.specs.Prelude.{◌≡◌};
ghost use Rattle.sessions.specs.Replays.{operations_of};
ghost use Rattle.rehearsal.specs.Replays.{HasReplayed};

use super::board::{Board, Seat};
use events::Recording;
use level_search::Gate;
use sessions::{Pass, ReplayFault, Session};
use std::alloc::Global;
use std::snapshot::Snapshot;
use std::sync::Wait;
use std::thread::Promise;

/// What a recorder hands back: its pass, and how its replay went.
#[derive(Drop)]
pub struct Told {
    pub pass: Pass,
    pub answer: Result<u32, ReplayFault>,
}

/// The promise that the stream of this pass's replica in this recording is replayed.
#[derive(Drop)]
pub struct Replayed {
    pub pass: Snapshot<Pass>,
    pub recording: Snapshot<Recording>,
}

impl Promise<Told> for Replayed {
    ghost use Rattle.rehearsal.specs.Replays.{HasReplayed};

    ghost kept_by = { λ p told. HasReplayed p.recording.value p.pass.value told };
}

/// Replays the stream of the pass's replica, and tells the board when that ends. The gate is called before
/// and after.
pub fn replay_stream<R: Wait, G: Gate>(
    rt: &R,
    alloc: Global,
    session: &Session,
    pass: Pass,
    recording: &Recording,
    gate: &G,
    board: &Board,
) -> Told
    requires session { pass.session ≡ session.now }
    requires new { operations_of pass ≡ 0 }
    ensures { HasReplayed recording.now pass result }
{
    let mut pass = pass;
    let replica = session.replica(&pass);
    gate.before(replica, 0);
    let mut seat = Seat {
        board,
        replica,
        made: 0,
    };
    let answer = session.replay_with(rt, alloc, &mut pass, recording, &mut seat);
    board.end(rt, replica);
    gate.after(replica, 0);
    Told { pass, answer }
}
