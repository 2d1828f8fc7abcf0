//! The recorders' threads: started one after the other, and joined.
ghost use Rattle.std.specs.Prelude.{◌≡◌, ◌<◌, ◌≤◌, ◌++◌, ◌∷◌, [], All, map, nat_eq, vec_len};
ghost use Rattle.std.specs.Vec.{vec_capacity};
ghost use Rattle.sessions.specs.Prefixes.{HasPrefix};
ghost use Rattle.sessions.specs.Replays.{operations_of};
ghost use Rattle.rehearsal.specs.Faults.{replay_fault};
ghost use Rattle.rehearsal.specs.Foremost.{foremost_of};
ghost use Rattle.rehearsal.specs.Joined.{HasJoined};
ghost use Rattle.rehearsal.specs.Replays.{HasReplayed};

use super::board::Board;
use super::fault::{RehearsalFault, foremost, of_replay};
use super::recorder::{Replayed, Told, replay_stream};
use events::Recording;
use level_search::Gate;
use sessions::{Pass, Session};
use std::alloc::Global;
use std::snapshot::Snapshot;
use std::sync::Wait;
use std::thread::{PromisedHandle, Scope, Threads};

/// The threads of the recorders that could be started, in order of their replicas, and whether all could.
#[derive(Drop)]
pub struct Team {
    pub handles: Vec<PromisedHandle<Told, Replayed>>,
    pub is_whole: bool,
}

/// The passes that came back, and the fault to be answered, if there is one.
#[derive(Drop)]
pub struct Back {
    pub passes: Vec<Pass>,
    pub fault: Option<RehearsalFault>,
}

/// Starts a recorder with each of the passes, which are of all replicas, in order, and have recorded nothing,
/// until one can't be started; then the others don't wait for those that never begin. There is room for the
/// handles.
pub fn started<'s, E, R: Wait + Sync, G: Gate>(
    rt: &'s R,
    alloc: Global,
    scope: &'s Scope<'s, E>,
    session: &'s Session,
    recording: &'s Recording,
    gate: &'s G,
    board: &'s Board,
    mut passes: Vec<Pass>,
    room: Vec<PromisedHandle<Told, Replayed>>,
) -> Team
    requires session { All (λ p. p.session ≡ session.now) passes.items }
    requires new { All (λ p. operations_of p ≡ 0) passes.items }
    requires empty { room.items ≡ [] }
    requires room { vec_len passes ≤ vec_capacity room }
    ensures first { HasPrefix passes.items (map (λ h. h.promise.pass.value) result.handles.items) }
    ensures whole { result.is_whole ≡ nat_eq (vec_len result.handles) (vec_len passes) }
    ensures count { vec_len result.handles ≤ vec_len passes }
    ensures recording { All (λ h. h.promise.recording.value ≡ recording.now) result.handles.items }
{
    let mut handles = room;
    'starts: while !passes.is_empty() {
        let pass = passes.remove(0);
        let promise = Replayed {
            pass: Snapshot::of(&pass),
            recording: Snapshot::of(recording),
        };
        match scope.spawn_with(
            promise,
            move || -> Told
                requires session { pass.session ≡ session.now }
                requires new { operations_of pass ≡ 0 }
                ensures { HasReplayed recording.entry.now pass result }
            { replay_stream(rt, alloc, session, pass, recording, gate, board) },
        ) {
            Ok(handle) => handles.push_reserved(handle),
            Err(_) => {
                board.end_from(rt, handles.len());
                return Team {
                    handles,
                    is_whole: false,
                };
            }
        }
    }
    Team {
        handles,
        is_whole: true,
    }
}

/// Puts a pass that came back at the end, and notes the fault if its replay stopped. There is room for the
/// pass.
fn take_back(back: &mut Back, told: Told)
    requires room { vec_len back.old.passes < vec_capacity back.old.passes }
    ensures passes { back.new.passes.items ≡ back.old.passes.items ++ told.pass ∷ [] }
    ensures room { vec_capacity back.new.passes ≡ vec_capacity back.old.passes }
    ensures fault { back.new.fault ≡ foremost_of back.old.fault (replay_fault told.answer) }
{
    let Told { pass, answer } = told;
    back.fault = foremost(back.fault, of_replay(&answer));
    back.passes.push_reserved(pass);
}

/// Joins all recorders, and puts their passes into the empty list, which has room for them. The fault is the
/// foremost of their replays'.
pub fn joined<R: Threads>(
    rt: &R,
    recording: &Recording,
    mut handles: Vec<PromisedHandle<Told, Replayed>>,
    room: Vec<Pass>,
) -> Back
    requires empty { room.items ≡ [] }
    requires room { vec_len handles ≤ vec_capacity room }
    requires recording { All (λ h. h.promise.recording.value ≡ recording.now) handles.items }
    ensures told { HasJoined recording.now (map (λ h. h.promise.pass.value) handles.items) result }
{
    let mut back = Back {
        passes: room,
        fault: None,
    };
    while !handles.is_empty() {
        let told = handles.remove(0).join(rt);
        take_back(&mut back, told);
    }
    back
}
