//! Replicas judged together, an operation at a time, in the order in which their operations stand in the
//! recording.

ghost use Rattle.std.specs.Prelude.{◌≡◌, ◌∷◌, [], IfOk, OnOk, None, length, vec_len, ◌<◌};
ghost use Rattle.events.specs.History.{History};
ghost use Rattle.specification.specs.Visibility.{SightTable};
ghost use Rattle.contents_check.specs.Covering.{IsWalked};
ghost use Rattle.contents_check.specs.Known.{element_names};
ghost use Rattle.contents_check.specs.Replicas.{CanJudge};
ghost use Rattle.contents_check.specs.Turns.{AreOnTheWay, GoesOn, IsAtTheEnd, IsOnTheWay};

use super::changes::Changes;
use super::elements::Elements;
use super::fault::Fault;
use super::walk::{Walk, Walked};
use element_numbers::Covering;
use events::{Body, Memory, OpName, Recording};
use std::alloc::Global;
use visibility::Sight;

/// A replica on the way: how many of its operations are judged, its fault if one of these has one, and else
/// what stands behind them.
#[derive(Drop)]
struct OnTheWay {
    replica: u32,
    judged: u32,
    fault: Option<Fault>,
    walk: Walk,
}

impl OnTheWay {
    /// Before the first operation of a replica.
    fn new(alloc: Global, elements: &Elements, replica: u32) -> Result<OnTheWay, Memory>
        ensures replica { IfOk result (λ way. way.replica ≡ replica) }
        ensures on_the_way { IfOk result (λ way. (h : History) (table : SightTable)
            → IsOnTheWay h table elements.now way) }
    {
        let walk = Walk::new(alloc, elements)?;
        Ok(OnTheWay {
            replica,
            judged: 0,
            fault: None,
            walk,
        })
    }

    /// Judges the replica's next operation, if there is one and no fault so far.
    fn go_on(
        &mut self,
        elements: &Elements,
        changes: &Changes,
        sight: &Sight,
        recording: &Recording,
    ) -> Result<(), Memory>
        requires judge { CanJudge recording.now sight.now elements.now changes.now }
        requires on_the_way { IsOnTheWay recording.now sight.now elements.now self.old }
        ensures replica { OnOk result (self.new.replica ≡ self.old.replica) }
        ensures on_the_way { OnOk result (IsOnTheWay recording.now sight.now elements.now self.new) }
        ensures more { OnOk result (GoesOn recording.now self.old self.new) }
    {
        if self.fault.is_some() || self.judged >= recording.count(self.replica) {
            return Ok(());
        }
        let e = OpName {
            replica: self.replica,
            n: self.judged + 1,
        };
        self.fault = self.walk.judge(elements, changes, sight, recording, e)?;
        self.judged += 1;
        Ok(())
    }

    /// Judges all operations of the replica that are left, up to its fault.
    fn finish(
        &mut self,
        elements: &Elements,
        changes: &Changes,
        sight: &Sight,
        recording: &Recording,
    ) -> Result<(), Memory>
        requires judge { CanJudge recording.now sight.now elements.now changes.now }
        requires on_the_way { IsOnTheWay recording.now sight.now elements.now self.old }
        ensures replica { OnOk result (self.new.replica ≡ self.old.replica) }
        ensures on_the_way { OnOk result (IsOnTheWay recording.now sight.now elements.now self.new) }
        ensures end { OnOk result (IsAtTheEnd recording.now self.new) }
    {
        for _ in self.judged..recording.count(self.replica) {
            self.go_on(elements, changes, sight, recording)?;
        }
        Ok(())
    }
}

/// Judges the operations of these replicas, as far as the first fault of the first that has one. They take
/// turns in the order in which they stand in the recording, for which memory is read from one end to the
/// other.
///
/// It costs the places of the replicas' responses, the entries of the recording, and for each replica the
/// operations that it sees and some bytes for each element. The walks of all these replicas stand at once,
/// and what they keep stands twice when it is put together.
pub fn walk_all(
    alloc: Global,
    elements: &Elements,
    changes: &Changes,
    sight: &Sight,
    recording: &Recording,
    replicas: &[u32],
) -> Result<Walked, Memory>
    requires { CanJudge recording.now sight.now elements.now changes.now }
    ensures { IfOk result (IsWalked recording.now (element_names elements.now) replicas.now) }
{
    let mut ways = begin_all(alloc, elements, replicas)?;
    take_turns(&mut ways, elements, changes, sight, recording, replicas)?;
    let mut covering = Covering::new(alloc);
    for k in 0..replicas.len() {
        let way = &mut ways[k];
        way.finish(elements, changes, sight, recording)?;
        match way.fault {
            Some(fault) => return Ok(Walked::Wrong(fault)),
            None => covering.append(&way.walk.covering)?,
        }
    }
    Ok(Walked::Right(covering))
}

/// These replicas before their first operations.
fn begin_all(alloc: Global, elements: &Elements, replicas: &[u32]) -> Result<Vec<OnTheWay>, Memory>
    ensures { IfOk result (λ ways. (h : History) (table : SightTable)
        → AreOnTheWay h table elements.now replicas.now ways.items) }
{
    let mut ways = Vec::with_capacity(alloc, replicas.len())?;
    for r in replicas {
        ways.push(OnTheWay::new(alloc, elements, *r)?)?;
    }
    Ok(ways)
}

/// Goes through the recording, and judges an operation of a replica where one stands, but none of a replica
/// behind one whose fault is found. That all operations are judged is not promised.
fn take_turns(
    ways: &mut Vec<OnTheWay>,
    elements: &Elements,
    changes: &Changes,
    sight: &Sight,
    recording: &Recording,
    replicas: &[u32],
) -> Result<(), Memory>
    requires judge { CanJudge recording.now sight.now elements.now changes.now }
    requires on_the_way { AreOnTheWay recording.now sight.now elements.now replicas.now ways.old.items }
    ensures { OnOk result (AreOnTheWay recording.now sight.now elements.now replicas.now ways.new.items) }
{
    let mut end = ways.len();
    for i in 0..recording.len() {
        let Some(k) = turn_at(recording, i, replicas) else {
            continue;
        };
        if k < end {
            let way = &mut ways[k];
            way.go_on(elements, changes, sight, recording)?;
            if way.fault.is_some() {
                end = k;
            }
        }
    }
    Ok(())
}

/// The place among these replicas, where they follow one another, of the one that has an operation at the
/// i-th entry; it may be past the last of them. It decides cost alone.
fn turn_at(recording: &Recording, i: u32, replicas: &[u32]) -> Option<usize> {
    let first = replicas.first()?;
    let entry = recording.entry(i)?;
    match &entry.body {
        Body::Recv { .. } => None,
        _ => Some(entry.replica.checked_sub(*first)? as usize),
    }
}
