//! The operations of a recording, and what they returned.

ghost use Rattle.std.specs.Prelude.{◌≡◌, IfOk, OnOk, MatchOption, ◌++◌, map};
ghost use Rattle.events.specs.History.{IsLegal};
ghost use Rattle.events.specs.Operations.{count, numbers_from, operation_names, response, IsOperation};

use super::{Body, Memory, OpName, Recording, Response};
use std::alloc::Global;

impl Recording {
    /// The names of all operations, in order: replica by replica, from 1 on. It takes memory and time in
    /// their number, at most 262,144.
    pub fn operations(&self, alloc: Global) -> Result<Vec<OpName>, Memory>
        ensures names { IfOk result (λ names. names.items ≡ operation_names self.now) }
        ensures legal { IsLegal self.now }
    {
        let mut names = Vec::with_capacity(alloc, self.operation_count())?;
        for r in 0..self.replicas() {
            add_replica(&mut names, r, self.count(r))?;
        }
        Ok(names)
    }

    /// How many operations there are. It decides cost alone.
    fn operation_count(&self) -> usize
        ensures legal { IsLegal self.now }
    {
        let mut count: u32 = 0;
        for q in 0..self.replicas() {
            count = count.saturating_add(self.count(q));
        }
        count as usize
    }

    /// What an operation returned; none where there is no such operation.
    pub fn response(&self, name: OpName) -> Option<&Response>
        ensures { MatchOption result (¬ IsOperation self.now name) (λ w. response self.now name ≡ w.now) }
    {
        match self.operation(name)? {
            Body::Ins { response, .. } => Some(response),
            Body::Del { response, .. } => Some(response),
            Body::Read { response } => Some(response),
            Body::View { response } => Some(response),
            Body::Recv { .. } => None,
        }
    }
}

/// Adds the names of a replica's operations, of which there are `count`.
fn add_replica(names: &mut Vec<OpName>, r: u32, count: u32) -> Result<(), Memory>
    ensures { OnOk result (names.new.items ≡ names.old.items ++ map
        (λ n. record { replica = r; n = n }) (numbers_from 1 count)) }
{
    for i in 0..count {
        names.push(OpName {
            replica: r,
            n: i + 1,
        })?;
    }
    Ok(())
}
