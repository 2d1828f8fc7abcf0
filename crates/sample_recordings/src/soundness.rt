//! Whether a recording is sound.

ghost use Rattle.std.specs.Prelude.{IfOk, OnOk, MatchOption, ⊤};
ghost use Rattle.specification.specs.Faults.{IsSound};
ghost use Rattle.specification.specs.Visibility.{IsSightOf};

use contents_check::{Fault, first_fault};
use events::{Memory, Recording};
use std::alloc::Global;
use std::test::Fail;
use std::thread::Threads;
use visibility::Sight;

fn sight_of(alloc: Global, recording: &Recording) -> Result<Sight, Memory>
    ensures { IfOk result (λ s. IsSightOf recording.now s) }
{
    match Sight::of(alloc, recording) {
        Ok(sight) => Ok(sight),
        Err(Memory) => Sight::of(alloc, recording),
    }
}

/// The first fault of a recording; none says that it is sound.
fn fault(
    rt: &(impl Threads + Sync),
    alloc: Global,
    recording: &Recording,
) -> Result<Option<Fault>, Memory>
    ensures { IfOk result (λ found. MatchOption found (IsSound recording.now) (λ fault. ⊤)) }
{
    let sight = sight_of(alloc, recording)?;
    match first_fault(rt, alloc, recording, &sight) {
        Ok(found) => Ok(found),
        Err(Memory) => first_fault(rt, alloc, recording, &sight),
    }
}

/// Fails unless a recording is sound.
pub fn check_sound(
    rt: &(impl Threads + Sync),
    alloc: Global,
    recording: &Recording,
) -> Result<(), Fail>
    ensures { OnOk result (IsSound recording.now) }
{
    match fault(rt, alloc, recording)? {
        Some(_) => Err("the recording has a fault")?,
        None => Ok(()),
    }
}
