//! The least orders of recordings, and what is taken in turn. Recordings must be sound. A call that finds no
//! memory is made again.
ghost use Rattle.specification.specs.Faults.{IsSound};

use events::{Memory, Name, Recording};
use order_graph::OrderGraph;
use sample_recordings::check_sound;
use std::alloc::Global;
use std::test::Fail;
use std::thread::Threads;
use witness_order::{Order, order, taken};

fn found_of(alloc: Global, recording: &Recording) -> Result<(Vec<u32>, Option<Order>), Memory>
    requires { IsSound recording.now }
{
    let graph = OrderGraph::of(alloc, recording)?;
    let numbers = taken(alloc, &graph)?;
    let order = order(alloc, &graph)?;
    Ok((numbers, order))
}

/// The numbers of the elements of a recording that are taken in turn, and its least order.
pub fn taken_and_order(
    rt: &(impl Threads + Sync),
    alloc: Global,
    recording: &Recording,
) -> Result<(Vec<u32>, Option<Order>), Fail> {
    check_sound(rt, alloc, recording)?;
    match found_of(alloc, recording) {
        Ok(found) => Ok(found),
        Err(Memory) => Ok(found_of(alloc, recording)?),
    }
}

/// The least order of a recording.
pub fn least_order(
    rt: &(impl Threads + Sync),
    alloc: Global,
    recording: &Recording,
) -> Result<Option<Order>, Fail> {
    let (_, order) = taken_and_order(rt, alloc, recording)?;
    Ok(order)
}

/// Puts a name at the end of some names.
pub fn push_name(names: &mut Vec<Name>, name: Name) -> Result<(), Fail> {
    match names.push(name) {
        Ok(()) => Ok(()),
        Err(refused) => Ok(names.push(refused.value)?),
    }
}
