//! A ring of layers whose lists hold one another: no list that another holds is looked at, and one search does for
//! the elements of a layer.
ghost use Rattle.std.specs.Prelude.{◌<◌};

use super::graphs::ask_of;
use super::steps::conflict_of;
use events::{Body, Name, OpName, Recording, Response};
use level_search::NoGate;
use sample_recordings::{add, push, recording};
use std::alloc::Global;
use std::test::Fail;
use std::thread::Threads;

const SIXTEEN_REPLICAS: &str = "trace 2\nreplicas 16\n";

/// How many replicas write the layers but the first, two elements of each.
const WRITERS: u32 = 12;

/// How many elements a layer has, and how many layers there are.
const LAYER: u32 = 24;

const LAYERS: u32 = 32;

/// The replica that shows each layer before the next one.
const VIEWER: u32 = 15;

/// The digit that counts so many.
fn digit(number: u32, place: u32) -> u8
    requires { 0 < place }
{
    b'0' + (number / place % 10) as u8
}

/// The name of the element with this number.
fn named(number: u32) -> Result<Name, Fail> {
    Ok(Name::new(&[
        b'e',
        digit(number, 100),
        digit(number, 10),
        digit(number, 1),
    ])?)
}

/// Adds the elements from one number to another.
fn push_from(response: &mut Response, from: u32, to: u32) -> Result<(), Fail> {
    for number in from..to {
        push(response, named(number)?)?;
    }
    Ok(())
}

/// A replica inserts the element with this number behind these, which it shows.
fn insert(
    alloc: Global,
    recording: &mut Recording,
    replica: u32,
    before: [(u32, u32); 2],
    number: u32,
) -> Result<(), Fail> {
    let mut response = Response::new(alloc);
    for (from, to) in before {
        push_from(&mut response, from, to)?;
    }
    let at = u32::try_from(response.len())?;
    let name = named(number)?;
    push(&mut response, name)?;
    add(recording, replica, Body::Ins { name, at, response })?;
    Ok(())
}

/// The viewer hears of an operation.
fn hear(recording: &mut Recording, replica: u32, n: u32) -> Result<(), Fail> {
    let seen = OpName::new(replica, n).ok_or("no operation")?;
    add(recording, VIEWER, Body::Recv { seen })?;
    Ok(())
}

/// The viewer shows one layer before another.
fn show(alloc: Global, recording: &mut Recording, first: u32, second: u32) -> Result<(), Fail> {
    let mut response = Response::new(alloc);
    for layer in [first, second] {
        let from = layer.saturating_mul(LAYER);
        push_from(&mut response, from, from.saturating_add(LAYER))?;
    }
    add(recording, VIEWER, Body::View { response })?;
    Ok(())
}

/// Three replicas insert the first layer.
fn put_first(alloc: Global, recording: &mut Recording) -> Result<(), Fail> {
    for silent in 0..3u32 {
        let from = silent.saturating_mul(8);
        for i in 0..8u32 {
            let number = from.saturating_add(i);
            let replica = WRITERS.saturating_add(silent);
            insert(alloc, recording, replica, [(from, number), (0, 0)], number)?;
        }
        hear(recording, WRITERS.saturating_add(silent), 8)?;
    }
    Ok(())
}

/// Where the two elements of a writer begin in a layer.
fn own(layer: u32, writer: u32) -> u32 {
    layer
        .saturating_mul(LAYER)
        .saturating_add(writer.saturating_mul(2))
}

/// The elements of the writer in the layer before, which it shows; none in the layer behind the first.
fn own_before(layer: u32, writer: u32) -> (u32, u32) {
    if layer < 2 {
        return (0, 0);
    }
    let from = own(layer.saturating_sub(1), writer);
    (from, from.saturating_add(2))
}

/// A writer deletes its two elements of the layer before, if it shows any.
fn delete_before(
    alloc: Global,
    recording: &mut Recording,
    layer: u32,
    writer: u32,
) -> Result<(), Fail> {
    let (from, to) = own_before(layer, writer);
    for number in from..to {
        let mut response = Response::new(alloc);
        push_from(&mut response, number.saturating_add(1), to)?;
        let here = own(layer, writer);
        push_from(&mut response, here, here.saturating_add(2))?;
        let name = named(number)?;
        add(recording, writer, Body::Del { name, response })?;
    }
    Ok(())
}

/// The writers insert a layer, the viewer shows it behind the one before, and that is deleted.
fn put_layer(alloc: Global, recording: &mut Recording, layer: u32) -> Result<(), Fail> {
    for writer in 0..WRITERS {
        let from = own(layer, writer);
        for number in from..from.saturating_add(2) {
            let before = [own_before(layer, writer), (from, number)];
            insert(alloc, recording, writer, before, number)?;
        }
    }
    // Each has inserted two elements a layer, and deleted those of all layers but the last two.
    let inserted = layer.saturating_mul(2);
    let deleted = layer.saturating_sub(2).saturating_mul(2);
    for writer in 0..WRITERS {
        hear(recording, writer, inserted.saturating_add(deleted))?;
    }
    show(alloc, recording, layer.saturating_sub(1), layer)?;
    for writer in 0..WRITERS {
        delete_before(alloc, recording, layer, writer)?;
    }
    Ok(())
}

/// Layers of elements, each shown before the next one, and the last before the first.
fn ring_of_layers(alloc: Global) -> Result<Recording, Fail> {
    let mut recording = recording(alloc, SIXTEEN_REPLICAS)?;
    put_first(alloc, &mut recording)?;
    for layer in 1..LAYERS {
        put_layer(alloc, &mut recording, layer)?;
    }
    show(alloc, &mut recording, LAYERS.saturating_sub(1), 0)?;
    Ok(recording)
}

/// The conflict number of the ring, and how many looks the searches took.
fn looks_in_layers(rt: &(impl Threads + Sync), alloc: Global) -> Result<(u32, u64), Fail> {
    let recording = ring_of_layers(alloc)?;
    ask_of(rt, alloc, &recording, |graph| {
        match conflict_of(rt, alloc, graph, 1, &NoGate)? {
            Some(found) => Ok((found.k, found.looked)),
            None => Err(Fail::from("no conflict")),
        }
    })
}

/// A search looks at 3,000 places: those of the viewer's 32 lists of 48, and 1,464 of what writers show, which are
/// four of each of 12 writers in 30 layers, and 24 in the first. It looks at each of these and of the 768 elements
/// once at most. Each cycle leads through one of the 24 elements of a layer. Where the first of them has told that
/// one has 32 steps, the others are looked at alone: 31 steps lead to what stands before them, from whichever.
#[test]
fn one_search_tells_of_a_whole_layer(rt: HostRuntime) -> Result<(), Fail> {
    let (k, looked) = looks_in_layers(&rt, rt.alloc())?;
    assert_eq!(rt; k, 32);
    assert!(rt; looked <= 32 * 48 + 1464 + 768 + 23, "{looked} looks");
    Ok(())
}
