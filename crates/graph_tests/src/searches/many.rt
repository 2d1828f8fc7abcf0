//! Recordings of more elements than are searched from one and all.
ghost use Rattle.std.specs.Prelude.{◌<◌};

use super::conflicts::number_of;
use super::graphs::ask_of;
use events::{Body, Name, OpName, Recording, Response};
use level_search::Gate;
use sample_recordings::{THREE_WAY_CYCLE, add, push, recording};
use std::alloc::Global;
use std::sync::atomic::{AtomicU64, Ordering};
use std::test::Fail;
use std::thread::Threads;

const MANY: u8 = 70;

const ONE_ELEMENT: &str = "trace 1\nreplicas 1\n0 ins x 0 : x\n";

const ONE_OF_TWO: &str = "trace 1\nreplicas 2\n0 ins x 0 : x\n";

/// Counts the searches.
#[derive(Drop)]
struct Searches(AtomicU64);

impl Gate for Searches {
    fn before(&self, _worker: u32, _source: u32) {
        self.0.fetch_add(1, Ordering::SeqCst);
    }

    fn after(&self, _worker: u32, _source: u32) {}
}

/// The name with a number.
fn numbered(n: u8) -> Result<Name, Fail>
    requires { n < 100 }
{
    Ok(Name::new(&[b'e', b'0' + n / 10, b'0' + n % 10])?)
}

/// The elements that are seen and, after them, those with the numbers below n.
fn shown(alloc: Global, seen: &[&str], n: u8) -> Result<Response, Fail>
    requires { n < 100 }
{
    let mut response = Response::new(alloc);
    for text in seen {
        push(&mut response, Name::new(text.as_bytes())?)?;
    }
    for i in 0..n {
        push(&mut response, numbered(i)?)?;
    }
    Ok(response)
}

/// Lets replica 0 put many elements after those that it sees, one after the other.
fn put_behind(alloc: Global, recording: &mut Recording, seen: &[&str]) -> Result<(), Fail> {
    for n in 0..MANY {
        let name = numbered(n)?;
        let mut response = shown(alloc, seen, n)?;
        let at = u32::try_from(response.len())?;
        push(&mut response, name)?;
        add(recording, 0, Body::Ins { name, at, response })?;
    }
    Ok(())
}

/// Lets replica 1 see all that replica 0 put, with x, which replica 0 has first, at the end.
fn put_before(alloc: Global, recording: &mut Recording) -> Result<(), Fail> {
    let seen = OpName::new(0, u32::from(MANY) + 1).ok_or("no operation")?;
    add(recording, 1, Body::Recv { seen })?;
    let mut response = shown(alloc, &[], MANY)?;
    push(&mut response, Name::new(b"x")?)?;
    add(recording, 1, Body::Read { response })?;
    Ok(())
}

/// A recording with many elements after those that replica 0 sees at its end.
fn recording_behind(alloc: Global, text: &str, seen: &[&str]) -> Result<Recording, Fail> {
    let mut recording = recording(alloc, text)?;
    put_behind(alloc, &mut recording, seen)?;
    Ok(recording)
}

/// The conflict number of such a recording.
fn number_behind<G: Gate>(
    rt: &(impl Threads + Sync),
    alloc: Global,
    text: &str,
    seen: &[&str],
    gate: &G,
) -> Result<Option<u32>, Fail> {
    let recording = recording_behind(alloc, text, seen)?;
    ask_of(rt, alloc, &recording, |graph| {
        Ok(number_of(rt, alloc, graph, 2, gate)?)
    })
}

/// The conflict number where x stands before many elements, and after them.
fn number_round<G: Gate>(
    rt: &(impl Threads + Sync),
    alloc: Global,
    gate: &G,
) -> Result<Option<u32>, Fail> {
    let mut recording = recording_behind(alloc, ONE_OF_TWO, &["x"])?;
    put_before(alloc, &mut recording)?;
    ask_of(rt, alloc, &recording, |graph| {
        Ok(number_of(rt, alloc, graph, 2, gate)?)
    })
}

#[test]
fn one_search_where_all_cycles_meet(rt: HostRuntime) -> Result<(), Fail> {
    let searches = Searches(AtomicU64::new(0));
    let found = number_round(&rt, rt.alloc(), &searches)?;
    assert_eq!(rt; found, Some(2));
    assert_eq!(rt; searches.0.load(Ordering::SeqCst), 1);
    Ok(())
}

#[test]
fn no_search_from_what_stands_behind_a_cycle(rt: HostRuntime) -> Result<(), Fail> {
    let searches = Searches(AtomicU64::new(0));
    let found = number_behind(&rt, rt.alloc(), THREE_WAY_CYCLE, &["b", "a"], &searches)?;
    assert_eq!(rt; found, Some(3));
    assert_eq!(rt; searches.0.load(Ordering::SeqCst), 3);
    Ok(())
}

#[test]
fn no_search_where_the_core_is_empty(rt: HostRuntime) -> Result<(), Fail> {
    let searches = Searches(AtomicU64::new(0));
    let found = number_behind(&rt, rt.alloc(), ONE_ELEMENT, &["x"], &searches)?;
    assert_eq!(rt; found, None);
    assert_eq!(rt; searches.0.load(Ordering::SeqCst), 0);
    Ok(())
}
