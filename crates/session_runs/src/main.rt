//! A test of sessions, as a program. Recorders hand in the streams of a recording in a hundred interleavings,
//! and then ten times in threads: each session's recording has the same verdict, and the same reports byte
//! for byte. The recording is read from standard input. Before that, recorders may be refused memory, and
//! replays stall and are resumed.
//!
//! It is a program so that `sessions` needs no crate above `verdict`, and so that the builds of both
//! compilers are run.
#![tactic(auto)]

mod interleaved;
mod planned;
mod recorders;
mod reports;
mod stalled;
mod threads;
mod told;

use anyhow::{Result, anyhow};
use events::Recording;
use interleaved::interleaved;
use reports::{Reports, reports_of};
use stalled::stalled_and_resumed;
use std::io;
use std::io::{Read, Write};
use std::sync::Wait;
use std::thread::Threads;
use threads::replayed_by_threads;
use told::{SESSIONS, refusals_met};

/// How many interleavings are tried, and how many runs of threads.
const INTERLEAVINGS: u64 = 100;

const RUNS: u32 = 10;

/// How many of the orders in which entries were recorded are different, where each recording has the same
/// reports.
fn orders<H: AllocGlobal + Threads + Wait + Sync>(
    rt: &H,
    recording: &Recording,
    wanted: &Reports,
) -> Result<usize> {
    let alloc = rt.alloc();
    let mut orders = Vec::new(alloc);
    for seed in 0..INTERLEAVINGS {
        let merged = interleaved(rt, recording, seed)?;
        if !wanted.are(&reports_of(rt, alloc, &merged)?) {
            return Err(anyhow!("an interleaving has other reports"));
        }
        let order = order_of(&merged);
        if !orders.contains(&order) {
            orders.push(order)?;
        }
    }
    Ok(orders.len())
}

/// A number for the order of the replicas whose entries were recorded; different orders have different
/// ones, most likely.
fn order_of(recording: &Recording) -> u64 {
    let mut order = 0u64;
    for i in 0..recording.len() {
        if let Some(entry) = recording.entry(i) {
            order = order
                .wrapping_mul(1_099_511_628_211)
                .wrapping_add(u64::from(entry.replica) + 1);
        }
    }
    order
}

/// Whether so many runs of threads have the same reports.
fn threads_agree<H: AllocGlobal + Threads + Wait + Sync>(
    rt: &H,
    recording: &Recording,
    wanted: &Reports,
) -> Result<bool> {
    for _ in 0..RUNS {
        let merged = replayed_by_threads(rt, rt.alloc(), recording)?;
        if !wanted.are(&reports_of(rt, rt.alloc(), &merged)?) {
            return Ok(false);
        }
    }
    Ok(true)
}

fn main(rt: HostRuntime) -> Result<()> {
    let met = refusals_met(&rt)?;
    println!(rt; "{SESSIONS} sessions, each with what its recorders were told")?;
    println!(rt; "in {met} of them memory was refused")?;
    let alloc = rt.alloc();
    let mut trace = Vec::new(alloc);
    rt.reader().read_to_end(&mut trace)?;
    let recording = trace_text::read(alloc, &trace)?;
    let wanted = reports_of(&rt, alloc, &recording)?;
    io::writer(&rt).write_all(&stalled_and_resumed(&rt)?)?;
    io::writer(&rt).write_all(wanted.text())?;
    let orders = orders(&rt, &recording, &wanted)?;
    println!(rt; "{orders} interleavings, the same reports")?;
    if threads_agree(&rt, &recording, &wanted)? {
        println!(rt; "{RUNS} runs of threads, the same reports")?;
    }
    Ok(())
}
