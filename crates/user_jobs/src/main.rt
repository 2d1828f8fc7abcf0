//! The jobs that a user of this software waits for, on sessions that are made up from a seed. It prints one
//! number for all results, and no times: `user_jobs JOB SEED` does a job, and without words, or with the word
//! `every`, it does each job at a small scale.
#![tactic(auto)]

mod digest;
mod jobs;
mod judged;
mod short;
mod user;

use anyhow::{Context, Result, anyhow};
use digest::Digest;
use jobs::{Scale, awkward, certificates, fronts, lively, long, refused, short};
use std::alloc::Global;
use std::env;
use std::sync::Wait;
use std::thread::Threads;
use user::User;

/// The jobs.
const JOBS: [&str; 7] = [
    "long",
    "short",
    "refused",
    "certificates",
    "live",
    "awkward",
    "front",
];

/// Does the job of this name, and answers the digest of its results.
fn work<H: Threads + Wait + Sync>(
    rt: &H,
    alloc: Global,
    job: &str,
    seed: u64,
    scale: Scale,
) -> Result<Digest> {
    let mut user = User::new(rt, alloc);
    match job {
        "long" => long(&mut user, seed, scale)?,
        "short" => short(&mut user, seed, scale)?,
        "refused" => refused(&mut user, seed, scale)?,
        "certificates" => certificates(&mut user, seed, scale)?,
        "live" => lively(&mut user, seed, scale)?,
        "awkward" => awkward(&mut user, seed, scale)?,
        "front" => fronts(&mut user, seed, scale)?,
        _ => return Err(anyhow!("no such job: {job}")),
    }
    Ok(user.digest)
}

fn main(rt: HostRuntime) -> Result<()> {
    let alloc = rt.alloc();
    let words: Vec<String> = env::args(&rt)?.collect(alloc)?;
    let job = match words.get(1) {
        Some(job) => job.as_str(),
        None => "every",
    };
    let seed = match words.get(2) {
        Some(word) => word.parse::<u64>().context("the seed is no number")?,
        None => 1,
    };
    if job != "every" {
        let digest = work(&rt, alloc, job, seed, Scale::Full)?;
        println!(rt; "{job} {digest}")?;
        return Ok(());
    }
    for job in JOBS {
        let digest = work(&rt, alloc, job, seed, Scale::Small)?;
        println!(rt; "{job} {digest}")?;
    }
    Ok(())
}
