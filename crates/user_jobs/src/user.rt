//! What a user has done with a trace, by public calls: the same as the program's commands do.

use super::digest::Digest;
use super::short::first_sixteenths;
use anyhow::{Result, anyhow};
use cert_check::{Answer, check_recording};
use certificate::{NoGate, Verdict, judge, judge_and_write};
use events::Recording;
use rehearsal::rehearse;
use std::alloc::Global;
use std::sync::Wait;
use std::thread::Threads;
use trace_text::{LineFault, Reader};

/// How many bytes of a trace are handed on at once.
const PIECE: usize = 65_536;

/// How many workers `verdict` and `cert` have by default.
pub const WORKERS: u32 = 4;

/// The form of a report.
#[derive(Clone, Copy)]
pub enum Form {
    Text,
    Json,
}

/// A user at a machine, and a digest of all that the program has answered.
#[derive(Drop)]
pub struct User<'a, H> {
    rt: &'a H,
    pub alloc: Global,
    pub digest: Digest,
}

impl<'a, H> User<'a, H> {
    /// A user who was told nothing so far.
    pub fn new(rt: &'a H, alloc: Global) -> User<'a, H> {
        User {
            rt,
            alloc,
            digest: Digest::new(),
        }
    }

    /// Takes in the report of a verdict.
    fn take_report(&mut self, recording: &Recording, verdict: &Verdict, form: Form) -> Result<()> {
        let report = match form {
            Form::Text => report::text(self.alloc, recording, verdict)?,
            Form::Json => report::json(self.alloc, recording, verdict)?,
        };
        self.digest.bytes(&report);
        Ok(())
    }
}

impl<'a, H: Threads + Sync> User<'a, H> {
    /// Has a trace judged as `verdict` does, and takes in the report, or where the text does not read its
    /// fault.
    pub fn verdict(&mut self, trace: &[u8], workers: u32, form: Form) -> Result<()> {
        let recording = match read(self.alloc, trace) {
            Ok(recording) => recording,
            Err(fault) => {
                let line = format!(in self.alloc; "{fault}")?;
                self.digest.bytes(line.as_bytes());
                return Ok(());
            }
        };
        let verdict = judge(self.rt, self.alloc, &recording, workers, &NoGate)?;
        self.take_report(&recording, &verdict, form)
    }

    /// Has a session judged when so many sixteenths of its trace are there, for each of these, and when all
    /// is.
    pub fn verdict_as_it_grows(
        &mut self,
        trace: &[u8],
        sixteenths: &[usize],
        workers: u32,
        form: Form,
    ) -> Result<()> {
        for count in sixteenths {
            self.verdict(first_sixteenths(trace, *count), workers, form)?;
        }
        self.verdict(trace, workers, form)
    }

    /// Has a trace certified as `cert` does, and takes in the certificate and the verdict's report; and has
    /// the certificate checked as `verify` does, which must say yes, and takes in which yes it says.
    pub fn certify(&mut self, trace: &[u8]) -> Result<()> {
        let recording = recording_of(self.alloc, trace)?;
        let certified = judge_and_write(self.rt, self.alloc, &recording, WORKERS, &NoGate)?;
        let mut certificate = Vec::new(self.alloc);
        for text in &certified.texts {
            certificate.extend_from_slice(text)?;
        }
        self.digest.bytes(&certificate);
        self.take_report(&recording, &certified.verdict, Form::Text)?;
        match check_recording(self.rt, self.alloc, &recording, &certificate)? {
            Answer::Yes(kind) => {
                let yes = format!(in self.alloc; "{kind:?}")?;
                self.digest.bytes(yes.as_bytes());
                Ok(())
            }
            Answer::No(_) => Err(anyhow!("the certificate is not valid")),
        }
    }
}

impl<'a, H: Threads + Wait + Sync> User<'a, H> {
    /// Has a trace replayed in a live session and judged as `live` does, and takes in the report.
    pub fn live(&mut self, trace: &[u8]) -> Result<()> {
        let recording = recording_of(self.alloc, trace)?;
        let Ok(closed) = rehearse(self.rt, self.alloc, &recording, WORKERS, &NoGate) else {
            return Err(anyhow!("the session did not end well"));
        };
        let verdict = judge(self.rt, self.alloc, &closed, WORKERS, &NoGate)?;
        self.take_report(&closed, &verdict, Form::Text)
    }

    /// Has a live session of the first half of a trace, and one of all.
    pub fn live_as_it_grows(&mut self, trace: &[u8]) -> Result<()> {
        self.live(first_sixteenths(trace, 8))?;
        self.live(trace)
    }
}

/// Reads a trace piece by piece.
fn read(alloc: Global, trace: &[u8]) -> Result<Recording, LineFault> {
    let mut reader = Reader::new(alloc);
    for piece in trace.chunks(PIECE) {
        reader.feed(piece)?;
    }
    reader.end()
}

/// The recording of a trace that reads.
fn recording_of(alloc: Global, trace: &[u8]) -> Result<Recording> {
    match read(alloc, trace) {
        Ok(recording) => Ok(recording),
        Err(fault) => Err(anyhow!("{fault}")),
    }
}
