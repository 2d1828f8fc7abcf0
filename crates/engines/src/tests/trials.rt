//! Engines over readers of 7 bytes a read and a writer of one byte a write, of which a call may fail.

use super::pages::{Page, Script};
use crate::reported::run;
use crate::status::{RunFault, Status};
use crate::verified::run_verify;
use byte_streams::{Sink, Source};
use command_line::Form;
use std::alloc::Global;
use std::io::ErrorKind;
use std::thread::Threads;

/// Which read of the trace fails and which write, from 1, none where it is 0, and what for.
#[derive(Clone, Copy)]
pub struct Failing {
    pub read: u32,
    pub write: u32,
    pub cause: ErrorKind,
}

/// No call fails.
pub const NEVER: Failing = Failing {
    read: 0,
    write: 0,
    cause: ErrorKind::Other,
};

/// What an engine answered, and what it did to its streams. A run leaves the certificate alone.
#[derive(Drop)]
pub struct Trial<'t, 'c> {
    pub trace: Script<'t>,
    pub cert: Script<'c>,
    pub page: Page,
    pub answer: Result<Status, RunFault>,
}

/// What a run on the trace answers, or a check of the certificate.
fn answered<H: Threads + Sync>(
    rt: &H,
    alloc: Global,
    is_check: bool,
    trace: &mut Script<'_>,
    cert: &mut Script<'_>,
    page: &mut Page,
) -> Result<Status, RunFault> {
    let mut source = Source::new(trace);
    let mut sink = Sink::new(page);
    if is_check {
        return run_verify(rt, alloc, &mut source, &mut Source::new(cert), &mut sink);
    }
    run(rt, alloc, &mut source, &mut sink, 4, Form::Text)
}

/// A run on the trace, or a check of the certificate that is given, in which these calls fail; where the
/// first finds no memory, the second.
pub fn tried<'t, 'c, H: Threads + Sync>(
    rt: &H,
    alloc: Global,
    text: &'t str,
    certificate: Option<&'c str>,
    failing: Failing,
) -> Trial<'t, 'c> {
    let is_check = certificate.is_some();
    let claim = certificate.unwrap_or("");
    let once = || {
        let mut trace = Script::new(text, 7, failing.read).for_cause(failing.cause);
        let mut cert = Script::new(claim, 7, 0);
        let mut page = Page::new(1, failing.write);
        page.cause = failing.cause;
        let answer = answered(rt, alloc, is_check, &mut trace, &mut cert, &mut page);
        Trial {
            trace,
            cert,
            page,
            answer,
        }
    };
    let first = once();
    if first.answer == Err(RunFault::Memory) {
        return once();
    }
    first
}
