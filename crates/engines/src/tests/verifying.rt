//! A trace that is faulty long before its end: the check of a certificate reads it whole, a run does not.

use super::pages::{Page, Script};
use super::trials::{Failing, NEVER, Trial, tried};
use crate::certified::run_cert;
use crate::status::{RunFault, Status};
use byte_streams::{Sink, Source};
use std::alloc::Global;
use std::io::ErrorKind;
use std::thread::Threads;
use trace_text::{Cause, LineFault};

/// A trace whose third line is faulty, and whose others are right.
const FAULTY: &str = "trace 1\nreplicas 1\nno entry\n0 ins a 0 : a\n0 del a :\n0 read :\n";

const CERTIFICATE: &str = "cert 1\naccepted\norder : a\n";

/// Whether the trace's last of so many reads failed, and the certificate was left alone.
fn fails_in_the_trace(check: &Trial<'_, '_>, reads: u32) -> bool {
    check.answer == Err(RunFault::Read)
        && check.trace.reads == reads
        && check.cert.reads == 0
        && check.page.writes == 0
}

#[test]
fn reads_that_fail_behind_the_fault(rt: HostRuntime) {
    // 61 bytes are 9 reads, and one more shows the end. The faulty line ends within the fourth.
    for read in 1..=10 {
        let failing = Failing {
            read,
            write: 0,
            cause: ErrorKind::Interrupted,
        };
        let check = tried(&rt, rt.alloc(), FAULTY, Some(CERTIFICATE), failing);
        assert!(rt; fails_in_the_trace(&check, read), "at {read}");
    }
}

#[test]
fn a_run_reads_no_further_than_the_fault(rt: HostRuntime) {
    let shape = LineFault {
        line: 3,
        cause: Cause::Shape,
    };
    let trial = tried(&rt, rt.alloc(), FAULTY, None, NEVER);
    assert!(rt; trial.answer == Err(RunFault::Trace(shape)));
    assert!(rt; trial.trace.reads == 4 && trial.page.writes == 0);
}

/// What a certificate's engine answers to the faulty trace, and its reads and writes.
fn certified<H: Threads + Sync>(rt: &H, alloc: Global) -> (Result<Status, RunFault>, u32, u32) {
    let mut trace = Script::new(FAULTY, 7, 0);
    let mut page = Page::new(1, 0);
    let answer = run_cert(
        rt,
        alloc,
        &mut Source::new(&mut trace),
        &mut Sink::new(&mut page),
    );
    (answer, trace.reads, page.writes)
}

#[test]
fn a_certificate_reads_no_further_than_the_fault(rt: HostRuntime) {
    let shape = LineFault {
        line: 3,
        cause: Cause::Shape,
    };
    // Where memory is missing, it is tried again.
    let (answer, reads, writes) = match certified(&rt, rt.alloc()) {
        (Err(RunFault::Memory), ..) => certified(&rt, rt.alloc()),
        first => first,
    };
    assert!(rt; answer == Err(RunFault::Trace(shape)));
    assert!(rt; reads == 4 && writes == 0);
}

#[test]
fn faulty_trace_is_read_to_its_end(rt: HostRuntime) {
    let check = tried(&rt, rt.alloc(), FAULTY, Some(CERTIFICATE), NEVER);
    assert!(rt; check.answer == Ok(Status::Bad));
    assert!(rt; check.page.text() == b"no trace\n".as_slice());
    // The certificate's 26 bytes are 4 reads, and one more shows the end.
    assert!(rt; check.trace.reads == 10 && check.cert.reads == 5);
}

/// Whether the check says this of the texts, and ends badly.
fn says_no(check: &Trial<'_, '_>, line: &str) -> bool {
    check.answer == Ok(Status::Bad) && check.page.text() == line.as_bytes()
}

#[test]
fn texts_that_spell_nothing_are_answered(rt: HostRuntime) {
    let right = "trace 1\nreplicas 1\n0 ins a 0 : a\n";
    for trace in ["", "\n", "trace 1", "trace 1\n", FAULTY] {
        for claim in ["", CERTIFICATE] {
            let check = tried(&rt, rt.alloc(), trace, Some(claim), NEVER);
            assert!(rt; says_no(&check, "no trace\n"), "of {trace} and {claim}");
        }
    }
    for claim in [
        "",
        "\n",
        "cert 1",
        "cert 1\n",
        "cert 1\naccepted\norder : a",
    ] {
        let check = tried(&rt, rt.alloc(), right, Some(claim), NEVER);
        assert!(rt; says_no(&check, "no text\n"), "of {claim}");
    }
}

#[test]
fn right_trace_is_judged(rt: HostRuntime) {
    let text = "trace 1\nreplicas 1\n0 ins a 0 : a\n";
    let check = tried(&rt, rt.alloc(), text, Some(CERTIFICATE), NEVER);
    assert!(rt; check.answer == Ok(Status::Good));
    assert!(rt; check.page.text() == b"yes accepted\n".as_slice());
    assert!(rt; check.trace.reads == 6 && check.cert.reads == 5);
}
