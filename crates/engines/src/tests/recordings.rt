//! Worked recordings through each engine.

use super::pages::{Page, Script};
use crate::reported::run;
use crate::status::{RunFault, Status};
use byte_streams::{Sink, Source};
use command_line::Form;
use events::Refusal;
use std::alloc::Global;
use std::thread::Threads;
use trace_text::{Cause, LineFault};

/// More than any text here has bytes.
const LARGE: usize = 4096;

/// What a run says of the text, and what it wrote; where the first finds no memory, what the second says and
/// writes.
fn ran<H: Threads + Sync>(
    rt: &H,
    alloc: Global,
    text: &str,
    workers: u32,
    form: Form,
) -> (Result<Status, RunFault>, Page) {
    let once = || {
        let mut page = Page::new(LARGE, 0);
        let mut source = Source::new(Script::new(text, LARGE, 0));
        let mut sink = Sink::new(&mut page);
        let answer = run(rt, alloc, &mut source, &mut sink, workers, form);
        (answer, page)
    };
    match once() {
        (Err(RunFault::Memory), _) => once(),
        answer => answer,
    }
}

/// Whether a run on the text writes this report and ends with this status.
fn reports<H: Threads + Sync>(
    rt: &H,
    alloc: Global,
    text: &str,
    workers: u32,
    form: Form,
    report: &str,
    status: Status,
) -> bool {
    let (answer, page) = ran(rt, alloc, text, workers, form);
    answer == Ok(status) && page.text() == report.as_bytes()
}

/// Whether a run on the text ends with this fault of a line and writes nothing.
fn is_refused<H: Threads + Sync>(rt: &H, alloc: Global, text: &str, fault: LineFault) -> bool {
    let (answer, page) = ran(rt, alloc, text, 4, Form::Text);
    answer == Err(RunFault::Trace(fault)) && page.text().is_empty()
}

/// Whether a run refuses so many workers, and neither reads nor writes.
fn refuses_workers<H: Threads + Sync>(rt: &H, alloc: Global, workers: u32) -> bool {
    let mut page = Page::new(LARGE, 0);
    let mut script = Script::new("trace 1\n", LARGE, 0);
    let mut source = Source::new(&mut script);
    let mut sink = Sink::new(&mut page);
    let answer = run(rt, alloc, &mut source, &mut sink, workers, Form::Text);
    answer == Err(RunFault::Workers) && script.reads == 0 && page.writes == 0
}

/// Recordings with their reports and statuses.
static ROWS: [(&str, &str, Status); 19] = [
    // The empty recording.
    (
        "trace 1\nreplicas 1\n",
        "replicas 1 operations 0 inserts 0\naccepted\nstrong yes\nweak yes\norder :\n",
        Status::Good,
    ),
    // Insert, delete, read.
    (
        "trace 1\nreplicas 1\n0 ins a 0 : a\n0 del a :\n0 read :\n",
        "replicas 1 operations 3 inserts 1\naccepted\nstrong yes\nweak yes\norder : a\n",
        Status::Good,
    ),
    // The three-way cycle, the opposite pair and the ring of four.
    (
        "trace 1\nreplicas 3\n0 ins x 0 : x\n1 recv 0 1\n2 recv 0 1\n1 ins a 0 : a x\n2 ins b 1 : x b\n0 del x :\n0 recv 1 1\n0 recv 2 1\n0 read : b a\n",
        "replicas 3 operations 5 inserts 3\nrefused 3\nstrong no\nweak yes\nstep x b 2.1 : x b\nstep b a 0.3 : b a\nstep a x 1.1 : a x\n",
        Status::Bad,
    ),
    (
        "trace 1\nreplicas 2\n0 ins a 0 : a\n1 ins b 0 : b\n0 recv 1 1\n1 recv 0 1\n0 read : a b\n1 read : b a\n",
        "replicas 2 operations 4 inserts 2\nrefused 2\nstrong no\nweak no\nstep a b 0.2 : a b\nstep b a 1.2 : b a\n",
        Status::Bad,
    ),
    (
        "trace 1\nreplicas 6\n0 ins a 0 : a\n1 ins b 0 : b\n2 recv 0 1\n2 recv 1 1\n2 read : a b\n3 recv 1 1\n3 ins c 1 : b c\n4 recv 3 1\n4 del b : c\n4 ins d 1 : c d\n5 recv 4 2\n5 del c : d\n5 recv 0 1\n5 read : d a\n",
        "replicas 6 operations 8 inserts 4\nrefused 4\nstrong no\nweak yes\nstep a b 2.1 : a b\nstep b c 3.1 : b c\nstep c d 4.2 : c d\nstep d a 5.2 : d a\n",
        Status::Bad,
    ),
    // A read shows a deleted element.
    (
        "trace 1\nreplicas 1\n0 ins a 0 : a\n0 del a :\n0 read : a\n",
        "replicas 1 operations 3 inserts 1\ncontents 0.3\nstrong no\nweak no\n",
        Status::Bad,
    ),
    // A repeated name in a response.
    (
        "trace 1\nreplicas 1\n0 ins a 0 : a\n0 read : a a\n",
        "replicas 1 operations 2 inserts 1\ncontents 0.2\nstrong no\nweak no\n",
        Status::Bad,
    ),
    // A chain of receipts: the first insert is visible after two of them.
    (
        "trace 1\nreplicas 3\n0 ins a 0 : a\n1 recv 0 1\n1 ins b 1 : a b\n2 recv 1 1\n2 read : b\n",
        "replicas 3 operations 3 inserts 2\ncontents 2.1\nstrong no\nweak no\n",
        Status::Bad,
    ),
    (
        "trace 1\nreplicas 3\n0 ins a 0 : a\n1 recv 0 1\n1 ins b 1 : a b\n2 recv 1 1\n2 read : a b\n",
        "replicas 3 operations 3 inserts 2\naccepted\nstrong yes\nweak yes\norder : a b\n",
        Status::Good,
    ),
    // An insert past the end, at the end and elsewhere.
    (
        "trace 1\nreplicas 1\n0 ins a 0 : a\n0 ins b 4294967295 : a b\n",
        "replicas 1 operations 2 inserts 2\naccepted\nstrong yes\nweak yes\norder : a b\n",
        Status::Good,
    ),
    (
        "trace 1\nreplicas 1\n0 ins a 0 : a\n0 ins b 4294967295 : b a\n",
        "replicas 1 operations 2 inserts 2\nposition 0.2\nstrong no\nweak no\n",
        Status::Bad,
    ),
    // A doubled name, both ways round.
    (
        "trace 1\nreplicas 2\n0 ins a 0 : a\n0 ins b 1 : a b\n1 ins b 0 : b\n",
        "replicas 2 operations 3 inserts 3\ndoubled 0.2 1.1\n",
        Status::Bad,
    ),
    (
        "trace 1\nreplicas 2\n1 ins b 0 : b\n0 ins a 0 : a\n0 ins b 1 : a b\n",
        "replicas 2 operations 3 inserts 3\ndoubled 0.2 1.1\n",
        Status::Bad,
    ),
    // A doubled name comes before other faults.
    (
        "trace 1\nreplicas 1\n0 read : q\n0 ins a 0 : a\n0 ins a 0 : a\n",
        "replicas 1 operations 3 inserts 2\ndoubled 0.2 0.3\n",
        Status::Bad,
    ),
    // Deleted before it is inserted.
    (
        "trace 1\nreplicas 1\n0 del a :\n0 ins a 0 :\n",
        "replicas 1 operations 2 inserts 1\nposition 0.2\nstrong no\nweak no\n",
        Status::Bad,
    ),
    // A receipt that is repeated.
    (
        "trace 1\nreplicas 2\n0 ins a 0 : a\n1 recv 0 1\n1 recv 0 1\n1 read : a\n",
        "replicas 2 operations 2 inserts 1\naccepted\nstrong yes\nweak yes\norder : a\n",
        Status::Good,
    ),
    // Two inserts that do not see each other, and then one that sees both.
    (
        "trace 1\nreplicas 2\n0 ins a 0 : a\n1 ins b 0 : b\n",
        "replicas 2 operations 2 inserts 2\naccepted\nstrong yes\nweak yes\norder : a b\n",
        Status::Good,
    ),
    (
        "trace 1\nreplicas 2\n0 ins a 0 : a\n1 ins b 0 : b\n0 recv 1 1\n0 read : b a\n",
        "replicas 2 operations 3 inserts 2\naccepted\nstrong yes\nweak yes\norder : b a\n",
        Status::Good,
    ),
    // Contents come before position at one operation.
    (
        "trace 1\nreplicas 1\n0 ins a 0 : a\n0 ins b 0 : a q\n",
        "replicas 1 operations 2 inserts 2\ncontents 0.2\nstrong no\nweak no\n",
        Status::Bad,
    ),
];

#[test]
fn worked_recordings(rt: HostRuntime) {
    for (text, report, status) in ROWS.iter().copied() {
        let as_worked = reports(&rt, rt.alloc(), text, 4, Form::Text, report, status);
        assert!(rt; as_worked, "at {text}");
    }
}

#[test]
fn any_number_of_workers(rt: HostRuntime) {
    // The three-way cycle, the opposite pair and the ring of four.
    for row in [2, 3, 4] {
        let (text, report, status) = ROWS[row];
        for workers in [1, 2, 7, 64] {
            let as_worked = reports(&rt, rt.alloc(), text, workers, Form::Text, report, status);
            assert!(rt; as_worked, "at {workers} {text}");
        }
    }
}

#[test]
fn reports_as_json(rt: HostRuntime) {
    let rows = [
        (
            0,
            "{\"inserts\":0,\"operations\":0,\"order\":[],\"replicas\":1,\"strong\":true,\"verdict\":\"accepted\",\"weak\":true}\n",
        ),
        (
            11,
            "{\"again\":\"1.1\",\"first\":\"0.2\",\"inserts\":3,\"operations\":3,\"replicas\":2,\"verdict\":\"doubled\"}\n",
        ),
    ];
    for (row, report) in rows {
        let (text, _, status) = ROWS[row];
        let as_worked = reports(&rt, rt.alloc(), text, 4, Form::Json, report, status);
        assert!(rt; as_worked, "at {text}");
    }
}

#[test]
fn faulty_lines(rt: HostRuntime) {
    let rows = [
        ("", 1, Cause::Header),
        ("trace 1", 1, Cause::Cut),
        ("trace 1\n", 2, Cause::Replicas),
        ("trace 1\nreplicas 1\n0 read :", 3, Cause::Cut),
        ("trace 1\nreplicas 1\n0  read :\n", 3, Cause::Shape),
        (
            "trace 1\nreplicas 1\n1 read :\n",
            3,
            Cause::Refused(Refusal::NoReplica),
        ),
        (
            "trace 1\nreplicas 2\n0 ins a 0 : a\n1 recv 0 2\n",
            4,
            Cause::Refused(Refusal::NotYet { have: 1 }),
        ),
        (
            "trace 1\nreplicas 2\n0 ins a 0 : a\n0 recv 0 1\n",
            4,
            Cause::Refused(Refusal::OwnReceipt),
        ),
    ];
    for (text, line, cause) in rows {
        let refused = is_refused(&rt, rt.alloc(), text, LineFault { line, cause });
        assert!(rt; refused, "at {text}");
    }
}

#[test]
fn workers_out_of_range(rt: HostRuntime) {
    for workers in [0, 65, 4294967295] {
        assert!(rt; refuses_workers(&rt, rt.alloc(), workers), "{workers}");
    }
}
