//! Engines over readers and writers that fail.

use super::pages::{Page, Script};
use super::trials::{Failing, NEVER, Trial, tried};
use crate::status::{RunFault, Status};
use byte_streams::{ReadFault, Sink, Source, WriteFault};
use std::alloc::Global;
use std::io::ErrorKind;
use std::thread::Threads;

/// The three-way cycle, 132 bytes.
const THREE_WAY: &str =
    "trace 1\nreplicas 3\n0 ins x 0 : x\n1 recv 0 1\n2 recv 0 1\n1 ins a 0 : a x\n2 ins b 1 : x b\n0 del x :\n0 recv 1 1\n0 recv 2 1\n0 read : b a\n";

/// Its report, 120 bytes.
const REPORT: &[u8] =
    b"replicas 3 operations 5 inserts 3\nrefused 3\nstrong no\nweak yes\nstep x b 2.1 : x b\nstep b a 0.3 : b a\nstep a x 1.1 : a x\n";

/// What a call fails for. A system says of the last two that the call may be made again; it must not be.
const CAUSES: [ErrorKind; 3] = [
    ErrorKind::Other,
    ErrorKind::Interrupted,
    ErrorKind::WouldBlock,
];

/// Whether the run failed to read, at its last of so many reads, and wrote nothing.
fn fails_to_read(trial: &Trial<'_, '_>, reads: u32) -> bool {
    trial.answer == Err(RunFault::Read) && trial.trace.reads == reads && trial.page.writes == 0
}

/// Whether the run failed to write, at its last of so many writes, after the beginning of the report.
fn fails_to_write(trial: &Trial<'_, '_>, writes: u32, front: &[u8]) -> bool {
    trial.answer == Err(RunFault::Write)
        && trial.page.writes == writes
        && trial.page.text() == front
}

/// Whether the run wrote the whole report.
fn is_whole(trial: &Trial<'_, '_>) -> bool {
    trial.answer == Ok(Status::Bad) && trial.page.text() == REPORT
}

/// The first read at which a run does not fail as it must, where that read fails for this cause; none where
/// it does so at each.
fn first_unfailed_read<H: Threads + Sync>(rt: &H, alloc: Global, cause: ErrorKind) -> Option<u32> {
    for read in 1..=20 {
        let failing = Failing {
            read,
            write: 0,
            cause,
        };
        let trial = tried(rt, alloc, THREE_WAY, None, failing);
        if !fails_to_read(&trial, read) {
            return Some(read);
        }
    }
    None
}

#[test]
fn reader_that_fails(rt: HostRuntime) {
    // 132 bytes are 19 reads of seven, and one more shows the end.
    for cause in CAUSES {
        assert_eq!(rt; first_unfailed_read(&rt, rt.alloc(), cause), None);
    }
    let trial = tried(&rt, rt.alloc(), THREE_WAY, None, NEVER);
    assert!(rt; is_whole(&trial));
    assert!(rt; trial.trace.reads == 20);
}

/// The first write at which a run does not fail as it must, where that write fails for this cause; none where
/// it does so at each.
fn first_unfailed_write<H: Threads + Sync>(rt: &H, alloc: Global, cause: ErrorKind) -> Option<u32> {
    for write in 1..=120u32 {
        let failing = Failing {
            read: 0,
            write,
            cause,
        };
        let trial = tried(rt, alloc, THREE_WAY, None, failing);
        if !fails_to_write(&trial, write, &REPORT[..write as usize - 1]) {
            return Some(write);
        }
    }
    None
}

#[test]
fn writer_that_fails(rt: HostRuntime) {
    for cause in CAUSES {
        assert_eq!(rt; first_unfailed_write(&rt, rt.alloc(), cause), None);
    }
    let trial = tried(&rt, rt.alloc(), THREE_WAY, None, NEVER);
    assert!(rt; is_whole(&trial));
    assert!(rt; trial.page.writes == 120);
}

/// Whether the source gives one byte and then fails, also when it is asked again.
fn fails_after_a_byte(source: &mut Source<&mut Script<'_>>, alloc: Global) -> bool {
    let mut buffer = [0; 4];
    source.read(&mut buffer) == Some(1)
        && source.read(&mut buffer).is_none()
        && source.read(&mut buffer).is_none()
        && source.whole(alloc).err() == Some(ReadFault::Read)
}

#[test]
fn a_failed_reader_is_asked_no_more(rt: HostRuntime) {
    for cause in CAUSES {
        let mut script = Script::new("text", 1, 2).for_cause(cause);
        assert!(rt; fails_after_a_byte(&mut Source::new(&mut script), rt.alloc()));
        assert!(rt; script.reads == 2);
    }
}

/// Whether the sink takes one byte and then fails, also when it is asked again.
fn fails_behind_a_byte(sink: &mut Sink<&mut Page>) -> bool {
    sink.write(b"text") == Some(1) && sink.write(b"ext").is_none() && sink.write(b"ext").is_none()
}

/// Whether the failed sink takes nothing as a whole but what is empty.
fn takes_nothing(sink: &mut Sink<&mut Page>) -> bool {
    sink.write_whole(b"ext") == Err(WriteFault) && sink.write_whole(b"") == Ok(())
}

#[test]
fn a_failed_writer_is_asked_no_more(rt: HostRuntime) {
    for cause in CAUSES {
        let mut page = Page::new(1, 2);
        page.cause = cause;
        let mut sink = Sink::new(&mut page);
        assert!(rt; fails_behind_a_byte(&mut sink));
        assert!(rt; takes_nothing(&mut sink));
        assert!(rt; page.writes == 2);
        assert!(rt; page.text() == b"t".as_slice());
    }
}

#[test]
fn a_writer_that_takes_nothing_fails(rt: HostRuntime) {
    let mut page = Page::new(0, 0);
    let mut sink = Sink::new(&mut page);
    assert!(rt; sink.write_whole(b"text") == Err(WriteFault));
    assert!(rt; page.writes == 1);
}
