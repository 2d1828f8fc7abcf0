//! The texts of faults.

use crate::fault::ProgramFault;
use byte_streams::{ReadFault, WriteFault};
use command_line::{Word, WordsFault};
use engines::{RunFault, Status};
use events::Refusal;
use std::alloc::{AllocError, Global};
use std::fmt::Display;
use trace_text::{Cause, LineFault};

/// The text; where the first call finds no memory, what the second gives.
fn text_of<T: Display>(alloc: Global, value: &T) -> Result<String, AllocError> {
    match value.to_string(alloc) {
        Err(_) => value.to_string(alloc),
        text => text,
    }
}

/// Whether this is the value's text.
fn says<T: Display>(alloc: Global, value: &T, text: &str) -> bool {
    match text_of(alloc, value) {
        Ok(said) => said.as_str() == text,
        Err(_) => false,
    }
}

fn word_of(alloc: Global, text: &str) -> Result<Word, AllocError> {
    match Word::new(alloc, text) {
        Err(_) => Word::new(alloc, text),
        word => word,
    }
}

const NOT_YET: LineFault = LineFault {
    line: 4,
    cause: Cause::Refused(Refusal::NotYet { have: 1 }),
};

#[test]
fn faults_of_a_run(rt: HostRuntime) {
    let rows = [
        (RunFault::Workers, "workers"),
        (RunFault::Read, "cannot read"),
        (RunFault::Trace(NOT_YET), "line 4: not yet, have 1"),
        (RunFault::Thread, "thread"),
        (RunFault::Stalled, "stalled"),
        (RunFault::Write, "cannot write"),
        (RunFault::Memory, "memory"),
    ];
    for (fault, text) in rows {
        assert!(rt; says(rt.alloc(), &fault, text), "{text}");
    }
}

#[test]
fn faults_of_streams_and_words(rt: HostRuntime) {
    let alloc = rt.alloc();
    assert!(rt; says(alloc, &ReadFault::Read, "cannot read"));
    assert!(rt; says(alloc, &ReadFault::Memory, "memory"));
    assert!(rt; says(alloc, &WriteFault, "cannot write"));
    assert!(rt; says(alloc, &WordsFault::Usage, "usage"));
    assert!(rt; says(alloc, &WordsFault::Memory, "memory"));
}

/// Whether the fault has this text and exit status.
fn ends_with(alloc: Global, fault: ProgramFault, text: &str, number: u8) -> bool {
    says(alloc, &fault, text) && fault.number() == number
}

/// Whether the fault of a file that can't be read has this text and exit status.
fn ends_unread(alloc: Global, file: &str, text: &str, number: u8) -> bool {
    match word_of(alloc, file) {
        Ok(file) => ends_with(alloc, ProgramFault::Read { file }, text, number),
        Err(_) => false,
    }
}

#[test]
fn faults_of_the_program(rt: HostRuntime) {
    let alloc = rt.alloc();
    assert!(rt; ends_with(alloc, ProgramFault::Usage, "usage", 2));
    assert!(rt; ends_unread(alloc, "dir/a b", "cannot read dir/a b", 2));
    assert!(rt;
        ends_with(
            alloc,
            ProgramFault::Trace(NOT_YET),
            "line 4: not yet, have 1",
            2
        )
    );
    assert!(rt; ends_with(alloc, ProgramFault::Write, "cannot write", 2));
    assert!(rt; ends_with(alloc, ProgramFault::Memory, "memory", 3));
}

#[test]
fn faults_of_threads(rt: HostRuntime) {
    let alloc = rt.alloc();
    assert!(rt; ends_with(alloc, ProgramFault::Thread, "thread", 2));
    assert!(rt; ends_with(alloc, ProgramFault::Stalled, "stalled", 2));
}

#[test]
fn statuses_have_numbers(rt: HostRuntime) {
    assert!(rt; Status::Good.number() == 0);
    assert!(rt; Status::Bad.number() == 1);
}
