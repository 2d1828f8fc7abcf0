//! Streams of 140 million bytes, more than the longest legal trace has, in one byte a call and in large
//! pieces, whole and with a failure late.

use byte_streams::{ReadFault, Sink, Source, WriteFault};
use std::alloc::Global;
use std::io;
use std::io::{Error, ErrorKind, Read, Write};

/// How long the streams are.
const LENGTH: u64 = 140_000_000;

/// Gives so many bytes, a piece at most a read; then it ends, or fails once and would give more.
#[derive(Drop)]
struct Spring {
    left: u64,
    piece: u64,
    fails: bool,
    failures: u32,
}

impl Spring {
    fn new(left: u64, piece: u64, fails: bool) -> Spring {
        Spring {
            left,
            piece,
            fails,
            failures: 0,
        }
    }
}

impl Read for Spring {
    fn read(&mut self, buffer: &mut [u8]) -> io::Result<usize> {
        if self.left == 0 && self.fails {
            self.failures = self.failures.saturating_add(1);
            self.left = LENGTH;
            return Err(Error::from(ErrorKind::Other));
        }
        let n = self.left.min(self.piece).min(buffer.len() as u64);
        self.left -= n;
        Ok(n as usize)
    }
}

/// Takes so many bytes, a piece at most a write; then it fails once and would take more.
#[derive(Drop)]
struct Drain {
    room: u64,
    piece: u64,
    taken: u64,
    failures: u32,
}

impl Drain {
    fn new(room: u64, piece: u64) -> Drain {
        Drain {
            room,
            piece,
            taken: 0,
            failures: 0,
        }
    }
}

impl Write for Drain {
    fn write(&mut self, bytes: &[u8]) -> io::Result<usize> {
        if self.room == 0 {
            self.failures = self.failures.saturating_add(1);
            self.room = LENGTH;
            return Err(Error::from(ErrorKind::Other));
        }
        let n = self.room.min(self.piece).min(bytes.len() as u64);
        self.room -= n;
        self.taken = self.taken.saturating_add(n);
        Ok(n as usize)
    }

    fn flush(&mut self) -> io::Result<()> {
        Ok(())
    }
}

/// Whether the whole stream is read, or there is no memory for it.
fn is_read(alloc: Global, piece: u64) -> bool {
    let mut spring = Spring::new(LENGTH, piece, false);
    match Source::new(&mut spring).whole(alloc) {
        Ok(text) => text.len() as u64 == LENGTH && spring.left == 0,
        Err(fault) => fault == ReadFault::Memory,
    }
}

/// Whether a read that fails late is a failed read, after which none is made; or there is no memory.
fn fails_late(alloc: Global, piece: u64) -> bool {
    let mut spring = Spring::new(LENGTH - 1, piece, true);
    match Source::new(&mut spring).whole(alloc) {
        Ok(_) => false,
        Err(ReadFault::Read) => spring.failures == 1 && spring.left == LENGTH,
        Err(ReadFault::Memory) => spring.failures == 0,
    }
}

#[test]
fn long_streams_are_read(rt: HostRuntime) {
    assert!(rt; is_read(rt.alloc(), 1));
    assert!(rt; is_read(rt.alloc(), LENGTH));
}

#[test]
fn late_failures_of_readers(rt: HostRuntime) {
    assert!(rt; fails_late(rt.alloc(), 1));
    assert!(rt; fails_late(rt.alloc(), LENGTH));
}

/// Whether all of the bytes are written.
fn is_written(bytes: &[u8], piece: u64) -> bool {
    let mut drain = Drain::new(LENGTH, piece);
    let answer = Sink::new(&mut drain).write_whole(bytes);
    answer == Ok(()) && drain.taken == bytes.len() as u64 && drain.failures == 0
}

/// Whether a write that fails at the last byte is a failed write, after which none is made.
fn fails_at_the_last(bytes: &[u8], piece: u64) -> bool {
    let room = (bytes.len() as u64).saturating_sub(1);
    let mut drain = Drain::new(room, piece);
    let answer = Sink::new(&mut drain).write_whole(bytes);
    answer == Err(WriteFault) && drain.taken == room && drain.failures == 1
}

/// So many bytes.
fn many(alloc: Global) -> Option<Vec<u8>> {
    Vec::from_elem(alloc, b'x', LENGTH as usize).ok()
}

#[test]
fn long_outputs_are_written(rt: HostRuntime) {
    if let Some(bytes) = many(rt.alloc()) {
        assert!(rt; is_written(&bytes, 1));
        assert!(rt; is_written(&bytes, LENGTH));
    }
}

#[test]
fn late_failures_of_writers(rt: HostRuntime) {
    if let Some(bytes) = many(rt.alloc()) {
        assert!(rt; fails_at_the_last(&bytes, 1));
        assert!(rt; fails_at_the_last(&bytes, LENGTH));
    }
}
