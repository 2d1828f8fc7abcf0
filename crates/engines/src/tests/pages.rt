//! Readers and writers over memory that fail at a call, once, and take or give few bytes a call.

ghost use Rattle.std.specs.Prelude.{◌≤◌};

use std::io;
use std::io::{Error, ErrorKind, Read, Write};

/// How many bytes a page holds.
const ROOM: usize = 512;

/// Gives its text, so many bytes a read. One read fails for this cause, and those after it do not.
#[derive(Drop)]
pub struct Script<'a> {
    pub rest: &'a [u8],
    pub size: usize,
    pub reads: u32,
    pub fails_at: u32,
    pub cause: ErrorKind,
}

impl<'a> Script<'a> {
    pub fn new(text: &'a str, size: usize, fails_at: u32) -> Script<'a> {
        Script {
            rest: text.as_bytes(),
            size,
            reads: 0,
            fails_at,
            cause: ErrorKind::Other,
        }
    }

    /// The same, where the read that fails does so for this cause.
    pub fn for_cause(self, cause: ErrorKind) -> Script<'a> {
        Script { cause, ..self }
    }
}

impl Read for Script<'_> {
    fn read(&mut self, buffer: &mut [u8]) -> io::Result<usize> {
        self.reads = self.reads.saturating_add(1);
        if self.reads == self.fails_at {
            return Err(Error::from(self.cause));
        }
        let n = self.size.min(buffer.len()).min(self.rest.len());
        buffer[..n].copy_from_slice(&self.rest[..n]);
        self.rest = &self.rest[n..];
        Ok(n)
    }
}

/// Keeps what is written, so many bytes a write. One write fails for this cause, and those after it do not.
#[derive(Drop)]
pub struct Page {
    bytes: [u8; 512],
    len: usize,
    size: usize,
    pub writes: u32,
    fails_at: u32,
    pub cause: ErrorKind,
    ghost within: { len ≤ 512 },
}

impl Page {
    pub fn new(size: usize, fails_at: u32) -> Page {
        Page {
            bytes: [0; ROOM],
            len: 0,
            size,
            writes: 0,
            fails_at,
            cause: ErrorKind::Other,
        }
    }

    /// What was written so far.
    pub fn text(&self) -> &[u8] {
        &self.bytes[..self.len]
    }
}

impl Write for Page {
    fn write(&mut self, bytes: &[u8]) -> io::Result<usize> {
        self.writes = self.writes.saturating_add(1);
        if self.writes == self.fails_at {
            return Err(Error::from(self.cause));
        }
        let room = ROOM - self.len;
        let n = self.size.min(bytes.len()).min(room);
        let end = self.len + n;
        self.bytes[self.len..end].copy_from_slice(&bytes[..n]);
        self.len = end;
        Ok(n)
    }

    fn flush(&mut self) -> io::Result<()> {
        Ok(())
    }
}
