//! Readers that are asked so many times at most, and never after a failed read or after the end.

ghost use Rattle.std.specs.Prelude.{◌≡◌};

use super::reader::Reader;
use std::alloc::Global;
use std::marker::Model;
use thiserror::Error;

/// How many reads are made of a reader: more than the longest legal trace has bytes. A certificate may be
/// longer, so a reader that gives it byte by byte can be cut short.
pub const READS: u32 = 268_435_456;

/// How many bytes are asked for at once.
const CHUNK: usize = 4096;

/// Why a reader was not read to its end.
#[derive(Clone, Copy, Debug, PartialEq, Eq, Error)]
pub enum ReadFault {
    /// A read failed, or the limit of reads was reached before the end.
    #[error("cannot read")]
    Read,
    /// An allocation failed.
    #[error("memory")]
    Memory,
}

/// A reader that is asked at most `READS` times, and never again after a failed read or after its end.
#[derive(Drop)]
pub struct Source<R: Reader + Drop> {
    inner: R,
    reads: u32,
    has_failed: bool,
    has_ended: bool,
}

impl<R: Reader + Drop> Model for Source<R> {
    ghost use Rattle.std.specs.Prelude.{◌≡◌, ◌≤◌, false, true};
    ghost use Rattle.std.specs.Io.KnownBytes.{IsAtEnd};
    ghost use Rattle.byte_streams.specs.Streams.{SourceState};

    ghost Value = { SourceState };

    ghost view = { λ s. record {
      bytes = R.bytes_left s.inner;
      calls = R.reads_made s.inner;
      reads = s.reads;
      failed = s.has_failed;
      ended = s.has_ended;
    } };

    ghost invariant = { λ s. (s.reads ≤ 268435456) × (s.has_ended ≡ true → (s.has_failed ≡ false)
        × IsAtEnd (R.bytes_left s.inner)) };
}

impl<R: Reader + Drop> Source<R> {
    ghost use Rattle.std.specs.Prelude.{◌≡◌, ◌≤◌, ◌<◌, ◌+◌, ◌⊎◌, ◌↔◌, ◌∷◌, [], true, false, None, Some, Err};
    ghost use Rattle.std.specs.Prelude.{IfSome, IfOk, IfErr, IsOkAnd, List, MatchResult, length, option_map};
    ghost use Rattle.std.specs.Prelude.{take, ℕ};
    ghost use Rattle.std.specs.Io.KnownBytes.{Consumes, Keeps, IsAtEnd};
    ghost use Rattle.byte_streams.specs.Streams.{IsClosed, IsOpen, Makes, ReadCall};
    ghost use Rattle.byte_streams.specs.Wholes.{CameAs, EndedBy};

    /// The reader, of which no read was made here.
    pub fn new(inner: R) -> Source<R>
        ensures bytes { result.bytes ≡ R.bytes_left inner }
        ensures calls { result.calls ≡ R.reads_made inner }
        ensures unread { (result.reads ≡ 0) × (result.failed ≡ false) × (result.ended ≡ false) }
    {
        Source {
            inner,
            reads: 0,
            has_failed: false,
            has_ended: false,
        }
    }

    /// Reads once into the beginning of the buffer, and answers how many bytes came: none only at the end,
    /// or where the buffer is empty. Answers `None` where the read fails. After a failed read, or after
    /// `READS` reads that did not come to the end, it answers `None` and asks the reader no more; after the
    /// end it answers 0 and asks it no more. An empty buffer uses up no read.
    pub fn read(&mut self, buffer: &mut [u8]) -> Option<usize>
        ensures within { IfSome result (λ n. n ≤ length buffer.new) }
        ensures bytes { IfSome result (λ n. Consumes self.old.bytes self.new.bytes (take n buffer.new)
            × (n ≡ 0 → 0 < length buffer.new → IsAtEnd self.new.bytes)) }
        ensures end { IfSome result (λ n. 0 < length buffer.new → (self.new.ended ≡ true) ↔ (n ≡ 0)) }
        ensures went { IfSome result (λ n. (self.new.failed ≡ false) × (self.old.failed ≡ false) × (0 < n
            → IsOpen self.old) × (self.old.ended ≡ false → IsOpen self.old)) }
        ensures failed { result ≡ None → Keeps self.old.bytes self.new.bytes × IsClosed self.new
            × (IsOpen self.old → self.new.failed ≡ true) }
        ensures asked { IsOpen self.old → 0 < length buffer.new → (self.new.reads ≡ self.old.reads + 1)
            × Makes self.old.calls self.new.calls (record {
              asked = length buffer.new;
              came = option_map
                  (λ n. take n buffer.new) result;
            } ∷ []) }
        ensures closed { IsClosed self.old → (result ≡ None) × (self.new ≡ self.old) }
        ensures ended { self.old.ended ≡ true → (result ≡ Some 0) × (self.new ≡ self.old) }
        ensures nothing { IsOpen self.old → length buffer.new ≡ 0 → (result ≡ Some 0)
            × (self.new ≡ self.old) }
    {
        if self.has_ended {
            return Some(0);
        }
        if self.has_failed || self.reads == READS {
            return None;
        }
        if buffer.is_empty() {
            return Some(0);
        }
        self.reads += 1;
        match self.inner.read_once(buffer) {
            Some(n) => {
                self.has_ended = n == 0;
                Some(n)
            }
            None => {
                self.has_failed = true;
                None
            }
        }
    }

    /// All that is left, to the end. After a fault some of it was read and is lost: how much, no clause
    /// says. `Read` comes only where a read failed, the last of those that were made, where the limit was
    /// reached before the end, or where the source was closed from the start; out of memory only after
    /// bytes have come.
    pub fn whole(&mut self, alloc: Global) -> Result<Vec<u8>, ReadFault>
        ensures ok { IfOk result (λ text. Consumes self.old.bytes self.new.bytes text.items
            × IsAtEnd self.new.bytes × (self.new.failed ≡ false) × (self.new.ended ≡ true)) }
        ensures read { IfErr result (λ fault. fault ≡ ReadFault.Read → IsClosed self.new) }
        ensures memory { IfErr result (λ fault. fault ≡ ReadFault.Memory → (self.new.failed ≡ false)
            × ((some : List ℕ) × (0 < length some) × Consumes self.old.bytes self.new.bytes some)) }
        ensures made { IsOpen self.old → (calls : List ReadCall) × Makes self.old.calls self.new.calls calls
            × (self.new.reads ≡ self.old.reads + length calls)
            × MatchResult result (λ text. CameAs text.items calls)
            (λ fault. EndedBy fault self.new.reads calls) }
        ensures closed { IsClosed self.old → (result ≡ Err ReadFault.Read) × (self.new ≡ self.old) }
        ensures ended { self.old.ended ≡ true → IsOkAnd result (λ text. text.items ≡ [])
            × (self.new ≡ self.old) }
    {
        let mut all = Vec::new(alloc);
        let mut buffer = [0; CHUNK];
        while let Some(n) = self.read(&mut buffer) {
            if n == 0 {
                return Ok(all);
            }
            if all.extend_from_slice(&buffer[..n]).is_err() {
                return Err(ReadFault::Memory);
            }
        }
        Err(ReadFault::Read)
    }
}
