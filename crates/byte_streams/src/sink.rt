//! Writers that are never asked after a write that failed or took no byte.

ghost use Rattle.byte_streams.specs.Streams.{SinkState};

use super::writer::Writer;
use std::marker::Model;
use thiserror::Error;

/// A write failed or took no byte.
#[derive(Clone, Copy, Debug, PartialEq, Eq, Error)]
#[error("cannot write")]
pub struct WriteFault;

/// A writer that is never asked again after a write that failed or took no byte.
#[derive(Drop)]
pub struct Sink<W: Writer + Drop> {
    inner: W,
    has_failed: bool,
}

impl<W: Writer + Drop> Model for Sink<W> {
    ghost Value = { SinkState };

    ghost view = { λ s. record {
      bytes = W.bytes_held s.inner;
      calls = W.writes_made s.inner;
      failed = s.has_failed;
    } };
}

impl<W: Writer + Drop> Sink<W> {
    ghost use Rattle.std.specs.Prelude.{◌≡◌, ◌≤◌, ◌<◌, ◌∷◌, [], true, false, None, Some, IfSome, IsOk, IsErr};
    ghost use Rattle.std.specs.Prelude.{OnOk, OnErr, List, MatchResult, Option, length, take, ℕ};
    ghost use Rattle.std.specs.Io.KnownBytes.{Appends, Keeps};
    ghost use Rattle.byte_streams.specs.Streams.{AppendsFront, Makes, WriteCall, at_least_one};
    ghost use Rattle.byte_streams.specs.Wholes.{TakenAs, TakenInPart};

    /// The writer, of which no write was made here.
    pub fn new(inner: W) -> Sink<W>
        ensures bytes { result.bytes ≡ W.bytes_held inner }
        ensures calls { result.calls ≡ W.writes_made inner }
        ensures unwritten { result.failed ≡ false }
    {
        Sink {
            inner,
            has_failed: false,
        }
    }

    /// Writes once, from the beginning of the bytes, and answers how many were taken: at least one. Answers
    /// `None` where the write fails or takes no byte. After that it answers `None` and asks the writer no
    /// more. No byte needs no write: then it answers 0.
    pub fn write(&mut self, bytes: &[u8]) -> Option<usize>
        ensures within { IfSome result (λ n. (n ≤ length bytes.now) × (0 < length bytes.now → 0 < n)) }
        ensures bytes { IfSome result (λ n. Appends self.old.bytes self.new.bytes (take n bytes.now)) }
        ensures went { IfSome result (λ n. (self.new.failed ≡ self.old.failed) × (0 < length bytes.now
            → self.old.failed ≡ false)) }
        ensures failed { result ≡ None → Keeps self.old.bytes self.new.bytes × (self.new.failed ≡ true) }
        ensures asked { self.old.failed ≡ false → 0 < length bytes.now → (taken : Option ℕ)
            × (result ≡ at_least_one taken)
            × Makes self.old.calls self.new.calls (record { handed = bytes.now; taken = taken } ∷ []) }
        ensures closed { self.old.failed ≡ true → 0 < length bytes.now → (result ≡ None)
            × (self.new ≡ self.old) }
        ensures nothing { length bytes.now ≡ 0 → (result ≡ Some 0) × (self.new ≡ self.old) }
    {
        if bytes.is_empty() {
            return Some(0);
        }
        if self.has_failed {
            return None;
        }
        match self.inner.write_once(bytes) {
            Some(n) if n > 0 => Some(n),
            _ => {
                self.has_failed = true;
                None
            }
        }
    }

    /// Writes all of the bytes, in as many writes as the writer needs. Where a write fails or takes no
    /// byte, the last of those that were made, a prefix of them was written, and not all. No byte needs no
    /// write.
    pub fn write_whole(&mut self, bytes: &[u8]) -> Result<(), WriteFault>
        ensures ok { OnOk result (Appends self.old.bytes self.new.bytes bytes.now
            × (self.new.failed ≡ self.old.failed)) }
        ensures err { OnErr result (AppendsFront self.old.bytes self.new.bytes bytes.now
            × (self.new.failed ≡ true)) }
        ensures made { self.old.failed ≡ false → (calls : List WriteCall)
            × Makes self.old.calls self.new.calls calls
            × MatchResult result (λ _. TakenAs bytes.now calls) (λ _. TakenInPart bytes.now calls) }
        ensures closed { self.old.failed ≡ true → 0 < length bytes.now → IsErr result
            × (self.new ≡ self.old) }
        ensures nothing { bytes.now ≡ [] → IsOk result × (self.new ≡ self.old) }
    {
        let mut at = 0;
        while at < bytes.len() {
            let Some(n) = self.write(&bytes[at..]) else {
                return Err(WriteFault);
            };
            at += n;
        }
        Ok(())
    }
}
