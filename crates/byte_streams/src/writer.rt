//! Writers that show contracts how each call went.

use std::io::Write;

/// A writer that shows contracts how each call went. Every writer of the standard library is one; of its
/// calls nothing is known to a contract, but what asks a `Writer` is proved for those whose calls are
/// known, too.
pub trait Writer {
    ghost use Rattle.std.specs.Prelude.{◌≡◌, ◌≤◌, ◌∷◌, [], IfSome, List, MatchOption, Option, length, take};
    ghost use Rattle.std.specs.Prelude.{ℕ};
    ghost use Rattle.std.specs.Io.KnownBytes.{Appends, Keeps};
    ghost use Rattle.byte_streams.specs.Streams.{Makes, WriteCall};

    // The bytes that the writer holds, where they are known.
    ghost bytes_held: { Self → Option (List ℕ) };

    // The writes that were made, where they are known.
    ghost writes_made: { Self → Option (List WriteCall) };

    /// Writes once, from the beginning of the bytes, and answers how many were taken. Answers `None` where
    /// the write fails.
    fn write_once(&mut self, bytes: &[u8]) -> Option<usize>
        ensures within { IfSome result (λ n. n ≤ length bytes.now) }
        ensures bytes { MatchOption result (Keeps (bytes_held self.old) (bytes_held self.new)) (λ n. Appends
            (bytes_held self.old) (bytes_held self.new) (take n bytes.now)) }
        ensures made { Makes (writes_made self.old) (writes_made self.new)
            (record { handed = bytes.now; taken = result } ∷ []) };
}

impl<W: Write> Writer for W {
    ghost use Rattle.std.specs.Prelude.{None};

    ghost bytes_held = { W.contents };

    ghost writes_made = { λ _. None };

    fn write_once(&mut self, bytes: &[u8]) -> Option<usize> {
        match self.write(bytes) {
            Ok(n) => Some(n),
            Err(_) => None,
        }
    }
}
