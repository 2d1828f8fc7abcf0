//! Readers that show contracts how each call went.

use std::io::Read;

/// A reader that shows contracts how each call went. Every reader of the standard library is one; of its
/// calls nothing is known to a contract, but what asks a `Reader` is proved for those whose calls are
/// known, too.
pub trait Reader {
    ghost use Rattle.std.specs.Prelude.{◌≡◌, ◌≤◌, ◌<◌, ◌∷◌, [], IfSome, List, MatchOption, Option, length};
    ghost use Rattle.std.specs.Prelude.{option_map, take, ℕ};
    ghost use Rattle.std.specs.Io.KnownBytes.{Consumes, Keeps, IsAtEnd};
    ghost use Rattle.byte_streams.specs.Streams.{Makes, ReadCall};

    // The bytes that reads will give from here on, where they are known.
    ghost bytes_left: { Self → Option (List ℕ) };

    // The reads that were made, where they are known.
    ghost reads_made: { Self → Option (List ReadCall) };

    /// Reads once into the beginning of the buffer, and answers how many bytes came: none only at the end, or
    /// where the buffer is empty. Answers `None` where the read fails.
    fn read_once(&mut self, buffer: &mut [u8]) -> Option<usize>
        ensures within { IfSome result (λ n. n ≤ length buffer.new) }
        ensures bytes { MatchOption result (Keeps (bytes_left self.old) (bytes_left self.new)) (λ n. Consumes
            (bytes_left self.old) (bytes_left self.new) (take n buffer.new) × (n ≡ 0 → 0 < length buffer.new
            → IsAtEnd (bytes_left self.new))) }
        ensures made { Makes (reads_made self.old) (reads_made self.new)
            (record { asked = length buffer.new; came = option_map (λ n. take n buffer.new) result } ∷ []) };
}

impl<R: Read> Reader for R {
    ghost use Rattle.std.specs.Prelude.{None};

    ghost bytes_left = { R.remaining };

    ghost reads_made = { λ _. None };

    fn read_once(&mut self, buffer: &mut [u8]) -> Option<usize> {
        match self.read(buffer) {
            Ok(n) => Some(n),
            Err(_) => None,
        }
    }
}
