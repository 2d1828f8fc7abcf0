//! The world in which the program runs.

use super::fault::ProgramFault;
use byte_streams::{Reader, Source};

/// What the program asks of the world beside its words, memory, threads and standard output: the streams
/// that words name, and standard error. It shows contracts what was done, in order; so what the program
/// does is proved for every world.
pub trait World {
    ghost use Rattle.std.specs.Prelude.{◌≡◌, ◌∷◌, [], IfSome, List, MatchOption, Option, ℕ};
    ghost use Rattle.byte_streams.specs.Streams.{Makes};
    ghost use Rattle.finder_cli.specs.Deeds.{Deed, IsFresh, closed, complained, missed, opened};

    type Stream: Reader + Drop;

    // The text that a word names, where it is known.
    ghost text: { Self → List ℕ → Option (List ℕ) };

    // What was done, in order, where it is known.
    ghost deeds: { Self → Option (List Deed) };

    /// Opens the stream that the word names, of which no read was made; `None` where it can't be opened.
    fn open(&mut self, file: &str) -> Option<Source<Self::Stream>>
        ensures stays { text self.new ≡ text self.old }
        ensures fresh { IfSome result (λ source. IsFresh source × (source.bytes ≡ text self.old file.now)) }
        ensures done { MatchOption result (Makes (deeds self.old) (deeds self.new) (missed file.now ∷ []))
            (λ source. Makes (deeds self.old) (deeds self.new) (opened file.now source ∷ [])) };

    /// Takes note of a stream that is done with, as it is left.
    fn close(&mut self, source: &Source<Self::Stream>)
        ensures stays { text self.new ≡ text self.old }
        ensures done { Makes (deeds self.old) (deeds self.new) (closed source.now ∷ []) };

    /// Writes the line of a fault to standard error.
    fn complain(&mut self, fault: &ProgramFault)
        ensures stays { text self.new ≡ text self.old }
        ensures done { Makes (deeds self.old) (deeds self.new) (complained fault.now ∷ []) };
}
