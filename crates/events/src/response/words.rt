//! Names that a text begins with, found sixteen bytes at a time.

ghost use Rattle.std.specs.Prelude.{◌≡◌, ℕ, ◌<◌, ◌≤◌, [], ◌∷◌, ◌++◌, IfOk, OnErr, List, length, drop, take};
ghost use Rattle.std.specs.Prelude.{Contains};
ghost use Rattle.events.specs.Names.{NameBytes, IsName};
ghost use Rattle.events.specs.Packed.{spaced, ends_of};
ghost use Rattle.events.specs.Runs.{AreFirstNames, BeginsWith};

use super::Response;
use super::runs::{Run, ends_word, front};
use super::same_names::after;
use crate::allowed::allowed_bytes;
use crate::{MOST_BYTES, Memory};

/// How many names are put at the end at once, at most.
const AT_ONCE: usize = 64;

impl Response {
    /// Puts at the end the names that the text begins with, up to 64 of them: each after one space, and the
    /// last one before a space or the end of the text. It answers how many they are and how many bytes they
    /// take, none where no name stands there. Where memory is wanted, as where all names together would have
    /// more than `u32::MAX` bytes with their spaces, the response is as it was. It takes time linear in the
    /// bytes of these names and of the word that is none.
    pub fn push_names(&mut self, text: &[u8]) -> Result<Run, Memory>
        ensures ok { IfOk result (λ run. (names : List NameBytes)
            × AreFirstNames 64 text.now names run.names run.bytes × (self.new ≡ self.old ++ names)) }
        ensures err { OnErr result (self.new ≡ self.old) }
    {
        let mut ends = [0; AT_ONCE];
        let run = first_names(text, &mut ends);
        self.push_packed(front(text, run.bytes), front(&ends, run.names), 0)?;
        Ok(run)
    }
}

/// The names that the text begins with, up to 64 of them. For each there is put into `ends` how many bytes of
/// the text there are up to its end, spaces counted.
fn first_names(text: &[u8], ends: &mut [u32]) -> Run
    requires { length ends.old ≡ AT_ONCE }
    ensures size { length ends.new ≡ AT_ONCE }
    ensures names { (names : List NameBytes) × AreFirstNames 64 text.now names result.names result.bytes
        × (take result.names ends.new ≡ ends_of 0 names) }
{
    let mut names = 0;
    let mut bytes = 0;
    'names: while names < AT_ONCE {
        let size = name_size(after(text, bytes));
        if size == 0 {
            return Run { names, bytes };
        }
        bytes += 1 + size;
        ends[names] = bytes as u32;
        names += 1;
    }
    Run { names, bytes }
}

/// How many bytes the name has that the text begins with, after one space and before a space or the end of
/// the text; 0 where no name stands there.
fn name_size(text: &[u8]) -> usize
    ensures few { result ≤ MOST_BYTES }
    ensures some { 0 < result → (a : NameBytes) × (length a ≡ result) × IsName a
        × BeginsWith text.now (a ∷ []) }
    ensures none { result ≡ 0 → (a : NameBytes) → IsName a → BeginsWith text.now (a ∷ []) → ⊥ }
{
    let Some((space, word)) = text.split_first() else {
        return 0;
    };
    if *space != b' ' {
        return 0;
    }
    let size = allowed_bytes(word);
    if size > MOST_BYTES as usize || !ends_word(word, size) {
        return 0;
    }
    size
}
