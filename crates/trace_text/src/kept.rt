//! What is kept of a line whose LF has not come, however long it grows.

ghost use Rattle.std.specs.Prelude.{◌≡◌, ◌↔◌, ◌∷◌, ◌++◌, [], ℕ, true, IfSome, List, MatchOption};
ghost use Rattle.events.specs.Names.{IsName};
ghost use Rattle.trace_text.specs.Kept.{HasNoSpace};

use events::{MOST_BYTES, Memory};
use format_words::name_of;
use std::alloc::Global;
use std::marker::Model;

/// Whole words of an entry that have this many bytes, or more, hold more names than a response may have. A
/// word of an entry has at most 32 bytes, and a space after it: so these are 4,102 words at least, of which
/// at most five stand before the response's names.
const LONG_LINE: usize = 135_334;

/// A line that is judged as the line that came so far, whatever follows.
///
/// It is the line itself, as whole words and the word begun, but for these cases.
///
/// A line that begins with a space is given up, and so is one where added bytes leave a word begun of more
/// than 32 bytes. It can't be right any more. One space stands for it, since no right line begins so, and
/// what follows is not looked at.
///
/// Added bytes that make what is kept longer than 135,334 bytes are gone through word by word. A word of more
/// than 32 bytes gives the line up, and behind whole words of 135,334 bytes, or more, any word that is no
/// name does; a name that ends there is left out. Other bytes are not looked through for such words, which
/// stay as they are.
#[derive(Drop)]
pub struct KeptLine {
    whole: Vec<u8>,
    word: Vec<u8>,
}

impl Model for KeptLine {
    ghost use Rattle.trace_text.specs.Kept.{Kept};

    ghost Value = { Kept };

    ghost view = { λ l. record { whole = l.whole.items; word = l.word.items } };
}

/// What stands before the first space, and what follows that space; none where there is no space.
fn split_word(text: &[u8]) -> Option<(&[u8], &[u8])>
    ensures { MatchOption result (HasNoSpace text.now)
        (λ x. HasNoSpace x.0.now × (text.now ≡ x.0.now ++ 32 ∷ x.1.now)) }
{
    let end = text.iter().position(|byte| *byte == b' ')?;
    Some((&text[..end], &text[end + 1..]))
}

/// What stands up to the last space, with that, and what follows it; none where there is no space.
fn split_last_word(text: &[u8]) -> Option<(&[u8], &[u8])>
    ensures last { IfSome result (λ x. HasNoSpace x.1.now × (text.now ≡ x.0.now ++ x.1.now)) }
    ensures words { IfSome result (λ x. (front : List ℕ) × (x.0.now ≡ front ++ 32 ∷ [])) }
{
    let end = text.iter().rposition(|byte| *byte == b' ')? + 1;
    Some((&text[..end], &text[end..]))
}

/// Whether the word is a name.
#[tactic(auto, unfolding(format_words::specs::Reading::name_of))]
fn is_name(word: &[u8]) -> bool
    ensures { (result ≡ true) ↔ IsName word.now }
{
    name_of(word).is_ok()
}

impl KeptLine {
    ghost use Rattle.std.specs.Prelude.{◌≡◌, ◌↔◌, ◌<◌, ◌≤◌, ◌+◌, ◌^◌, ◌∷◌, ◌++◌, [], length, slice_get, OnOk};
    ghost use Rattle.std.specs.Prelude.{Some, true};
    ghost use Rattle.events.specs.Names.{IsName};
    ghost use Rattle.trace_text.specs.Kept.{EMPTY, GIVEN_UP, HasNoSpace, Keeps};

    /// Nothing of a line. It takes no memory.
    pub fn new(alloc: Global) -> KeptLine
        ensures { result ≡ EMPTY }
    {
        KeptLine {
            whole: Vec::new(alloc),
            word: Vec::new(alloc),
        }
    }

    /// Whether there is no byte of a line.
    pub fn is_empty(&self) -> bool
        ensures { (result ≡ true) ↔ (self.now ≡ EMPTY) }
    {
        self.whole.is_empty() && self.word.is_empty()
    }

    /// Keeps one space in the line's place.
    fn give_up(&mut self) -> Result<(), Memory>
        ensures { OnOk result (self.new ≡ GIVEN_UP) }
    {
        self.word.clear();
        self.whole.clear();
        self.whole.push(b' ')?;
        Ok(())
    }

    /// Whether one space stands for the line, whatever follows.
    fn is_given_up(&self) -> bool
        ensures { result ≡ true → self.now ≡ GIVEN_UP }
    {
        self.word_len() == 0 && self.whole() == b" ".as_slice()
    }

    /// How many bytes the whole words have.
    fn whole_len(&self) -> usize
        ensures { result ≡ length self.now.whole }
    {
        self.whole.len()
    }

    /// How many bytes the word begun has.
    fn word_len(&self) -> usize
        ensures bytes { result ≡ length self.now.word }
        ensures fits { result < 2 ^ 63 }
    {
        self.word.len()
    }

    /// Whether the word begun is a name.
    fn has_name(&self) -> bool
        ensures { (result ≡ true) ↔ IsName self.now.word }
    {
        is_name(self.word.as_slice())
    }

    /// Makes the word begun longer.
    fn grow_word(&mut self, part: &[u8]) -> Result<(), Memory>
        ensures { OnOk result (self.new ≡ record {
          whole = self.old.whole;
          word = self.old.word ++ part.now;
        }) }
    {
        self.word.extend_from_slice(part)?;
        Ok(())
    }

    /// Adds bytes of the word begun.
    fn add_part(&mut self, part: &[u8]) -> Result<(), Memory>
        requires { HasNoSpace part.now }
        ensures { OnOk result (Keeps self.old part.now self.new) }
    {
        if self.word_len() + part.len() > MOST_BYTES as usize {
            return self.give_up();
        }
        self.grow_word(part)
    }

    /// Puts the word begun and a space after the whole words.
    fn take_word(&mut self) -> Result<(), Memory>
        ensures { OnOk result (self.new ≡ record {
          whole = (self.old.whole ++ self.old.word) ++ 32 ∷ [];
          word = [];
        }) }
    {
        self.whole.extend_from_slice(self.word.as_slice())?;
        self.whole.push(b' ')?;
        self.word.clear();
        Ok(())
    }

    /// Leaves the word begun out.
    fn leave_out(&mut self)
        ensures { self.new ≡ record { whole = self.old.whole; word = [] } }
    {
        self.word.clear();
    }

    /// Ends the word begun with a space: puts it after the whole words, or where these are long, leaves out a
    /// name and gives the line up at any other word.
    fn end_word(&mut self) -> Result<(), Memory>
        ensures { OnOk result (Keeps self.old (32 ∷ []) self.new) }
    {
        if self.whole_len() < LONG_LINE {
            return self.take_word();
        }
        if !self.has_name() {
            return self.give_up();
        }
        self.leave_out();
        Ok(())
    }

    /// Adds bytes of the line. It takes time in proportion to them. Where they end a word, leave one begun of
    /// at most 32 bytes, and what is kept has at most 135,334 bytes with them, all that they have of whole
    /// words is put behind the word begun at once. But a line that begins with a space is given up by its
    /// first word, which has no byte.
    pub fn add(&mut self, bytes: &[u8]) -> Result<(), Memory>
        ensures { OnOk result (Keeps self.old bytes.now self.new) }
    {
        if self.is_given_up() {
            return Ok(());
        }
        if let Some((words, part)) = split_last_word(bytes) {
            if !self.begins_with_space(bytes)
                && part.len() <= MOST_BYTES as usize
                && self.has_room(bytes)
            {
                return self.add_at_once(words, part);
            }
        }
        self.add_words(bytes)
    }

    /// Whether these bytes are the line's first and begin with a space.
    fn begins_with_space(&self, bytes: &[u8]) -> bool
        ensures { (result ≡ true) ↔ ((self.now ≡ EMPTY) × (slice_get bytes.now 0 ≡ Some 32)) }
    {
        self.is_empty() && bytes.first() == Some(&b' ')
    }

    /// Whether what is kept has at most 135,334 bytes with these.
    fn has_room(&self, bytes: &[u8]) -> bool
        ensures { result ≡ true
            → length self.now.whole + length self.now.word + length bytes.now ≤ LONG_LINE }
    {
        match LONG_LINE.checked_sub(bytes.len()) {
            None => false,
            Some(room) => self.whole_len() <= room && self.word_len() <= room - self.whole_len(),
        }
    }

    /// Adds whole words, of which the first goes on with the word begun, and the begin of one more.
    fn add_at_once(&mut self, words: &[u8], part: &[u8]) -> Result<(), Memory>
        ensures { OnOk result (self.new ≡ record {
          whole = (self.old.whole ++ self.old.word) ++ words.now;
          word = part.now;
        }) }
    {
        self.whole.extend_from_slice(self.word.as_slice())?;
        self.whole.extend_from_slice(words)?;
        self.word.clear();
        self.word.extend_from_slice(part)?;
        Ok(())
    }

    /// Adds what is left of a word, and ends it.
    fn add_word(&mut self, part: &[u8]) -> Result<(), Memory>
        requires { HasNoSpace part.now }
        ensures { OnOk result (Keeps self.old (part.now ++ 32 ∷ []) self.new) }
    {
        self.add_part(part)?;
        if self.is_given_up() {
            return Ok(());
        }
        self.end_word()
    }

    /// Adds bytes of the line, word by word, until one space stands for the line.
    fn add_words(&mut self, bytes: &[u8]) -> Result<(), Memory>
        ensures { OnOk result (Keeps self.old bytes.now self.new) }
    {
        let mut rest = bytes;
        while let Some((part, behind)) = split_word(rest) {
            self.add_word(part)?;
            if self.is_given_up() {
                return Ok(());
            }
            rest = behind;
        }
        self.add_part(rest)
    }

    /// Puts the word begun after the whole words, since the line ends so.
    pub fn close(&mut self) -> Result<(), Memory>
        ensures { OnOk result (self.new.whole ≡ self.old.whole ++ self.old.word) }
    {
        self.whole.extend_from_slice(self.word.as_slice())?;
        self.word.clear();
        Ok(())
    }

    /// The whole words: after `close` all that is kept of the line.
    pub fn whole(&self) -> &[u8]
        ensures { result.now ≡ self.now.whole }
    {
        self.whole.as_slice()
    }

    /// Begins a line anew. What was kept of the line before is let go, and its room stays.
    pub fn clear(&mut self)
        ensures { self.new ≡ EMPTY }
    {
        self.whole.clear();
        self.word.clear();
    }
}
