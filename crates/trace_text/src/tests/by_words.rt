//! What is kept of a line, word by word: the form that `KeptLine` had before it took whole words at once.

ghost use Rattle.std.specs.Prelude.{◌≡◌, ◌<◌, ◌^◌, ◌∷◌, ◌++◌, IfSome};

use events::{MOST_BYTES, Memory};
use format_words::name_of;
use std::alloc::Global;

/// Whole words of so many bytes are not made longer.
const LONG_LINE: usize = 135_334;

/// What stands before the first space, and what follows that space; none where there is no space.
fn split_word(text: &[u8]) -> Option<(&[u8], &[u8])>
    ensures { IfSome result (λ x. text.now ≡ x.0.now ++ 32 ∷ x.1.now) }
{
    let end = text.iter().position(|byte| *byte == b' ')?;
    Some((&text[..end], &text[end + 1..]))
}

/// What is kept of a line that is looked through word by word.
#[derive(Drop)]
pub struct ByWords {
    whole: Vec<u8>,
    word: Vec<u8>,
}

impl ByWords {
    pub fn new(alloc: Global) -> ByWords {
        ByWords {
            whole: Vec::new(alloc),
            word: Vec::new(alloc),
        }
    }

    pub fn copy(&self, alloc: Global) -> Result<ByWords, Memory> {
        Ok(ByWords {
            whole: Vec::from_slice(alloc, &self.whole)?,
            word: Vec::from_slice(alloc, &self.word)?,
        })
    }

    fn give_up(&mut self) -> Result<(), Memory> {
        self.word.clear();
        self.whole.clear();
        self.whole.push(b' ')?;
        Ok(())
    }

    fn is_given_up(&self) -> bool {
        self.word_len() == 0 && self.whole() == b" ".as_slice()
    }

    fn word_len(&self) -> usize
        ensures { result < 2 ^ 63 }
    {
        self.word.len()
    }

    fn add_part(&mut self, part: &[u8]) -> Result<(), Memory> {
        if self.word_len() + part.len() > MOST_BYTES as usize {
            return self.give_up();
        }
        self.word.extend_from_slice(part)?;
        Ok(())
    }

    fn take_word(&mut self) -> Result<(), Memory> {
        self.whole.extend_from_slice(self.word.as_slice())?;
        self.whole.push(b' ')?;
        self.word.clear();
        Ok(())
    }

    fn end_word(&mut self) -> Result<(), Memory> {
        if self.whole.len() < LONG_LINE {
            return self.take_word();
        }
        if name_of(self.word.as_slice()).is_err() {
            return self.give_up();
        }
        self.word.clear();
        Ok(())
    }

    pub fn add(&mut self, bytes: &[u8]) -> Result<(), Memory> {
        if self.is_given_up() {
            return Ok(());
        }
        let mut rest = bytes;
        while let Some((part, behind)) = split_word(rest) {
            self.add_part(part)?;
            self.end_word()?;
            if self.is_given_up() {
                return Ok(());
            }
            rest = behind;
        }
        self.add_part(rest)
    }

    pub fn close(&mut self) -> Result<(), Memory> {
        self.whole.extend_from_slice(self.word.as_slice())?;
        self.word.clear();
        Ok(())
    }

    pub fn whole(&self) -> &[u8] {
        self.whole.as_slice()
    }
}
