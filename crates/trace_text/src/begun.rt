//! The line that a piece cuts, as far as it is kept until its LF comes.

use crate::kept::KeptLine;
use std::alloc::Global;
use std::marker::Model;

/// What is kept of a line whose LF has not come; nothing where memory ran out for it.
#[derive(Drop)]
pub struct Begun {
    kept: KeptLine,
    is_lost: bool,
}

impl Model for Begun {
    ghost use Rattle.std.specs.Prelude.{cond, None, Some, Option};
    ghost use Rattle.trace_text.specs.Kept.{Kept};

    ghost Value = { Option Kept };

    ghost view = { λ b. cond b.is_lost None (Some b.kept) };
}

impl Begun {
    ghost use Rattle.std.specs.Prelude.{◌≡◌, ◌↔◌, MatchOption, None, Some, true};
    ghost use Rattle.trace_text.specs.Kept.{EMPTY};
    ghost use Rattle.trace_text.specs.Fed.{IsAdded, IsClosed, ShowsWhole};

    /// No byte of a line. It takes no memory.
    pub fn new(alloc: Global) -> Begun
        ensures { result ≡ Some EMPTY }
    {
        Begun {
            kept: KeptLine::new(alloc),
            is_lost: false,
        }
    }

    /// Whether there is no byte of a line.
    pub fn is_empty(&self) -> bool
        ensures { (result ≡ true) ↔ (self.now ≡ Some EMPTY) }
    {
        !self.is_lost && self.kept.is_empty()
    }

    /// The whole words, after `close` all that is kept of the line; none where the line is lost.
    pub fn whole(&self) -> Option<&[u8]>
        ensures { MatchOption result (self.now ≡ None) (λ bytes. ShowsWhole self.now bytes.now) }
    {
        if self.is_lost {
            return None;
        }
        Some(self.kept.whole())
    }

    /// Adds bytes of the line. Where memory runs out, it is lost.
    pub fn add(&mut self, bytes: &[u8])
        ensures { IsAdded self.old bytes.now self.new }
    {
        if self.is_lost || bytes.is_empty() {
            return;
        }
        if self.kept.add(bytes).is_err() {
            self.is_lost = true;
        }
    }

    /// Ends the last word, since the line ends so. Where memory runs out, the line is lost.
    pub fn close(&mut self)
        ensures { IsClosed self.old self.new }
    {
        if self.is_lost {
            return;
        }
        if self.kept.close().is_err() {
            self.is_lost = true;
        }
    }

    /// Begins a line anew. What was kept of the line before is let go, and its room stays.
    pub fn clear(&mut self)
        ensures { self.new ≡ Some EMPTY }
    {
        self.kept.clear();
        self.is_lost = false;
    }
}
