//! A text that is read as it comes, in pieces.

use crate::begun::Begun;
use crate::cause::{Cause, LineFault};
use crate::pieces::take_piece;
use crate::reading::Reading;
use events::{Recording, Refusal};
use std::alloc::Global;
use std::marker::Model;

/// A reader of a trace text that comes in pieces, cut anywhere.
///
/// It keeps the recording so far, and of the line that is begun at most 135,398 bytes, about as many as the
/// longest right line has: of a line that goes on, what fixes its fault. A line that is whole within a piece
/// is read where it lies. Once a fault was answered, out of memory included, each later call answers the
/// same.
#[derive(Drop)]
pub struct Reader {
    alloc: Global,
    reading: Reading,
    begun: Begun,
    fault: Option<LineFault>,
}

impl Model for Reader {
    ghost use Rattle.trace_text.specs.Fed.{ReaderState};
    ghost use Rattle.trace_text.specs.Progress.{good};

    ghost Value = { ReaderState };

    ghost view = { λ r. record { lines = good r.reading; begun = r.begun; fault = r.fault } };
}

impl Reader {
    ghost use Rattle.std.specs.Prelude.{◌≡◌, ◌≢◌, ◌⊎◌, ◌++◌, Err, IfOk, IfErr, IfSome, List, MatchResult};
    ghost use Rattle.std.specs.Prelude.{None, OnOk, Some, ℕ};
    ghost use Rattle.events.specs.History.{History};
    ghost use Rattle.specification.specs.TraceText as format;
    ghost use Rattle.specification.specs.TraceText.{HasWholeFault, IsCutAt, IsFirstLineFault, Spells};
    ghost use Rattle.trace_text.specs.Causes.{cause_of};
    ghost use Rattle.trace_text.specs.Fed.{UNFED, WasFed};
    ghost use Rattle.trace_text.specs.Place.{IsBehindRightLines, TakesMemoryAt};

    /// A reader of which nothing was asked. It takes no memory.
    pub fn new(alloc: Global) -> Reader
        ensures { result ≡ UNFED }
    {
        Reader {
            alloc,
            reading: Reading::Start,
            begun: Begun::new(alloc),
            fault: None,
        }
    }

    /// Reads the next piece of the text.
    ///
    /// A fault is answered exactly where the text fed so far has the LF of a faulty line, and it is the fault
    /// of every text that begins so; or it is out of memory, at a line after right lines that has its LF. Out
    /// of memory for a line that a piece cuts is answered with that line's LF: where the text ends before,
    /// the line is cut whatever it holds. It takes time in proportion to the piece and the line begun, of
    /// which at most the length of the longest right line counts.
    pub fn feed(&mut self, piece: &[u8]) -> Result<(), LineFault>
        // What was fed is now this piece longer.
        ensures fed { (text : List ℕ) → WasFed self.old text → WasFed self.new (text ++ piece.now) }
        ensures ok { OnOk result ((self.old.fault ≡ None) × (self.new.fault ≡ None)) }
        ensures err { IfErr result (λ fault. self.new.fault ≡ Some fault) }
        // The same fault to each call.
        ensures again { IfSome self.old.fault (λ fault. (result ≡ Err fault) × (self.new ≡ self.old)) }
        // No faulty line has its LF in the text,
        ensures right { OnOk result ((text : List ℕ) → WasFed self.old text → (line : ℕ)
            → (cause : format.Cause) → ¬ HasWholeFault (text ++ piece.now) line cause) }
        // or one has, and whatever follows, the text's first fault is there.
        ensures fault { IfErr result (λ fault. (text more : List ℕ) → WasFed self.old text
            → IfSome (cause_of fault.cause)
            (IsFirstLineFault ((text ++ piece.now) ++ more) fault.line)) }
        ensures place { IfErr result (λ fault. (text : List ℕ) → WasFed self.old text
            → IsBehindRightLines (text ++ piece.now) fault.line) }
        // Out of memory is answered at a line whose reading takes memory, or at one that was cut.
        ensures memory { self.old.fault ≡ None
            → IfErr result (λ fault. fault.cause ≡ Cause.Refused Refusal.Memory → (text : List ℕ)
            → WasFed self.old text → TakesMemoryAt (text ++ piece.now) fault.line ⊎ IsCutAt text fault.line) }
    {
        self.go_on(piece)
    }

    /// What `feed` does.
    fn go_on(&mut self, piece: &[u8]) -> Result<(), LineFault>
        ensures fed { (text : List ℕ) → WasFed self.old text → WasFed self.new (text ++ piece.now) }
        ensures ok { OnOk result ((self.old.fault ≡ None) × (self.new.fault ≡ None)) }
        ensures err { IfErr result (λ fault. self.new.fault ≡ Some fault) }
        ensures again { IfSome self.old.fault (λ fault. (result ≡ Err fault) × (self.new ≡ self.old)) }
        ensures memory { self.old.fault ≡ None
            → IfErr result (λ fault. fault.cause ≡ Cause.Refused Refusal.Memory → (text : List ℕ)
            → WasFed self.old text → TakesMemoryAt (text ++ piece.now) fault.line ⊎ IsCutAt text fault.line) }
    {
        if let Some(fault) = self.fault {
            return Err(fault);
        }
        match take_piece(self.alloc, &mut self.reading, &mut self.begun, piece) {
            Ok(()) => Ok(()),
            Err(fault) => {
                self.fault = Some(fault);
                Err(fault)
            }
        }
    }

    /// The recording that the text fed spells, or the text's first faulty line with its cause: what `read`
    /// answers on the whole text, however it was cut. It takes no memory.
    pub fn end(self) -> Result<Recording, LineFault>
        ensures ok { IfOk result (λ h. (text : List ℕ) → WasFed self text → Spells text h) }
        ensures fault { IfErr result (λ fault. (text : List ℕ) → WasFed self text
            → IfSome (cause_of fault.cause) (IsFirstLineFault text fault.line)) }
        ensures place { IfErr result (λ fault. (text : List ℕ) → WasFed self text
            → IsBehindRightLines text fault.line) }
        // The same fault to each call, and out of memory only so.
        ensures again { IfSome self.fault (λ fault. result ≡ Err fault) }
        ensures memory { self.fault ≡ None → IfErr result (λ fault. fault.cause
            ≢ Cause.Refused Refusal.Memory) }
        // What is spelled is read, unless memory ran out.
        ensures spelled { (text : List ℕ) → (h : History) → WasFed self text → Spells text h
            → MatchResult result (λ g. g ≡ h) (λ fault. fault.cause ≡ Cause.Refused Refusal.Memory) }
    {
        if let Some(fault) = self.fault {
            return Err(fault);
        }
        if !self.begun.is_empty() {
            return Err(LineFault {
                line: self.reading.next_line(),
                cause: Cause::Cut,
            });
        }
        self.reading.end()
    }
}
