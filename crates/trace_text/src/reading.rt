//! How far a text is read, and one line more.

ghost use Rattle.std.specs.Prelude.{◌≡◌, ◌≢◌, ◌+◌, ◌≤◌, ℕ, [], ◌∷◌, ◌++◌, length, IfOk, IfErr, IfSome, OnOk};
ghost use Rattle.events.specs.History.{IsLegal};
ghost use Rattle.specification.specs.Versions as versions;
ghost use Rattle.specification.specs.TraceText.{replicas_line, trace_lines, IsFaultyLine, IsSpelledIn};
ghost use Rattle.specification.specs.TraceText.{IsMissingLine, BeginsSpelling};
ghost use Rattle.format_words.specs.Words.{words_of};
ghost use Rattle.format_words.specs.Reading.{Says};
ghost use Rattle.trace_text.specs.Reading.{replicas_at};
ghost use Rattle.trace_text.specs.Causes.{cause_of};
ghost use Rattle.trace_text.specs.Place.{TakesMemory};

use crate::cause::{Cause, LineFault};
use crate::version::Version;
use crate::versioned::Versioned;
use events::{MOST_REPLICAS, NewFault, Recording, Refusal};
use format_words::{Shape, Stop, end, first_word, next_number};
use std::alloc::Global;

/// What the right lines so far say.
#[derive(Drop)]
pub enum Reading {
    /// There is no line yet.
    Start,
    /// The first line is there.
    Headed(Version),
    /// The first two lines are there, and the entries of this recording.
    Entries(Versioned),
}

/// The number of `replicas R`.
#[tactic(auto, unfolding(crate::specs::Reading::replicas_at, format_words::specs::Reading::after_word))]
fn replicas_of(line: &[u8]) -> Result<u32, Shape>
    ensures { Says (λ n. n) result (replicas_at (words_of line.now)) }
{
    let (word, rest) = first_word(line);
    if word != b"replicas".as_slice() {
        return Err(Shape);
    }
    let (n, rest) = next_number(rest)?;
    end(rest)?;
    Ok(n)
}

/// The recording without entries that the second line begins.
fn recording_of(alloc: Global, line: &[u8]) -> Result<Recording, Stop>
    ensures ok { IfOk result (λ h. (h.entries ≡ []) × (line.now ≡ replicas_line h.replicas)) }
    ensures legal { IfOk result IsLegal }
    ensures shape { IfErr result (λ stop. stop ≡ Stop.Shape → (n : ℕ) → 1 ≤ n → n ≤ MOST_REPLICAS
        → line.now ≢ replicas_line n) }
    ensures memory { IfErr result (λ stop. stop ≡ Stop.Memory → (n : ℕ) × (1 ≤ n) × (n ≤ MOST_REPLICAS)
        × (line.now ≡ replicas_line n)) }
{
    let replicas = replicas_of(line)?;
    match Recording::new(alloc, replicas) {
        Ok(recording) => Ok(recording),
        Err(NewFault::NoReplicas) => Err(Stop::Shape),
        Err(NewFault::ManyReplicas) => Err(Stop::Shape),
        Err(NewFault::Memory) => Err(Stop::Memory),
    }
}

impl Reading {
    ghost use Rattle.trace_text.specs.Progress.{good, IsLegalSoFar};

    /// The number of the line that comes next, from 1.
    pub fn next_line(&self) -> u32
        ensures number { result ≡ length (good self.now) + 1 }
        ensures begins { BeginsSpelling (good self.now) }
        ensures legal { IsLegalSoFar self.now }
    {
        match self {
            Reading::Start => 1,
            Reading::Headed(_) => 2,
            Reading::Entries(recording) => recording.next_line(),
        }
    }

    /// Takes the next line, without its LF.
    pub fn line(&mut self, alloc: Global, line: &[u8]) -> Result<(), LineFault>
        ensures ok { OnOk result (good self.new ≡ good self.old ++ line.now ∷ []) }
        ensures right { OnOk result (BeginsSpelling (good self.new)) }
        ensures number { IfErr result (λ fault. fault.line ≡ length (good self.old) + 1) }
        ensures begins { BeginsSpelling (good self.old) }
        ensures fault { IfErr result (λ fault. IfSome (cause_of fault.cause)
            (IsFaultyLine (good self.old) line.now)) }
        ensures memory { IfErr result (λ fault. fault.cause ≡ Cause.Refused Refusal.Memory
            → TakesMemory (good self.old) line.now) }
    {
        let number = self.next_line();
        match self.take(alloc, line) {
            Ok(()) => Ok(()),
            Err(cause) => Err(LineFault {
                line: number,
                cause,
            }),
        }
    }

    /// Takes the next line, or says what is wrong with it.
    fn take(&mut self, alloc: Global, line: &[u8]) -> Result<(), Cause>
        requires { IsLegalSoFar self.old }
        ensures ok { OnOk result (good self.new ≡ good self.old ++ line.now ∷ []) }
        ensures legal { OnOk result (IsLegalSoFar self.new) }
        ensures fault { IfErr result (λ cause. IfSome (cause_of cause)
            (IsFaultyLine (good self.old) line.now)) }
        ensures memory { IfErr result (λ cause. cause ≡ Cause.Refused Refusal.Memory
            → TakesMemory (good self.old) line.now) }
    {
        match self {
            Reading::Start => match Version::of_line(line) {
                Some(version) => {
                    *self = Reading::Headed(version);
                    Ok(())
                }
                None => Err(Cause::Header),
            },
            Reading::Headed(version) => match recording_of(alloc, line) {
                Ok(recording) => {
                    *self = Reading::Entries(Versioned::new(*version, recording));
                    Ok(())
                }
                Err(Stop::Shape) => Err(Cause::Replicas),
                Err(Stop::Memory) => Err(Cause::Refused(Refusal::Memory)),
            },
            Reading::Entries(recording) => recording.add_entry(alloc, line),
        }
    }

    /// The recording, where both first lines are there.
    pub fn end(self) -> Result<Recording, LineFault>
        ensures ok { IfOk result (λ h. (version : versions.Version) × IsSpelledIn version h
            × (good self ≡ trace_lines version h)) }
        ensures number { IfErr result (λ fault. fault.line ≡ length (good self) + 1) }
        ensures begins { BeginsSpelling (good self) }
        ensures fault { IfErr result (λ fault. IfSome (cause_of fault.cause) (IsMissingLine (good self))) }
        ensures memory { IfErr result (λ fault. fault.cause ≢ Cause.Refused Refusal.Memory) }
    {
        let line = self.next_line();
        match self {
            Reading::Start => Err(LineFault {
                line,
                cause: Cause::Header,
            }),
            Reading::Headed(_) => Err(LineFault {
                line,
                cause: Cause::Replicas,
            }),
            Reading::Entries(recording) => Ok(recording.end()),
        }
    }
}
