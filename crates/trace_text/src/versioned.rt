//! The recording that the lines so far spell, and one entry more.

ghost use Rattle.std.specs.Prelude.{◌≡◌, [], ◌∷◌, ◌++◌, ◌+◌, length, IfErr, IfSome, OnOk};
ghost use Rattle.specification.specs.TraceText.{IsFaultyLine, IsSpelledIn, trace_lines};
ghost use Rattle.trace_text.specs.Causes.{cause_of};
ghost use Rattle.trace_text.specs.Place.{TakesMemory};
ghost use Rattle.trace_text.specs.Versions.{version_in};

use crate::cause::Cause;
use crate::entry::entry_of;
use crate::version::Version;
use events::{Recording, Refusal};
use format_words::Stop;
use std::alloc::Global;
use std::marker::Model;

/// A recording, with the version that spells it.
#[derive(Drop)]
pub struct Versioned {
    version: Version,
    recording: Recording,
}

impl Model for Versioned {
    ghost use Rattle.std.specs.Prelude.{All};
    ghost use Rattle.events.specs.History.{History};
    ghost use Rattle.specification.specs.Versions as versions;
    ghost use Rattle.specification.specs.TraceText.{IsOfVersion};
    ghost use Rattle.trace_text.specs.Versions.{version_in};

    ghost Value = { versions.Version × History };

    ghost view = { λ s. (version_in s.version, s.recording) };

    ghost invariant = { λ s. All (IsOfVersion (version_in s.version)) s.recording.entries };
}

/// Records the entry of a line after the recording's lines.
fn add_entry(
    alloc: Global,
    version: Version,
    recording: &mut Recording,
    line: &[u8],
) -> Result<(), Cause>
    requires { IsSpelledIn (version_in version) recording.old }
    ensures ok { OnOk result (trace_lines (version_in version) recording.new
        ≡ trace_lines (version_in version) recording.old ++ line.now ∷ []) }
    ensures spelled { OnOk result (IsSpelledIn (version_in version) recording.new) }
    ensures fault { IfErr result (λ cause. IfSome (cause_of cause)
        (IsFaultyLine (trace_lines (version_in version) recording.old) line.now)) }
    ensures memory { IfErr result (λ cause. cause ≡ Cause.Refused Refusal.Memory
        → TakesMemory (trace_lines (version_in version) recording.old) line.now) }
    ensures unchanged { IfErr result (λ cause. recording.new ≡ recording.old) }
{
    let entry = match entry_of(alloc, line, version, recording) {
        Ok(entry) => entry,
        Err(Stop::Shape) => return Err(Cause::Shape),
        Err(Stop::Memory) => return Err(Cause::Refused(Refusal::Memory)),
    };
    match recording.record(entry) {
        Ok(_) => Ok(()),
        Err(refused) => Err(Cause::Refused(refused.why)),
    }
}

impl Versioned {
    /// A recording without entries.
    pub fn new(version: Version, recording: Recording) -> Versioned
        requires { recording.entries ≡ [] }
        ensures { result ≡ (version_in version, recording) }
    {
        Versioned { version, recording }
    }

    /// The number of the line that comes next.
    pub fn next_line(&self) -> u32
        ensures number { result ≡ length (trace_lines self.now.0 self.now.1) + 1 }
        ensures spelled { IsSpelledIn self.now.0 self.now.1 }
    {
        self.recording.len() + 3
    }

    /// Records the entry of the next line.
    pub fn add_entry(&mut self, alloc: Global, line: &[u8]) -> Result<(), Cause>
        requires { IsSpelledIn self.old.0 self.old.1 }
        ensures ok { OnOk result (trace_lines self.new.0 self.new.1
            ≡ trace_lines self.old.0 self.old.1 ++ line.now ∷ []) }
        ensures spelled { OnOk result (IsSpelledIn self.new.0 self.new.1) }
        ensures fault { IfErr result (λ cause. IfSome (cause_of cause)
            (IsFaultyLine (trace_lines self.old.0 self.old.1) line.now)) }
        ensures memory { IfErr result (λ cause. cause ≡ Cause.Refused Refusal.Memory
            → TakesMemory (trace_lines self.old.0 self.old.1) line.now) }
    {
        add_entry(alloc, self.version, &mut self.recording, line)
    }

    /// The recording.
    pub fn end(self) -> Recording
        ensures { result ≡ self.1 }
    {
        self.recording
    }
}
