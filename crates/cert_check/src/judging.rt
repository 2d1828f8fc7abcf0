//! A certificate beside its recording.

ghost use Rattle.std.specs.Prelude.{IfOk};
ghost use Rattle.events.specs.History.{IsLegal};
ghost use Rattle.specification.specs.Elements.{elements};
ghost use Rattle.specification.specs.Faults.{IsSound};
ghost use Rattle.specification.specs.CertificateText.{Certificate, IsSpellable};
ghost use Rattle.certificate_text.specs.CertificateOf.{version_in};
ghost use Rattle.certificate_text.specs.Outlines.{Outlines};
ghost use Rattle.element_numbers.specs.Covering.{IsNumbered};
ghost use Rattle.cert_check.specs.Judged.{IsJudged};

use super::answer::{Answer, Reason};
use super::cycle::judge_cycle;
use super::faults::judge_fault;
use super::order::judge_order;
use certificate_text::{Outline, Version};
use contents_check::{Checked, check_in_turn};
use element_numbers::NumberedElements;
use events::{Memory, Recording};
use std::alloc::Global;
use visibility::Sight;

/// Whether the certificate with this outline, of this version, is valid for the recording; where not, the
/// first reason.
pub fn judge(
    alloc: Global,
    recording: &Recording,
    version: Version,
    outline: &Outline<'_>,
) -> Result<Answer, Memory>
    requires legal { IsLegal recording.now }
    ensures { IfOk result (λ answer. (c : Certificate) → IsSpellable c → Outlines outline.now c
        → IsJudged (version_in version) recording.now c answer) }
{
    let sight = Sight::of(alloc, recording)?;
    match check_in_turn(alloc, recording, &sight)? {
        Checked::Faulty(fault) => Ok(judge_fault(outline, &fault)),
        Checked::Sound(found) => judge_sound(alloc, recording, found, version, outline),
    }
}

/// The same, of a recording that has no fault, by its elements and the operations that cover all.
fn judge_sound(
    alloc: Global,
    recording: &Recording,
    found: NumberedElements,
    version: Version,
    outline: &Outline<'_>,
) -> Result<Answer, Memory>
    requires legal { IsLegal recording.now }
    requires sound { IsSound recording.now }
    requires found { IsNumbered recording.now found }
    ensures { IfOk result (λ answer. (c : Certificate) → IsSpellable c → Outlines outline.now c
        → IsJudged (version_in version) recording.now c answer) }
{
    match outline {
        Outline::Accepted { names } => judge_order(alloc, recording, found, names),
        Outline::Refused { k, steps, rows } => {
            judge_cycle(alloc, recording, found, version, *k, steps, rows)
        }
        _ => Ok(Answer::No(Reason::WrongFault)),
    }
}
