//! Whether a certificate's cycle and rows bear a refusal.

ghost use Rattle.std.specs.Prelude.{◌≡◌, IfOk, List, map};
ghost use Rattle.events.specs.History.{IsLegal};
ghost use Rattle.specification.specs.Conflict.{Step};
ghost use Rattle.specification.specs.Elements.{elements};
ghost use Rattle.specification.specs.Faults.{IsSound};
ghost use Rattle.specification.specs.LayerRule.{Row};
ghost use Rattle.specification.specs.Lines.{text_of};
ghost use Rattle.specification.specs.CertificateText.{gives_cycle, row_line, step_line, IsSpellable};
ghost use Rattle.certificate_text.specs.CertificateOf.{version_in};
ghost use Rattle.element_numbers.specs.Covering.{IsNumbered};
ghost use Rattle.cert_check.specs.Judged.{IsJudged};

use super::answer::{Answer, Kind, Reason};
use super::numbered::Numbered;
use super::rows::rows_fault;
use super::steps::first_wrong_step;
use certificate_text::Version;
use element_numbers::NumberedElements;
use events::{Memory, Recording};
use std::alloc::Global;

/// Whether the steps are a cycle of a sound recording and the rows, of this version, show that none is
/// shorter. Steps and rows are given by their lines. The rows are judged by the responses that cover all,
/// which show the same elements before one another as all do.
pub fn judge_cycle(
    alloc: Global,
    recording: &Recording,
    found: NumberedElements,
    version: Version,
    k: u32,
    steps: &[u8],
    rows: &[u8],
) -> Result<Answer, Memory>
    requires legal { IsLegal recording.now }
    requires sound { IsSound recording.now }
    requires found { IsNumbered recording.now found }
    ensures { IfOk result (λ answer. (listed : List Step) (layers : List Row)
        → IsSpellable (gives_cycle k listed layers) → steps.now ≡ text_of (map step_line listed)
        → rows.now ≡ text_of (map row_line layers)
        → IsJudged (version_in version) recording.now (gives_cycle k listed layers) answer) }
{
    if let Some(step) = first_wrong_step(alloc, recording, k, steps) {
        return Ok(Answer::No(Reason::NoCycle { step }));
    }
    if k < 3 {
        return Ok(Answer::Yes(Kind::Refused));
    }
    let numbered = Numbered::of(recording, found);
    match rows_fault(alloc, &numbered, version, k, rows)? {
        None => Ok(Answer::Yes(Kind::Refused)),
        Some(why) => Ok(Answer::No(why)),
    }
}
