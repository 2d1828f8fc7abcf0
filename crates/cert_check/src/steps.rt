//! Whether the steps of a cycle are shown and join.

ghost use Rattle.std.specs.Prelude.{◌≡◌, ◌≢◌, ◌↔◌, ◌<◌, ◌≤◌, ◌∷◌, ◌++◌, ℕ, All, IsTrue, List};
ghost use Rattle.std.specs.Prelude.{MatchOption, Some, length, map, slice_get};
ghost use Rattle.events.specs.History.{IsLegal};
ghost use Rattle.specification.specs.Conflict.{Step};
ghost use Rattle.specification.specs.CertificateText.{IsStep, step_line};
ghost use Rattle.specification.specs.Lines.{text_of};
ghost use Rattle.specification.specs.Responses.{responses_of};
ghost use Rattle.specification.specs.ValidCertificate.{StepIsRight};
ghost use Rattle.certificate_text.specs.StepSaid.{step_said};
ghost use Rattle.cert_check.specs.Ring.{next_place};
ghost use Rattle.cert_check.specs.WrongSteps.{TellsFirstWrong};

use super::found::FoundPlaces;
use super::shown::shows;
use certificate_text::{StepWords, first_step};
use events::Recording;
use std::alloc::Global;

/// Whether a step is shown by its operation and ends where the next one begins, which is given by the bytes
/// of that name.
fn is_right_step(
    found: &mut FoundPlaces,
    recording: &Recording,
    step: &StepWords<'_>,
    next: &[u8],
) -> bool
    requires legal { IsLegal recording.now }
    ensures { (steps : List Step) (i : ℕ) (after : Step) → i < length steps
        → slice_get steps i ≡ Some (step_said step.now)
        → slice_get steps (next_place (length steps) i) ≡ Some after → after.from ≡ next.now
        → IsTrue result ↔ StepIsRight (responses_of recording.now) steps i }
{
    step.to == next && shows(found, recording, step.shown, step.from, step.to)
}

/// The number, from 1, of the first of `k` steps that is not shown by its operation or does not end where the
/// next begins (the last: where the first begins); none if all are right. The steps are given by their lines,
/// and read one after the other. Lines that are not those of `k` steps, 2 or more, get some number, never
/// none.
///
/// Each step costs the response that it cites, or less where there are many steps, that response has more
/// than six names, and was gone through about as often as its number of names can be halved.
pub fn first_wrong_step(alloc: Global, recording: &Recording, k: u32, lines: &[u8]) -> Option<u32>
    requires { IsLegal recording.now }
    ensures { TellsFirstWrong recording.now k lines.now result }
{
    let mut found = FoundPlaces::for_steps(alloc, k);
    first_wrong_among(&mut found, recording, k, lines)
}

/// The same, with the places where names were found before.
fn first_wrong_among(
    found: &mut FoundPlaces,
    recording: &Recording,
    k: u32,
    lines: &[u8],
) -> Option<u32>
    requires legal { IsLegal recording.now }
    ensures { TellsFirstWrong recording.now k lines.now result }
{
    let Some((first, after_first)) = first_step(lines) else {
        return Some(1);
    };
    let begin = first.from;
    let mut step = first;
    let mut rest = after_first;
    for i in 1..k {
        match first_step(rest) {
            Some((next, after)) if is_right_step(found, recording, &step, next.from) => {
                step = next;
                rest = after;
            }
            _ => return Some(i),
        }
    }
    if rest.is_empty() && is_right_step(found, recording, &step, begin) {
        None
    } else {
        Some(k)
    }
}
