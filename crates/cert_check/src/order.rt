//! Whether a certificate's order is an order of the elements that every response follows.

ghost use Rattle.std.specs.Prelude.{◌≡◌, All, IfOk, IsPermutation, List, length};
ghost use Rattle.events.specs.Names.{IsName, NameBytes};
ghost use Rattle.events.specs.History.{History};
ghost use Rattle.specification.specs.Elements.{elements};
ghost use Rattle.specification.specs.Faults.{IsSound};
ghost use Rattle.specification.specs.Lines.{names_text};
ghost use Rattle.specification.specs.Versions.{Version};
ghost use Rattle.specification.specs.CertificateText.{gives_order};
ghost use Rattle.element_numbers.specs.Covering.{IsNumbered};
ghost use Rattle.cert_check.specs.Judged.{IsJudged};
ghost use Rattle.cert_check.specs.Noted.{Holds, placed_from};
ghost use Rattle.element_numbers.specs.Cuts.{IsCut};
ghost use Rattle.cert_check.specs.Numbering.{IsOf, AreWithin, lists_of};

use super::answer::{Answer, Kind, Reason};
use super::numbered::Numbered;
use element_numbers::NumberedElements;
use events::{Memory, Recording};
use std::alloc::Global;

/// Whether each response of a sound recording follows the order, and that is one of all elements. That is
/// asked of certificates of both versions. Only the responses that cover all are looked at: another follows
/// where these do, and the first that does not is one of these.
///
/// The order is given by its names, each after one space.
pub fn judge_order(
    alloc: Global,
    recording: &Recording,
    found: NumberedElements,
    names: &[u8],
) -> Result<Answer, Memory>
    requires sound { IsSound recording.now }
    requires found { IsNumbered recording.now found }
    ensures { IfOk result (λ answer. (version : Version) (order : List NameBytes) → All IsName order
        → names.now ≡ names_text order
        → IsJudged version recording.now (gives_order order) answer) }
{
    let numbered = Numbered::of(recording, found);
    let ranks = numbered.ranks_of(alloc, names)?;
    match ranks {
        None => Ok(Answer::No(Reason::NotOrder)),
        Some(ranks) => Ok(judge_ranks(&numbered, &ranks)),
    }
}

/// The same by the places of the elements in a permutation of them.
fn judge_ranks(numbered: &Numbered, ranks: &[u32]) -> Answer
    requires cut { IsCut numbered.now.places }
    requires within { AreWithin (length ranks.now) numbered.now }
    requires operations { length numbered.now.operations.items ≡ length (lists_of numbered.now) }
    ensures { (version : Version) (h : History) (order : List NameBytes) → IsOf h numbered.now
        → IsPermutation numbered.now.names.items order →
        Holds numbered.now.names.items (length numbered.now.names.items) (placed_from 0 order) ranks.now
        → IsJudged version h (gives_order order) result }
{
    match numbered.first_not_rising(ranks) {
        None => Answer::Yes(Kind::Accepted),
        Some(i) => Answer::No(Reason::NotFollowed {
            at: numbered.operations[i],
        }),
    }
}
