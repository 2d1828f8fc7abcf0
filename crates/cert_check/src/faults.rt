//! Whether a certificate names the first fault.

ghost use Rattle.std.specs.Prelude.{◌≡◌, ◌↔◌, IsTrue, Some};
ghost use Rattle.specification.specs.CertificateText.{Certificate, names_fault};
ghost use Rattle.contents_check.specs.FaultOf.{fault_of};
ghost use Rattle.certificate_text.specs.Outlines.{Outlines};
ghost use Rattle.cert_check.specs.AnswerOf.{kind_of};
ghost use Rattle.cert_check.specs.Judged.{IsJudgedByFault, named};

use super::answer::{Answer, Kind, Reason};
use certificate_text::Outline;
use contents_check::Fault;

/// Whether a certificate with this outline names this fault.
fn names(outline: &Outline<'_>, fault: &Fault) -> bool
    ensures { IsTrue result ↔ (named outline.now ≡ Some (fault_of fault.now)) }
{
    match (outline, fault) {
        (Outline::Doubled { first, again }, Fault::Doubled { first: f, again: e }) => {
            first == f && again == e
        }
        (Outline::Contents { at }, Fault::Contents { at: e }) => at == e,
        (Outline::Position { at }, Fault::Position { at: e }) => at == e,
        _ => false,
    }
}

/// What a certificate shows that names this fault.
fn kind(fault: &Fault) -> Kind
    ensures { result ≡ kind_of (names_fault (fault_of fault.now)) }
{
    match fault {
        Fault::Doubled { .. } => Kind::Doubled,
        Fault::Contents { .. } => Kind::Contents,
        Fault::Position { .. } => Kind::Position,
    }
}

/// Whether the certificate with this outline names the first fault of a recording.
pub fn judge_fault(outline: &Outline<'_>, fault: &Fault) -> Answer
    ensures { (c : Certificate) → Outlines outline.now c → IsJudgedByFault c (fault_of fault.now) result }
{
    if names(outline, fault) {
        Answer::Yes(kind(fault))
    } else {
        Answer::No(Reason::WrongFault)
    }
}
