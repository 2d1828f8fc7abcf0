//! The laws over certificates, each as the contract of a function with an empty body: there is nothing to
//! run, and the gate asks for the proof.

ghost use Rattle.certificate_text.specs.Laws.{CertificatesAreOfStreams, CertificatesAreUnique};
ghost use Rattle.certificate_text.specs.Laws.{CertificatesAreValid};
ghost use Rattle.certificate_text.specs.Laws.{EachTextSpellsOrHasFault, SpelledTextsHaveNoFault};
ghost use Rattle.certificate_text.specs.Laws.{TextsHaveOneFirstFault, TextsSpellOneCertificate};

/// A text spells at most one certificate, in one version. So whatever is said of what a text spells is said
/// of one value.
pub fn texts_spell_one_certificate()
    ensures { TextsSpellOneCertificate }
{}

/// A text that spells a certificate has no fault.
pub fn spelled_texts_have_no_fault()
    ensures { SpelledTextsHaveNoFault }
{}

/// A text has at most one first fault: one line, and one cause.
pub fn texts_have_one_first_fault()
    ensures { TextsHaveOneFirstFault }
{}

/// Each text spells a certificate or has a first fault. So by the other laws each text has one right answer.
pub fn each_text_spells_or_has_a_fault()
    ensures { EachTextSpellsOrHasFault }
{}

/// The certificate of a verdict on a legal recording, in either version, is valid, so a checker accepts it,
/// and it has a spelling, so it can be written. Where k is 3 or more its rows give the distances from each
/// element, which meet the layer rule: what stands after an element is at most one step farther, and what
/// stands before the source is k - 1 steps away or more, since otherwise a cycle would be shorter than k.
pub fn certificates_are_valid()
    ensures { CertificatesAreValid }
{}

/// A legal recording has at most one certificate of each version: one verdict, and one row of distances for
/// each element.
pub fn certificates_are_unique()
    ensures { CertificatesAreUnique }
{}

/// Two recordings with as many replicas and with the same streams have the same certificates, in either
/// version, however their entries were merged.
pub fn certificates_are_of_streams()
    ensures { CertificatesAreOfStreams }
{}
