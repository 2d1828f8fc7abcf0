//! The laws, each as the contract of a function with an empty body.

ghost use Rattle.cert_check.specs.Laws.{AnswersAreUnique, LayersBoundCycles, ValidCertificatesGetYes};
ghost use Rattle.cert_check.specs.Laws.{ValidCertificatesImply, ValidOrReason, VerdictsCertificatesGetYes};

/// For the responses of every sound recording, every k and both versions: where each element is the source of
/// a row of layers that meets the layer rule for k, no cycle has fewer than k elements. So rows are tested,
/// and nothing is searched.
pub fn layers_bound_cycles()
    ensures { LayersBoundCycles }
{}

/// A valid certificate of either version that some text spells proves its verdict on a legal recording: it
/// names the first fault, or strong holds, or k is the conflict number and the operations of its steps are in
/// conflict.
pub fn valid_certificates_imply()
    ensures { ValidCertificatesImply }
{}

/// A certificate that is valid for a legal recording has no reason against it, so a yes and a no are never
/// both right.
pub fn valid_certificates_have_no_reason()
    ensures { ValidOrReason }
{}

/// Where a trace spells a recording and a text a certificate that is valid for it, the one right answer is
/// yes, with the certificate's kind.
pub fn valid_certificates_get_yes()
    ensures { ValidCertificatesGetYes }
{}

/// What the finder writes, in either version, gets yes: for every legal recording, its verdict and the
/// certificate of that verdict, the texts that spell the recording and the certificate have the answer yes,
/// of the verdict's kind, and no other.
pub fn verdicts_certificates_get_yes()
    ensures { VerdictsCertificatesGetYes }
{}

/// Two texts have one right answer at most: a yes with one kind, or a no with one reason, the first that
/// holds. So two checkers that keep the contract of `check` never differ but for out of memory.
pub fn answers_are_unique()
    ensures { AnswersAreUnique }
{}
