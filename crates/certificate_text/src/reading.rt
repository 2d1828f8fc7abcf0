//! A whole text, line by line.

ghost use Rattle.std.specs.Prelude.{◌≡◌, IfOk, IfErr, IfSome, MatchResult};
ghost use Rattle.specification.specs.CertificateText as format;
ghost use Rattle.specification.specs.Versions as versions;
ghost use Rattle.certificate_text.specs.CertificateOf.{certificate_of, version_in, cause_of};
ghost use Rattle.certificate_text.specs.Place.{IsBehindRightLines, TakesMemoryAt};

use super::certificate::Certificate;
use super::fault::{CertCause, CertFault};
use super::progress::Progress;
use super::version::Version;
use format_words::split_line;
use std::alloc::Global;

impl Certificate {
    /// The certificate that the text spells, with its version, or the text's first faulty line and its cause.
    ///
    /// `Memory` stands only at a line after right lines whose reading takes memory: a right line, the third
    /// or a later one, but for that of an order without names. So it is never answered for another fault of
    /// the text. That memory did run out, no contract can say. Nothing is reserved by a `k` that is merely
    /// claimed. It takes time and memory in proportion to the text.
    pub fn read(alloc: Global, bytes: &[u8]) -> Result<(Version, Certificate), CertFault>
        ensures ok { IfOk result (λ r.
            format.SpellsCertificate bytes.now (version_in r.0) (certificate_of r.1)) }
        ensures fault { IfErr result (λ fault. IfSome (cause_of fault.cause)
            (λ cause. format.IsFirstCertFault bytes.now fault.line cause)) }
        // Out of memory too is answered at a line after right lines.
        ensures place { IfErr result (λ fault. IsBehindRightLines bytes.now fault.line) }
        // And the line is there, with its LF, and is right: any other line is its own fault.
        ensures memory { IfErr result (λ fault. fault.cause ≡ CertCause.Memory
            → TakesMemoryAt bytes.now fault.line) }
        // What is spelled is read, unless memory runs out.
        ensures spelled { (version : versions.Version) (c : format.Certificate)
            → format.SpellsCertificate bytes.now version c
            → MatchResult result (λ r. (version_in r.0 ≡ version) × (certificate_of r.1 ≡ c))
            (λ fault. fault.cause ≡ CertCause.Memory) }
    {
        read_lines(alloc, bytes)
    }
}

/// The certificate that the text spells, with its version, or the first faulty line.
fn read_lines(alloc: Global, bytes: &[u8]) -> Result<(Version, Certificate), CertFault>
    ensures ok { IfOk result (λ r. format.SpellsCertificate bytes.now (version_in r.0) (certificate_of r.1)) }
    ensures fault { IfErr result (λ fault. IfSome (cause_of fault.cause)
        (λ cause. format.IsFirstCertFault bytes.now fault.line cause)) }
    ensures place { IfErr result (λ fault. IsBehindRightLines bytes.now fault.line) }
    ensures memory { IfErr result (λ fault. fault.cause ≡ CertCause.Memory
        → TakesMemoryAt bytes.now fault.line) }
{
    let mut progress = Progress::Start;
    let mut line = 1u64;
    let mut rest = bytes;
    while !rest.is_empty() {
        let Some((next, behind)) = split_line(rest) else {
            return Err(CertFault {
                line,
                cause: CertCause::Cut,
            });
        };
        match progress.with_line(alloc, next) {
            Ok(longer) => progress = longer,
            Err(cause) => return Err(CertFault { line, cause }),
        }
        line += 1;
        rest = behind;
    }
    match progress.end() {
        Ok(read) => Ok(read),
        Err(cause) => Err(CertFault { line, cause }),
    }
}
