//! Why a text spells no certificate.

ghost use Rattle.std.specs.Prelude.{◌≡◌};
ghost use Rattle.certificate_text.specs.CertificateOf.{cause_of_stop};

use format_words::Stop;
use thiserror::Error;

/// What is wrong with a line of a certificate's text.
#[derive(Clone, Copy, Debug, PartialEq, Eq, Error)]
pub enum CertCause {
    /// The first line is missing, or is neither `cert 1` nor `cert 2`.
    #[error("header")]
    Header,
    /// The second line is missing, or is none of the kinds.
    #[error("kind")]
    Kind,
    /// A later line is not what must stand there, is missing, or is one too many.
    #[error("shape")]
    Shape,
    /// The last line has no LF.
    #[error("cut")]
    Cut,
    /// The line's reading found no memory.
    #[error("memory")]
    Memory,
}

/// The first faulty line of a certificate's text, and what is wrong with it.
#[derive(Clone, Copy, Debug, PartialEq, Eq, Error)]
#[error("line {line}: {cause}")]
pub struct CertFault {
    /// The line's number, from 1. Where a line is missing, the number of the line that would be next.
    pub line: u64,
    /// What is wrong with it.
    pub cause: CertCause,
}

/// Why a line's reading stopped, as a cause; `unsaid` is that of a line which says no such thing.
pub fn cause_of_stop(unsaid: CertCause, stop: Stop) -> CertCause
    ensures { result ≡ cause_of_stop unsaid stop }
{
    match stop {
        Stop::Shape => unsaid,
        Stop::Memory => CertCause::Memory,
    }
}
