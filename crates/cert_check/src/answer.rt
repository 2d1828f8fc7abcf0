//! What the checker answers.

use events::{Name, OpName};

/// What a certificate shows.
#[derive(Clone, Copy, Debug, PartialEq, Eq)]
pub enum Kind {
    /// The first fault is a name that is inserted twice.
    Doubled,
    /// The first fault is an operation with wrong contents.
    Contents,
    /// The first fault is an insert that does not stand where it was asked for.
    Position,
    /// Some order follows every response, so strong holds.
    Accepted,
    /// The conflict number is the certificate's k, and the operations of its steps are in conflict.
    Refused,
}

/// Why a certificate is not valid. Where several reasons hold, the first of this list is answered; rows are
/// looked at one after the other, in order of the elements' numbers.
#[derive(Clone, Copy, Debug, PartialEq, Eq)]
pub enum Reason {
    /// The trace spells no recording.
    Trace,
    /// The certificate's text spells no certificate.
    CertText,
    /// The recording has a fault, and the certificate is not that fault; or it has none, and the certificate
    /// names one.
    WrongFault,
    /// The order is not one of all elements, each once.
    NotOrder,
    /// The response of `at` does not follow the order, and that of no lesser operation.
    NotFollowed { at: OpName },
    /// The step with this number, counted from 1, is not shown by its operation, or does not end where the
    /// next one begins, and no earlier one is so.
    NoCycle { step: u32 },
    /// The row at the place of this element is missing or has another source.
    MissingLayer { source: Name },
    /// The row of this element does not meet the layer rule. So it is in version two where the row has an
    /// element that is numbered below.
    ShortLayer { source: Name },
    /// A row with this source stands after those of all elements.
    ExtraLayer { source: Name },
}

/// The checker's answer.
#[derive(Clone, Copy, Debug, PartialEq, Eq)]
pub enum Answer {
    /// The certificate is valid.
    Yes(Kind),
    /// It is not, and this is the first reason that holds.
    No(Reason),
}
