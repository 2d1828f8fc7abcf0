//! The outline of a certificate: what its text says, with the long parts left as text.

ghost use Rattle.std.specs.Prelude.{◌≡◌, ◌≢◌, ◌+◌, ◌∷◌, [], ◌++◌, ◌≤◌, ◌<◌, ◌^◌, List, length, map};
ghost use Rattle.std.specs.Prelude.{IfOk, IfErr, IfSome, MatchResult, All};
ghost use Rattle.specification.specs.Conflict as conflict;
ghost use Rattle.specification.specs.LayerRule as layer_rule;
ghost use Rattle.specification.specs.Lines.{text_of};
ghost use Rattle.specification.specs.CertificateText as format;
ghost use Rattle.specification.specs.CertificateText.{IsSpellable, IsStep, IsRow, version_line};
ghost use Rattle.specification.specs.CertificateText.{kind_lines, step_line, row_line, gives_cycle};
ghost use Rattle.specification.specs.CertificateText.{certificate_lines};
ghost use Rattle.specification.specs.Versions as versions;
ghost use Rattle.certificate_text.specs.CertificateOf.{version_in, cause_of};
ghost use Rattle.certificate_text.specs.Outlines.{Outlines, EndsOutline, IsFaultBehind, IsFaultOfKind};
ghost use Rattle.certificate_text.specs.Outlines.{NamesFault, SaysAll};
ghost use Rattle.certificate_text.specs.Progress.{IsKind};

use super::fault::{CertCause, CertFault};
use super::first_lines::{
    end_first, kind_first, order_first, row_first, step_first, version_first,
};
use super::kind::Kind;
use super::version::Version;
use events::OpName;

/// What a certificate's text says, with its long parts as the text has them: each is right, and was read
/// over once.
#[derive(Clone, Copy, Debug)]
pub enum Outline<'a> {
    /// A name is inserted twice: as in `Certificate`.
    Doubled {
        first: OpName,
        again: OpName,
    },
    /// The contents of `at` are wrong.
    Contents {
        at: OpName,
    },
    /// The place of `at` is wrong.
    Position {
        at: OpName,
    },
    /// An order: what follows `order :` in its line, each name after a space.
    Accepted {
        names: &'a [u8],
    },
    /// A cycle of `k` steps: the lines of its steps, and those of its rows, each with its LF.
    Refused {
        k: u32,
        steps: &'a [u8],
        rows: &'a [u8],
    },
}

impl<'a> Outline<'a> {
    /// The outline of the certificate that the text spells, with its version, or the text's first faulty
    /// line and its cause.
    ///
    /// It takes no memory, and time in proportion to the text.
    pub fn read(bytes: &'a [u8]) -> Result<(Version, Outline<'a>), CertFault>
        ensures ok { IfOk result (λ r. (c : format.Certificate)
            × format.SpellsCertificate bytes.now (version_in r.0) c × Outlines r.1 c) }
        ensures fault { IfErr result (λ fault. IfSome (cause_of fault.cause)
            (λ cause. format.IsFirstCertFault bytes.now fault.line cause)) }
        ensures memory { IfErr result (λ fault. fault.cause ≢ CertCause.Memory) }
        // What is spelled is read.
        ensures spelled { (version : versions.Version) (c : format.Certificate)
            → format.SpellsCertificate bytes.now version c
            → MatchResult result (λ r. (version_in r.0 ≡ version) × Outlines r.1 c) (λ _. ⊥) }
    {
        outline_of(bytes)
    }
}

/// The outline of the certificate that the text spells, with its version, or the first faulty line.
fn outline_of(bytes: &[u8]) -> Result<(Version, Outline<'_>), CertFault>
    ensures ok { IfOk result (λ r. (c : format.Certificate)
        × format.SpellsCertificate bytes.now (version_in r.0) c × Outlines r.1 c) }
    ensures fault { IfErr result (λ fault. IfSome (cause_of fault.cause)
        (λ cause. format.IsFirstCertFault bytes.now fault.line cause)) }
    ensures memory { IfErr result (λ fault. fault.cause ≢ CertCause.Memory) }
{
    match version_first(bytes) {
        Ok((version, rest)) => match behind_version(rest) {
            Ok(outline) => Ok((version, outline)),
            Err(fault) => Err(fault),
        },
        Err(cause) => Err(CertFault { line: 1, cause }),
    }
}

/// The outline of which this text has the lines after the first, or the first faulty line.
fn behind_version(text: &[u8]) -> Result<Outline<'_>, CertFault>
    ensures ok { IfOk result (λ outline. (c : format.Certificate) × IsSpellable c
        × (text.now ≡ text_of (kind_lines c)) × Outlines outline c) }
    ensures fault { IfErr result (λ fault. (version : versions.Version)
        → IsFaultBehind (version_line version ∷ []) text.now fault.line fault.cause) }
{
    match kind_first(text) {
        Ok((kind, rest)) => behind_kind(kind, rest),
        Err(cause) => Err(CertFault { line: 2, cause }),
    }
}

/// The outline of this kind of which this text has the lines after the second, or the first faulty line.
fn behind_kind(kind: Kind, text: &[u8]) -> Result<Outline<'_>, CertFault>
    requires { IsKind kind }
    ensures ok { IfOk result (EndsOutline kind text.now) }
    ensures fault { IfErr result (λ fault. IsFaultOfKind kind text.now fault.line fault.cause) }
{
    match kind {
        Kind::Doubled { first, again } => match check_end(text) {
            Ok(()) => Ok(Outline::Doubled { first, again }),
            Err(fault) => Err(fault),
        },
        Kind::Contents { at } => match check_end(text) {
            Ok(()) => Ok(Outline::Contents { at }),
            Err(fault) => Err(fault),
        },
        Kind::Position { at } => match check_end(text) {
            Ok(()) => Ok(Outline::Position { at }),
            Err(fault) => Err(fault),
        },
        Kind::Accepted => order(text),
        Kind::Refused { k } => cycle(k, text),
    }
}

/// Looks whether no line follows the second, which names a fault.
fn check_end(text: &[u8]) -> Result<(), CertFault>
    ensures ok { IfOk result (λ _. (kind : Kind) (outline : Outline) → IsKind kind
        → SaysAll kind outline → EndsOutline kind text.now outline) }
    ensures fault { IfErr result (λ fault. (kind : Kind) → IsKind kind → NamesFault kind
        → IsFaultOfKind kind text.now fault.line fault.cause) }
{
    match end_first(text) {
        Ok(()) => Ok(()),
        Err(cause) => Err(CertFault { line: 3, cause }),
    }
}

/// The outline of an order, whose line follows `accepted`.
fn order(text: &[u8]) -> Result<Outline<'_>, CertFault>
    ensures ok { IfOk result (EndsOutline Kind.Accepted text.now) }
    ensures fault { IfErr result (λ fault. IsFaultOfKind Kind.Accepted text.now fault.line fault.cause) }
{
    match order_first(text) {
        Ok((names, rest)) => match end_first(rest) {
            Ok(()) => Ok(Outline::Accepted { names }),
            Err(cause) => Err(CertFault { line: 4, cause }),
        },
        Err(cause) => Err(CertFault { line: 3, cause }),
    }
}

/// The outline of a cycle, whose steps and rows follow `refused k`.
fn cycle(k: u32, text: &[u8]) -> Result<Outline<'_>, CertFault>
    requires { 2 ≤ k }
    ensures ok { IfOk result (EndsOutline (Kind.Refused k) text.now) }
    ensures fault { IfErr result (λ fault. IsFaultOfKind (Kind.Refused k) text.now fault.line fault.cause) }
{
    let rows = match skip_steps(k, text) {
        Ok(rest) => rest,
        Err(fault) => return Err(fault),
    };
    match check_rows(k, rows) {
        Ok(()) => {
            let (steps, _) = text.split_at(text.len() - rows.len());
            Ok(Outline::Refused { k, steps, rows })
        }
        Err(fault) => Err(fault),
    }
}

/// What follows the lines of `k` steps, or the first faulty line.
fn skip_steps(k: u32, text: &[u8]) -> Result<&[u8], CertFault>
    requires { 2 ≤ k }
    ensures ok { IfOk result (λ rest. (steps : List conflict.Step) × (length steps ≡ k) × All IsStep steps
        × (text.now ≡ text_of (map step_line steps) ++ rest.now)) }
    ensures fault { IfErr result (λ fault. IsFaultOfKind (Kind.Refused k) text.now fault.line fault.cause) }
{
    let mut rest = text;
    for i in 0..k {
        match step_first(rest) {
            Ok(behind) => rest = behind,
            Err(cause) => {
                let line = u64::from(i) + 3;
                return Err(CertFault { line, cause });
            }
        }
    }
    Ok(rest)
}

/// Looks whether the text is the lines of rows, none for `k` of 2, or finds the first faulty line.
fn check_rows(k: u32, text: &[u8]) -> Result<(), CertFault>
    requires { 2 ≤ k }
    ensures ok { IfOk result (λ _. (rows : List layer_rule.Row) × (k ≡ 2 → rows ≡ []) × All (IsRow k) rows
        × (text.now ≡ text_of (map row_line rows))) }
    ensures fault { IfErr result (λ fault. (version : versions.Version) (steps : List conflict.Step)
        → length steps ≡ k → All IsStep steps
        → IsFaultBehind (certificate_lines version (gives_cycle k steps [])) text.now fault.line
        fault.cause) }
{
    if k > 2 {
        return check_some_rows(k, text);
    }
    match end_first(text) {
        Ok(()) => Ok(()),
        Err(cause) => Err(CertFault { line: 5, cause }),
    }
}

/// Looks whether the text is the lines of rows, or finds the first faulty line.
fn check_some_rows(k: u32, text: &[u8]) -> Result<(), CertFault>
    requires { 3 ≤ k }
    ensures ok { IfOk result (λ _. (rows : List layer_rule.Row) × All (IsRow k) rows
        × (text.now ≡ text_of (map row_line rows))) }
    ensures fault { IfErr result (λ fault. (version : versions.Version) (steps : List conflict.Step)
        → length steps ≡ k → All IsStep steps
        → IsFaultBehind (certificate_lines version (gives_cycle k steps [])) text.now fault.line
        fault.cause) }
{
    let mut line = u64::from(k) + 3;
    let mut rest = text;
    while !rest.is_empty() {
        match row_first(k, rest) {
            Ok(behind) => rest = behind,
            Err(cause) => return Err(CertFault { line, cause }),
        }
        line += 1;
    }
    Ok(())
}
