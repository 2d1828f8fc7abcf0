//! How far a text is read, and one line more.

ghost use Rattle.std.specs.Prelude.{◌≡◌, ◌≢◌, ◌∷◌, [], ◌++◌, IfOk, IfErr, IfSome};
ghost use Rattle.specification.specs.CertificateText.{version_line};
ghost use Rattle.certificate_text.specs.CertificateOf.{version_in, cause_of};
ghost use Rattle.certificate_text.specs.Place.{TakesMemory};
ghost use Rattle.certificate_text.specs.Progress.{AreSpelling, IsKind, IsRight, IsWrongBehind, LacksMore};
ghost use Rattle.certificate_text.specs.Progress.{good, kind_line};
ghost use Rattle.std.specs.Prelude.{codes};

use super::certificate::Certificate;
use super::cycle::Cycle;
use super::entries::order_of;
use super::fault::{CertCause, cause_of_stop};
use super::kind::{Kind, kind_of};
use super::version::Version;
use std::alloc::Global;
use witnesses::Order;

/// What the right lines so far say.
#[derive(Drop)]
pub enum Progress {
    /// There is no line yet.
    Start,
    /// The first line is there.
    Headed(Version),
    /// The first two lines are there.
    Kind(Version, Kind),
    /// An acceptance is there, with its order.
    Ordered(Version, Order),
    /// A refusal is there, with the first of its steps and rows.
    Cycle(Cycle),
}

/// The second line, after the first.
fn second(version: Version, line: &[u8]) -> Result<Progress, CertCause>
    ensures ok { IfOk result (λ p. IsRight p × (good p ≡ version_line (version_in version) ∷ line.now ∷ [])) }
    ensures fault { IfErr result (λ cause. IfSome (cause_of cause)
        (IsWrongBehind (version_line (version_in version) ∷ []) line.now)) }
    ensures memory { IfErr result (λ cause. cause ≢ CertCause.Memory) }
{
    match kind_of(line) {
        Ok(kind) => Ok(Progress::Kind(version, kind)),
        Err(_) => Err(CertCause::Kind),
    }
}

/// The order's line, after `accepted`.
fn ordered(alloc: Global, version: Version, line: &[u8]) -> Result<Progress, CertCause>
    ensures ok { IfOk result (λ p. IsRight p
        × (good p ≡ version_line (version_in version) ∷ codes "accepted" ∷ line.now ∷ [])) }
    ensures fault { IfErr result (λ cause. IfSome (cause_of cause)
        (IsWrongBehind (version_line (version_in version) ∷ codes "accepted" ∷ []) line.now)) }
    ensures memory { IfErr result (λ cause. cause ≡ CertCause.Memory
        → TakesMemory (version_line (version_in version) ∷ codes "accepted" ∷ []) line.now) }
{
    match order_of(alloc, line) {
        Ok(order) => Ok(Progress::Ordered(version, order)),
        Err(stop) => Err(cause_of_stop(CertCause::Shape, stop)),
    }
}

/// The third line.
fn third(alloc: Global, version: Version, kind: Kind, line: &[u8]) -> Result<Progress, CertCause>
    requires { IsKind kind }
    ensures ok { IfOk result (λ p. IsRight p
        × (good p ≡ version_line (version_in version) ∷ kind_line kind ∷ line.now ∷ [])) }
    ensures fault { IfErr result (λ cause. IfSome (cause_of cause)
        (IsWrongBehind (version_line (version_in version) ∷ kind_line kind ∷ []) line.now)) }
    ensures memory { IfErr result (λ cause. cause ≡ CertCause.Memory
        → TakesMemory (version_line (version_in version) ∷ kind_line kind ∷ []) line.now) }
{
    match kind {
        Kind::Accepted => ordered(alloc, version, line),
        Kind::Refused { k } => match Cycle::new(alloc, version, k).with_line(alloc, line) {
            Ok(cycle) => Ok(Progress::Cycle(cycle)),
            Err(cause) => Err(cause),
        },
        Kind::Doubled { .. } => Err(CertCause::Shape),
        Kind::Contents { .. } => Err(CertCause::Shape),
        Kind::Position { .. } => Err(CertCause::Shape),
    }
}

/// The certificate of two lines, with its version.
fn fault_alone(version: Version, kind: Kind) -> Result<(Version, Certificate), CertCause>
    requires { IsKind kind }
    ensures ok { IfOk result (AreSpelling (version_line (version_in version) ∷ kind_line kind ∷ [])) }
    ensures fault { IfErr result (λ cause. IfSome (cause_of cause)
        (LacksMore (version_line (version_in version) ∷ kind_line kind ∷ []))) }
    ensures memory { IfErr result (λ cause. cause ≢ CertCause.Memory) }
{
    match kind {
        Kind::Doubled { first, again } => Ok((version, Certificate::Doubled { first, again })),
        Kind::Contents { at } => Ok((version, Certificate::Contents { at })),
        Kind::Position { at } => Ok((version, Certificate::Position { at })),
        Kind::Accepted => Err(CertCause::Shape),
        Kind::Refused { .. } => Err(CertCause::Shape),
    }
}

impl Progress {
    /// Takes the next line, without its LF.
    pub fn with_line(self, alloc: Global, line: &[u8]) -> Result<Progress, CertCause>
        requires { IsRight self }
        ensures ok { IfOk result (λ p. IsRight p × (good p ≡ good self ++ line.now ∷ [])) }
        ensures fault { IfErr result (λ cause. IfSome (cause_of cause) (IsWrongBehind (good self) line.now)) }
        ensures memory { IfErr result (λ cause. cause ≡ CertCause.Memory → TakesMemory (good self) line.now) }
    {
        match self {
            Progress::Start => match Version::of_line(line) {
                Some(version) => Ok(Progress::Headed(version)),
                None => Err(CertCause::Header),
            },
            Progress::Headed(version) => second(version, line),
            Progress::Kind(version, kind) => third(alloc, version, kind, line),
            Progress::Ordered(_, _) => Err(CertCause::Shape),
            Progress::Cycle(cycle) => match cycle.with_line(alloc, line) {
                Ok(cycle) => Ok(Progress::Cycle(cycle)),
                Err(cause) => Err(cause),
            },
        }
    }

    /// The certificate with its version, where no line is missing.
    pub fn end(self) -> Result<(Version, Certificate), CertCause>
        requires { IsRight self }
        ensures ok { IfOk result (AreSpelling (good self)) }
        ensures fault { IfErr result (λ cause. IfSome (cause_of cause) (LacksMore (good self))) }
        ensures memory { IfErr result (λ cause. cause ≢ CertCause.Memory) }
    {
        match self {
            Progress::Start => Err(CertCause::Header),
            Progress::Headed(_) => Err(CertCause::Kind),
            Progress::Kind(version, kind) => fault_alone(version, kind),
            Progress::Ordered(version, order) => Ok((version, Certificate::Accepted(order))),
            Progress::Cycle(cycle) => cycle.end(),
        }
    }
}
