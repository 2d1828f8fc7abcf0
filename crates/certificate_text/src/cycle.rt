//! A cycle's lines: its steps, then its rows.

ghost use Rattle.std.specs.Prelude.{◌≡◌, ◌≢◌, ◌∷◌, [], ◌++◌, ◌<◌, ◌≤◌, ◌^◌, length, IfOk, IfErr, IfSome};
ghost use Rattle.certificate_text.specs.CertificateOf.{cause_of};
ghost use Rattle.certificate_text.specs.Place.{TakesMemory};
ghost use Rattle.certificate_text.specs.Progress.{AreSpelling, IsRightCycle, IsWrongBehind, LacksMore};
ghost use Rattle.certificate_text.specs.Progress.{cycle_lines};

use super::certificate::Certificate;
use super::entries::{row_of, step_of};
use super::fault::{CertCause, cause_of_stop};
use super::version::Version;
use std::alloc::Global;
use witnesses::{Layers, Row, Step, Steps};

/// The steps and rows so far of a cycle of `k` steps.
#[derive(Drop)]
pub struct Cycle {
    pub version: Version,
    pub k: u32,
    pub steps: Vec<Step>,
    pub rows: Vec<Row>,
}

impl Cycle {
    /// The cycle of which no step is there yet.
    pub fn new(alloc: Global, version: Version, k: u32) -> Cycle
        ensures { (result.version ≡ version) × (result.k ≡ k) × (result.steps.items ≡ [])
            × (result.rows.items ≡ []) }
    {
        Cycle {
            version,
            k,
            steps: Vec::new(alloc),
            rows: Vec::new(alloc),
        }
    }

    /// Takes the next line.
    pub fn with_line(self, alloc: Global, line: &[u8]) -> Result<Cycle, CertCause>
        requires { IsRightCycle self }
        ensures ok { IfOk result (λ c. IsRightCycle c × (cycle_lines c ≡ cycle_lines self ++ line.now ∷ [])) }
        ensures fault { IfErr result (λ cause. IfSome (cause_of cause)
            (IsWrongBehind (cycle_lines self) line.now)) }
        ensures memory { IfErr result (λ cause. cause ≡ CertCause.Memory
            → TakesMemory (cycle_lines self) line.now) }
    {
        if self.steps.len() < self.k as usize {
            self.with_step(line)
        } else if self.k == 2 {
            Err(CertCause::Shape)
        } else {
            self.with_row(alloc, line)
        }
    }

    /// Takes a step's line.
    fn with_step(mut self, line: &[u8]) -> Result<Cycle, CertCause>
        requires right { IsRightCycle self }
        requires more { length self.steps.items < self.k }
        ensures ok { IfOk result (λ c. IsRightCycle c × (cycle_lines c ≡ cycle_lines self ++ line.now ∷ [])) }
        ensures fault { IfErr result (λ cause. IfSome (cause_of cause)
            (IsWrongBehind (cycle_lines self) line.now)) }
        ensures memory { IfErr result (λ cause. cause ≡ CertCause.Memory
            → TakesMemory (cycle_lines self) line.now) }
    {
        match step_of(line) {
            Ok(step) => match self.steps.push(step) {
                Ok(()) => Ok(self),
                Err(_) => Err(CertCause::Memory),
            },
            Err(_) => Err(CertCause::Shape),
        }
    }

    /// Takes a row's line, after all steps.
    fn with_row(mut self, alloc: Global, line: &[u8]) -> Result<Cycle, CertCause>
        requires right { IsRightCycle self }
        requires steps { length self.steps.items ≡ self.k }
        requires long { 3 ≤ self.k }
        ensures ok { IfOk result (λ c. IsRightCycle c × (cycle_lines c ≡ cycle_lines self ++ line.now ∷ [])) }
        ensures fault { IfErr result (λ cause. IfSome (cause_of cause)
            (IsWrongBehind (cycle_lines self) line.now)) }
        ensures memory { IfErr result (λ cause. cause ≡ CertCause.Memory
            → TakesMemory (cycle_lines self) line.now) }
    {
        match row_of(alloc, self.k, line) {
            Ok(row) => match self.rows.push(row) {
                Ok(()) => Ok(self),
                Err(_) => Err(CertCause::Memory),
            },
            Err(stop) => Err(cause_of_stop(CertCause::Shape, stop)),
        }
    }

    /// The certificate with its version, where no step is missing.
    pub fn end(self) -> Result<(Version, Certificate), CertCause>
        requires { IsRightCycle self }
        ensures ok { IfOk result (AreSpelling (cycle_lines self)) }
        ensures fault { IfErr result (λ cause. IfSome (cause_of cause) (LacksMore (cycle_lines self))) }
        ensures memory { IfErr result (λ cause. cause ≢ CertCause.Memory) }
    {
        if self.steps.len() < self.k as usize {
            return Err(CertCause::Shape);
        }
        let certificate = Certificate::Refused {
            k: self.k,
            steps: Steps::from_items(self.steps),
            layers: Layers::from_items(self.rows),
        };
        Ok((self.version, certificate))
    }
}
