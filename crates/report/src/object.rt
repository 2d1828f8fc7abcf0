//! The report as a JSON object.

ghost use Rattle.std.specs.Prelude.{◌≡◌, IfOk};
ghost use Rattle.serde_json.specs.Data.{array};
ghost use Rattle.serde_json.specs.View.{view};
ghost use Rattle.verdict.specs.VerdictOf.{verdict_of};
ghost use Rattle.report.specs.JsonReport.{step_json, steps_json};
ghost use Rattle.report.specs.Objects.{doubled_object, faulty_object, accepted_object, refused_object};
ghost use Rattle.report.specs.Objects.{step_object, verdict_object};

use super::counts::Counts;
use super::words::{name_value, operation_value, order_value, returned_value};
use events::{Memory, Recording};
use serde_json::{Value, json};
use std::alloc::{AllocError, Global};
use verdict::{Step, Steps, Verdict};

/// The object of a recording's verdict.
pub fn object_of(
    alloc: Global,
    recording: &Recording,
    counts: Counts,
    verdict: &Verdict,
) -> Result<Value, Memory>
    ensures { IfOk result (λ v. view v
        ≡ verdict_object recording.now.replicas counts.operations counts.inserts recording.now
        (verdict_of verdict.now)) }
{
    let replicas = recording.replicas();
    match verdict {
        Verdict::Doubled { first, again } => {
            let first = operation_value(alloc, *first)?;
            let again = operation_value(alloc, *again)?;
            Ok(doubled(alloc, replicas, counts, first, again)?)
        }
        Verdict::Contents { at } => {
            let at = operation_value(alloc, *at)?;
            Ok(faulty(alloc, replicas, counts, at, "contents")?)
        }
        Verdict::Position { at } => {
            let at = operation_value(alloc, *at)?;
            Ok(faulty(alloc, replicas, counts, at, "position")?)
        }
        Verdict::Accepted(order) => {
            let order = order_value(alloc, order)?;
            Ok(accepted(alloc, replicas, counts, order)?)
        }
        Verdict::Refused { k, steps } => {
            let steps = steps_value(alloc, recording, steps)?;
            Ok(refused(alloc, replicas, counts, *k, steps)?)
        }
    }
}

/// The object of a doubled name.
fn doubled(
    alloc: Global,
    replicas: u32,
    counts: Counts,
    first: Value,
    again: Value,
) -> Result<Value, AllocError>
    ensures { IfOk result (λ v. view v ≡ doubled_object replicas counts.operations counts.inserts (view first)
        (view again)) }
{
    json!(in alloc; {
        "again": again,
        "first": first,
        "inserts": counts.inserts,
        "operations": counts.operations,
        "replicas": replicas,
        "verdict": "doubled"
    })
}

/// The object of an operation that is wrong.
fn faulty(
    alloc: Global,
    replicas: u32,
    counts: Counts,
    at: Value,
    verdict: &str,
) -> Result<Value, AllocError>
    ensures { IfOk result (λ v. view v ≡ faulty_object replicas counts.operations counts.inserts
        (view at) verdict.now) }
{
    json!(in alloc; {
        "at": at,
        "inserts": counts.inserts,
        "operations": counts.operations,
        "replicas": replicas,
        "strong": false,
        "verdict": verdict,
        "weak": false
    })
}

/// The object of an acceptance.
fn accepted(alloc: Global, replicas: u32, counts: Counts, order: Value) -> Result<Value, AllocError>
    ensures { IfOk result (λ v. view v ≡ accepted_object replicas counts.operations counts.inserts
        (view order)) }
{
    json!(in alloc; {
        "inserts": counts.inserts,
        "operations": counts.operations,
        "order": order,
        "replicas": replicas,
        "strong": true,
        "verdict": "accepted",
        "weak": true
    })
}

/// The object of a refusal.
fn refused(
    alloc: Global,
    replicas: u32,
    counts: Counts,
    k: u32,
    steps: Value,
) -> Result<Value, AllocError>
    ensures { IfOk result (λ v. view v ≡ refused_object replicas counts.operations counts.inserts k
        (view steps)) }
{
    json!(in alloc; {
        "inserts": counts.inserts,
        "k": k,
        "operations": counts.operations,
        "replicas": replicas,
        "steps": steps,
        "strong": false,
        "verdict": "refused",
        "weak": k != 2
    })
}

/// The list of steps.
fn steps_value(alloc: Global, recording: &Recording, steps: &Steps) -> Result<Value, Memory>
    ensures { IfOk result (λ v. view v ≡ array (steps_json recording.now steps.now)) }
{
    let mut values = Vec::with_capacity(alloc, steps.len())?;
    for i in 0..steps.len() {
        if let Some(step) = steps.get(i) {
            values.push(step_value(alloc, recording, step)?)?;
        }
    }
    Ok(Value::Array(values))
}

/// A step: the two elements, the operation that shows them, and its whole response.
fn step_value(alloc: Global, recording: &Recording, step: &Step) -> Result<Value, Memory>
    ensures { IfOk result (λ v. view v ≡ step_json recording.now step.now) }
{
    let from = name_value(alloc, &step.from)?;
    let response = returned_value(alloc, recording, step.shown)?;
    let shown = operation_value(alloc, step.shown)?;
    let to = name_value(alloc, &step.to)?;
    Ok(step_object(alloc, from, response, shown, to)?)
}

/// The object of a step.
fn step_object(
    alloc: Global,
    from: Value,
    response: Value,
    shown: Value,
    to: Value,
) -> Result<Value, AllocError>
    ensures { IfOk result (λ v. view v ≡ step_object (view from) (view response) (view shown) (view to)) }
{
    json!(in alloc; {
        "from": from,
        "response": response,
        "shown": shown,
        "to": to
    })
}
