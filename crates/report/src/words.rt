//! Names and operations' names as JSON texts.

ghost use Rattle.std.specs.Prelude.{◌≡◌, ◌<◌, All, IfOk, string_bytes};
ghost use Rattle.serde_json.specs.Data.{string, array};
ghost use Rattle.serde_json.specs.View.{view};
ghost use Rattle.events.specs.Operations.{response};
ghost use Rattle.report.specs.JsonReport.{operation_json, names_json};

use events::{Memory, Name, OpName, Recording, Response};
use serde_json::Value;
use std::alloc::Global;
use verdict::Order;

/// An operation's name, as the text `r.n`.
pub fn operation_value(alloc: Global, name: OpName) -> Result<Value, Memory>
    ensures { IfOk result (λ v. view v ≡ operation_json name) }
{
    let OpName { replica, n } = name;
    let text = format!(in alloc; "{replica}.{n}")?;
    Ok(Value::String(text))
}

/// A name, as a text.
pub fn name_value(alloc: Global, name: &Name) -> Result<Value, Memory>
    ensures { IfOk result (λ v. view v ≡ string name.now) }
{
    let text = ascii_text(alloc, name.bytes())?;
    Ok(Value::String(text))
}

/// The text of ASCII bytes.
fn ascii_text(alloc: Global, bytes: &[u8]) -> Result<String, Memory>
    requires { All (λ b. b < 128) bytes.now }
    ensures { IfOk result (λ text. string_bytes text ≡ bytes.now) }
{
    match std::str::from_utf8(bytes) {
        Ok(text) => Ok(String::from_str(alloc, text)?),
        Err(_) => unreachable!(),
    }
}

/// The list of an order's names.
pub fn order_value(alloc: Global, order: &Order) -> Result<Value, Memory>
    ensures { IfOk result (λ v. view v ≡ array (names_json order.now)) }
{
    let mut names = Vec::with_capacity(alloc, order.len())?;
    for i in 0..order.len() {
        if let Some(name) = order.get(i) {
            names.push(name_value(alloc, name)?)?;
        }
    }
    Ok(Value::Array(names))
}

/// The list of the names that an operation returned.
pub fn returned_value(alloc: Global, recording: &Recording, name: OpName) -> Result<Value, Memory>
    ensures { IfOk result (λ v. view v ≡ array (names_json (response recording.now name))) }
{
    match recording.response(name) {
        None => Ok(Value::Array(Vec::new(alloc))),
        Some(response) => response_value(alloc, response),
    }
}

/// The list of a response's names.
fn response_value(alloc: Global, response: &Response) -> Result<Value, Memory>
    ensures { IfOk result (λ v. view v ≡ array (names_json response.now)) }
{
    let mut names = Vec::with_capacity(alloc, response.len())?;
    for i in 0..response.len() {
        if let Some(name) = response.get(i) {
            names.push(name_value(alloc, &name)?)?;
        }
    }
    Ok(Value::Array(names))
}
