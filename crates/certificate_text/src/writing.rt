//! The text of a certificate, line by line.

ghost use Rattle.std.specs.Prelude.{◌≡◌, ◌==◌, ◌++◌, ◌∷◌, [], if◌then◌else◌, codes, map, IfOk, OnOk};
ghost use Rattle.specification.specs.Lines.{text_of, names_text};
ghost use Rattle.specification.specs.CertificateText.{IsSpellable, certificate_text, kind_lines, layers_text};
ghost use Rattle.specification.specs.CertificateText.{row_line, step_line, version_line};
ghost use Rattle.specification.specs.CertificateText as format;
ghost use Rattle.certificate_text.specs.CertificateOf.{certificate_of, version_in};

use super::certificate::Certificate;
use super::version::Version;
use events::Memory;
use format_words::{push_doubled, push_faulty, push_list, push_number, push_order, push_shown};
use std::alloc::Global;
use witnesses::{Layer, Layers, Order, Row, Step, Steps};

impl Certificate {
    /// The text that spells the certificate in a version. What `certify` and `read` answer has a spelling.
    ///
    /// The rows are written as they are. Those that `certify` makes are of version two: no clause says that
    /// they are valid in version one.
    ///
    /// It takes memory and time in proportion to the text.
    pub fn write(&self, alloc: Global, version: Version) -> Result<Vec<u8>, Memory>
        requires spellable { IsSpellable (certificate_of self.now) }
        ensures { IfOk result (λ bytes. bytes.items
            ≡ certificate_text (version_in version) (certificate_of self.now)) }
    {
        let mut text = Vec::from_slice(alloc, first_line(version))?;
        push_kind(alloc, &mut text, self)?;
        Ok(text)
    }
}

/// The first line of a version.
fn first_line(version: Version) -> &'static [u8]
    ensures { result.now ≡ version_line (version_in version) ++ 10 ∷ [] }
{
    match version {
        Version::One => b"cert 1\n",
        Version::Two => b"cert 2\n",
    }
}

/// Adds the lines after the first.
fn push_kind(alloc: Global, text: &mut Vec<u8>, certificate: &Certificate) -> Result<(), Memory>
    ensures { OnOk result (text.new.items
        ≡ text.old.items ++ text_of (kind_lines (certificate_of certificate.now))) }
{
    match certificate {
        Certificate::Doubled { first, again } => push_doubled(alloc, text, *first, *again),
        Certificate::Contents { at } => push_faulty(alloc, text, b"contents ", *at, b"\n"),
        Certificate::Position { at } => push_faulty(alloc, text, b"position ", *at, b"\n"),
        Certificate::Accepted(order) => push_order(text, b"accepted\norder :", order.names()),
        Certificate::Refused { k, steps, layers } => push_refused(alloc, text, *k, steps, layers),
    }
}

/// Adds the lines of a refusal.
fn push_refused(
    alloc: Global,
    text: &mut Vec<u8>,
    k: u32,
    steps: &Steps,
    layers: &Layers,
) -> Result<(), Memory>
    ensures { OnOk result (text.new.items
        ≡ text.old.items ++ text_of (kind_lines (format.gives_cycle k steps.now layers.now))) }
{
    text.extend_from_slice(b"refused ")?;
    push_number(alloc, text, k)?;
    text.push(b'\n')?;
    push_steps(alloc, text, steps)?;
    push_rows(text, layers)
}

/// Adds the lines of steps.
fn push_steps(alloc: Global, text: &mut Vec<u8>, steps: &Steps) -> Result<(), Memory>
    ensures { OnOk result (text.new.items ≡ text.old.items ++ text_of (map step_line steps.now)) }
{
    for i in 0..steps.len() {
        if let Some(step) = steps.get(i) {
            push_step(alloc, text, step)?;
        }
    }
    Ok(())
}

/// Adds a step's line: the two elements, and the operation that shows them.
fn push_step(alloc: Global, text: &mut Vec<u8>, step: &Step) -> Result<(), Memory>
    ensures { OnOk result (text.new.items ≡ text.old.items ++ (step_line step.now ++ 10 ∷ [])) }
{
    push_shown(alloc, text, &step.from, &step.to, step.shown)?;
    text.push(b'\n')?;
    Ok(())
}

/// Adds the lines of rows.
fn push_rows(text: &mut Vec<u8>, layers: &Layers) -> Result<(), Memory>
    ensures { OnOk result (text.new.items ≡ text.old.items ++ text_of (map row_line layers.now)) }
{
    for i in 0..layers.len() {
        if let Some(row) = layers.get(i) {
            push_row(text, row)?;
        }
    }
    Ok(())
}

/// Adds a row's line to a text: `layers`, and the names of each layer, with ` /` between two layers.
///
/// So a certificate can be written row by row, where there is no room for all rows at once. It takes time in
/// proportion to the line, and no memory but the text's.
pub fn push_row(text: &mut Vec<u8>, row: &Row) -> Result<(), Memory>
    ensures { OnOk result (text.new.items ≡ text.old.items ++ (row_line row.now ++ 10 ∷ [])) }
{
    text.extend_from_slice(b"layers")?;
    push_layers(text, row)?;
    text.push(b'\n')?;
    Ok(())
}

/// Adds a row's layers, with ` /` between two of them.
fn push_layers(text: &mut Vec<u8>, row: &Row) -> Result<(), Memory>
    ensures { OnOk result (text.new.items ≡ text.old.items ++ layers_text row.now) }
{
    for i in 0..row.len() {
        if let Some(layer) = row.get(i) {
            push_layer_at(text, i, layer)?;
        }
    }
    Ok(())
}

/// Adds the layer at a place of its row, after ` /` where another stands before it.
fn push_layer_at(text: &mut Vec<u8>, place: usize, layer: &Layer) -> Result<(), Memory>
    ensures { OnOk result (text.new.items
        ≡ text.old.items ++ ((if place == 0 then [] else codes " /") ++ names_text layer.now)) }
{
    if place > 0 {
        text.extend_from_slice(b" /")?;
    }
    push_list(text, layer.items())
}
