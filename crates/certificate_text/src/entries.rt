//! The lines after the second: an order, steps and rows.

ghost use Rattle.std.specs.Prelude.{◌≡◌, ◌+◌, ◌<◌, ◌≤◌, ◌^◌, ◌∷◌, [], List, Some, None, IfOk, IfErr};
ghost use Rattle.std.specs.Prelude.{bytes_eq, codes};
ghost use Rattle.events.specs.Names.{NameBytes};
ghost use Rattle.specification.specs.Lines.{names_text};
ghost use Rattle.format_words.specs.Words.{Word, words_of, words_behind};
ghost use Rattle.format_words.specs.Reading.{after_word, Fails, Gives, GivesOne, Grows, HasSome, Says};
ghost use Rattle.certificate_text.specs.Outlines.{Tells};
ghost use Rattle.certificate_text.specs.Reading.{order_at, step_at, layers_at, onto_layers, has_form, row_at};
ghost use Rattle.certificate_text.specs.Reading.{form_of, is_form, HasForm, GoesOn};
ghost use Rattle.certificate_text.specs.StepSaid.{step_said};

use events::{Name, OpName, is_name};
use format_words::{
    Shape, Stop, check_names, end, first_word, name_of, names, next_word, operation_of, skip_word,
};
use std::alloc::Global;
use witnesses::{Layer, Order, Row, Step};

/// How many bytes stand before the names in an order's line: those of `order :`.
const BEFORE_NAMES: usize = 7;
/// How many bytes the word `step` has.
const STEP_BYTES: usize = 4;

/// `order :` and names.
#[tactic(auto, unfolding(crate::specs::Reading::order_at, format_words::specs::Reading::after_word))]
pub fn order_of(alloc: Global, line: &[u8]) -> Result<Order, Stop>
    ensures { Gives HasSome (λ order. order) result (order_at (words_of line.now)) }
{
    let (word, rest) = first_word(line);
    if word != b"order".as_slice() {
        return Err(Stop::Shape);
    }
    let rest = skip_word(rest, b":")?;
    let names = names(alloc, rest)?;
    Ok(Order::from_names(names))
}

/// Looks whether the line is `order :` and names.
#[tactic(auto, unfolding(crate::specs::Reading::order_at, format_words::specs::Reading::after_word))]
fn check_order(line: &[u8]) -> Result<(), Shape>
    ensures ok { IfOk result (λ _. GivesOne (λ _. Unit {0}) (order_at (words_of line.now))) }
    ensures shape { IfErr result (λ _. order_at (words_of line.now) ≡ None) }
{
    let (word, rest) = first_word(line);
    if word != b"order".as_slice() {
        return Err(Shape);
    }
    let rest = skip_word(rest, b":")?;
    check_names(rest)
}

/// What follows `order :` in an order's line: its names, each after a space. It takes no memory.
pub fn order_names(line: &[u8]) -> Result<&[u8], Shape>
    ensures ok { IfOk result (λ rest. (order : List NameBytes) × (order_at (words_of line.now) ≡ Some order)
        × (rest.now ≡ names_text order)) }
    ensures shape { IfErr result (λ _. order_at (words_of line.now) ≡ None) }
{
    check_order(line)?;
    let (_, names) = line.split_at(BEFORE_NAMES);
    Ok(names)
}

/// Whether the word is `step`.
fn is_step(word: &[u8]) -> bool
    ensures { result ≡ bytes_eq word.now (codes "step") }
{
    matches!(word, [b's', b't', b'e', b'p'])
}

/// What follows the line's first word, which must be `step`.
///
/// Where a space follows `step`, as in each right line, the first five bytes tell it, and no space is looked
/// for.
#[tactic(auto, unfolding(format_words::specs::Reading::after_word))]
fn after_step(line: &[u8]) -> Result<&[u8], Shape>
    ensures { Says (λ rest. words_behind rest.now) result (after_word (codes "step") (words_of line.now)) }
{
    if let [b's', b't', b'e', b'p', b' ', ..] = line {
        let (_, rest) = line.split_at(STEP_BYTES);
        return Ok(rest);
    }
    let (word, rest) = first_word(line);
    if is_step(word) { Ok(rest) } else { Err(Shape) }
}

/// A step whose two names are parts of its line.
#[derive(Clone, Copy)]
pub struct StepWords<'a> {
    /// The element that is shown first, as bytes of the line.
    pub from: &'a [u8],
    /// The element that is shown after it, as bytes of the line.
    pub to: &'a [u8],
    /// The operation whose response shows `from` before `to`.
    pub shown: OpName,
}

/// `step`, two names and an operation. It gives the names as parts of the line.
#[tactic(auto, unfolding(crate::specs::Reading::step_at, format_words::specs::Reading::after_word, format_words::specs::Reading::name_at, format_words::specs::Reading::name_of, format_words::specs::Reading::operation_at))]
pub fn step_words(line: &[u8]) -> Result<StepWords<'_>, Shape>
    ensures { Says step_said result (step_at (words_of line.now)) }
{
    let rest = after_step(line)?;
    let (from, rest) = next_word(rest)?;
    if !is_name(from) {
        return Err(Shape);
    }
    let (to, rest) = next_word(rest)?;
    if !is_name(to) {
        return Err(Shape);
    }
    let (word, rest) = next_word(rest)?;
    let shown = operation_of(word)?;
    end(rest)?;
    Ok(StepWords { from, to, shown })
}

/// The same step, with names of its own.
pub fn step_of(line: &[u8]) -> Result<Step, Shape>
    ensures { Says (λ step. step) result (step_at (words_of line.now)) }
{
    match step_words(line) {
        // Both are names, so neither `name_of` fails.
        Ok(step) => Ok(Step {
            from: name_of(step.from)?,
            to: name_of(step.to)?,
            shown: step.shown,
        }),
        Err(Shape) => Err(Shape),
    }
}

/// Goes on by one word: `/` ends a layer, a name is added to it. What it gives is the layer from then on.
#[tactic(auto, unfolding(crate::specs::Reading::layers_at))]
fn with_word(
    alloc: Global,
    row: &mut Vec<Layer>,
    mut layer: Vec<Name>,
    word: &[u8],
) -> Result<Vec<Name>, Stop>
    ensures ok { IfOk result (λ next. (ws : List Word)
        → onto_layers row.old.items (layers_at layer.items (word.now ∷ ws))
        ≡ onto_layers row.new.items (layers_at next.items ws)) }
    ensures shape { IfErr result (λ stop. stop ≡ Stop.Shape → (ws : List Word)
        → layers_at layer.items (word.now ∷ ws) ≡ None) }
{
    if word == b"/".as_slice() {
        row.push(Layer::from_items(layer))?;
        return Ok(Vec::new(alloc));
    }
    let name = name_of(word)?;
    layer.push(name)?;
    Ok(layer)
}

/// The layers that a row's words say, with `/` between two of them.
fn layers(alloc: Global, rest: &[u8]) -> Result<Vec<Layer>, Stop>
    ensures { Grows (λ row. row.items) result (layers_at [] (words_behind rest.now)) }
{
    let mut row = Vec::new(alloc);
    let mut layer = Vec::new(alloc);
    let mut rest = rest;
    while !rest.is_empty() {
        let (word, behind) = next_word(rest)?;
        layer = with_word(alloc, &mut row, layer, word)?;
        rest = behind;
    }
    row.push(Layer::from_items(layer))?;
    Ok(row)
}

/// Whether these are `k - 1` layers, the first of them with one name.
fn has_form(k: u32, layers: &[Layer]) -> bool
    ensures { result ≡ has_form k layers.now }
{
    match layers.first() {
        Some(source) => source.len() == 1 && layers.len() as u64 + 1 == u64::from(k),
        None => false,
    }
}

/// Counts one word: `/` ends a layer, and a name is one of the first layer where none has ended yet.
fn count_word(form: (usize, usize), word: &[u8]) -> Result<(usize, usize), Shape>
    requires { form.0 + form.1 + 1 < 2 ^ 64 }
    ensures more { IfOk result (λ next. next.0 + next.1 ≤ form.0 + form.1 + 1) }
    ensures ok { IfOk result (λ next. (row : List (List NameBytes)) (layer : List NameBytes)
        → HasForm row layer form → GoesOn row layer word.now next) }
    ensures shape { IfErr result (λ _. (layer : List NameBytes) (ws : List Word)
        → layers_at layer (word.now ∷ ws) ≡ None) }
{
    if word == b"/".as_slice() {
        return Ok((form.0, form.1 + 1));
    }
    name_of(word)?;
    if form.1 == 0 {
        Ok((form.0 + 1, 0))
    } else {
        Ok(form)
    }
}

/// How many names the first layer has that a row's words say, and how many layers there are. It takes no
/// memory.
fn form_of(rest: &[u8]) -> Result<(usize, usize), Shape>
    ensures ok { IfOk result (λ form. (row : List (List NameBytes))
        × (layers_at [] (words_behind rest.now) ≡ Some row) × (form_of row ≡ form)) }
    ensures small { IfOk result (λ form. form.1 + 1 < 2 ^ 64) }
    ensures shape { IfErr result (λ _. layers_at [] (words_behind rest.now) ≡ None) }
{
    let mut form = (0usize, 0usize);
    let mut rest = rest;
    while !rest.is_empty() {
        let (word, behind) = next_word(rest)?;
        form = count_word(form, word)?;
        rest = behind;
    }
    Ok((form.0, form.1 + 1))
}

/// Whether this is the form of `k - 1` layers, the first of them with one name.
fn is_form(k: u32, form: (usize, usize)) -> bool
    requires { form.1 + 1 < 2 ^ 64 }
    ensures { result ≡ is_form k form }
{
    form.0 == 1 && form.1 as u64 + 1 == u64::from(k)
}

/// Whether the line is `layers` and `k - 1` layers, the first of them with one name. It takes no memory.
pub fn is_row(k: u32, line: &[u8]) -> bool
    ensures { Tells result (row_at k (words_of line.now)) }
{
    let (word, rest) = first_word(line);
    let is_layers = word == b"layers".as_slice();
    if !is_layers {
        return false;
    }
    let Ok(form) = form_of(rest) else {
        return false;
    };
    is_form(k, form)
}

/// Why a row's reading stopped which found no memory: the line is no row, or memory ran out.
fn stop_of(k: u32, line: &[u8]) -> Stop
    ensures { Fails (λ row. Unit {0}) result (row_at k (words_of line.now)) }
{
    if is_row(k, line) {
        Stop::Memory
    } else {
        Stop::Shape
    }
}

/// `layers` and `k - 1` layers, the first of them with one name.
///
/// Out of memory is answered only where the line is such a row.
pub fn row_of(alloc: Global, k: u32, line: &[u8]) -> Result<Row, Stop>
    ensures { Gives (λ row. Unit {0}) (λ row. row) result (row_at k (words_of line.now)) }
{
    match grown_row(alloc, k, line) {
        Err(Stop::Memory) => Err(stop_of(k, line)),
        answer => answer,
    }
}

/// The row, or the first stop.
#[tactic(auto, unfolding(crate::specs::Reading::row_at, format_words::specs::Reading::after_word))]
fn grown_row(alloc: Global, k: u32, line: &[u8]) -> Result<Row, Stop>
    ensures { Grows (λ row. row) result (row_at k (words_of line.now)) }
{
    let (word, rest) = first_word(line);
    if word != b"layers".as_slice() {
        return Err(Stop::Shape);
    }
    let layers = layers(alloc, rest)?;
    if has_form(k, &layers) {
        Ok(Row::from_items(layers))
    } else {
        Err(Stop::Shape)
    }
}
