//! Responses as lists of numbers.

ghost use Rattle.std.specs.Prelude.{◌≡◌, ◌<◌, ◌≤◌, ◌^◌, ◌==◌, IfOk, OnOk, IfSome, Some, ◌∷◌, ◌++◌, []};
ghost use Rattle.std.specs.Prelude.{drop, length, map, slice_get, take};
ghost use Rattle.std.specs.Cmp.Lexicographic.{pointwise};
ghost use Rattle.indexmap.specs.IndexMap.{get};
ghost use Rattle.events.specs.Names.{NameBytes};
ghost use Rattle.events.specs.Operations.{response};
ghost use Rattle.specification.specs.Elements.{number_in, numbers_in};
ghost use Rattle.element_numbers.specs.Cuts.{rows_of, IsCut};
ghost use Rattle.element_numbers.specs.Runs.{response_if};

use super::numbers::{NameNumbers, number_or_count};
use super::rows::Rows;
use events::{Memory, Name, OpName, Recording, Response};
use std::alloc::Global;

/// How many places are looked at where two responses may go on alike again.
const GUESSED: usize = 8;

/// Adds the numbers of the names with which a response goes on like another from these places on: they are
/// copied from those of the other, which stand in the list already, from `begin` on. How many they are.
fn copy_run(
    items: &mut Vec<u32>,
    names: &[Name],
    response: &Response,
    i: usize,
    last: &Response,
    j: usize,
    begin: usize,
) -> Result<usize, Memory>
    requires last { take (length last.now) (drop begin items.old.items) ≡ numbers_in names.now last.now }
    ensures within { IfOk result (λ run. run ≤ length (drop i response.now)) }
    ensures other_within { IfOk result (λ run. run ≤ length (drop j last.now)) }
    ensures numbers { IfOk result (λ run. items.new.items
        ≡ items.old.items ++ numbers_in names.now (take run (drop i response.now))) }
{
    // Its contract has that the places of a response are numbers of 64 bits.
    let _ = last.len();
    let run = response.same_names(i, last, j);
    for k in 0..run {
        items.push(items[begin + (j + k)])?;
    }
    Ok(run)
}

/// The place after that of a number in a row, where it stands within a few places from this one on; else
/// this place. It is a guess, at which nothing is lost but time.
fn place_behind(row: &[u32], from: usize, number: u32) -> usize {
    for place in from..row.len().min(from.saturating_add(GUESSED)) {
        if row[place] == number {
            return place + 1;
        }
    }
    from
}

/// The place in a map of the name whose number is one more than the last in a list, where the map has the
/// names in the order of their numbers. It is a guess, at which nothing is lost but time.
fn place_after(items: &[u32]) -> usize {
    match items.last() {
        Some(number) => (*number as usize).saturating_add(1),
        None => 0,
    }
}

/// The number of the name with these bytes, where its entry stands at this place in the map.
fn number_there(names: &[Name], numbers: &NameNumbers, place: usize, bytes: &[u8]) -> Option<u32>
    requires numbered { (a : NameBytes) → get (pointwise ◌==◌) numbers.now a ≡ number_in names.now a }
    requires few { length names.now < 2 ^ 32 }
    ensures { IfSome result (λ number. number_in names.now bytes.now ≡ Some number) }
{
    let (name, number) = numbers.get_index(place)?;
    if name.bytes() == bytes {
        Some(*number as u32)
    } else {
        None
    }
}

/// The number of the name at a place in a response, or the count of the names where it is not among them;
/// none past the end.
///
/// The map's entry at the likely place is looked at first, for speed alone: only where another name stands
/// there is the map asked for the name.
fn number_at(
    names: &[Name],
    numbers: &NameNumbers,
    likely: usize,
    response: &Response,
    i: usize,
) -> Option<u32>
    requires numbered { (a : NameBytes) → get (pointwise ◌==◌) numbers.now a ≡ number_in names.now a }
    requires few { length names.now < 2 ^ 32 }
    ensures { result ≡ slice_get (numbers_in names.now response.now) i }
{
    let bytes = response.bytes_at(i)?;
    if let Some(number) = number_there(names, numbers, likely, bytes) {
        return Some(number);
    }
    let name = response.get(i)?;
    Some(number_or_count(names, numbers, &name))
}

/// Adds the numbers of a response's names. For a name that is not among these their count stands.
///
/// Runs of names that another response has too are copied from its numbers, which stand in the list from
/// `begin` on; only the others are looked up. Elements that one replica inserted one after the other have
/// successive numbers, so one more than the number before is tried first.
fn add_numbers(
    items: &mut Vec<u32>,
    names: &[Name],
    numbers: &NameNumbers,
    response: &Response,
    last: &Response,
    begin: usize,
) -> Result<(), Memory>
    requires numbered { (a : NameBytes) → get (pointwise ◌==◌) numbers.now a ≡ number_in names.now a }
    requires few { length names.now < 2 ^ 32 }
    requires last { take (length last.now) (drop begin items.old.items) ≡ numbers_in names.now last.now }
    ensures { OnOk result (items.new.items ≡ items.old.items ++ numbers_in names.now response.now) }
{
    let mut i = 0;
    let mut j = 0;
    'runs: while i < response.len() {
        let run = copy_run(items, names, response, i, last, j, begin)?;
        i += run;
        j += run;
        let likely = place_after(items.as_slice());
        if let Some(number) = number_at(names, numbers, likely, response, i) {
            j = place_behind(row_from(items.as_slice(), begin, last.len()), j, number);
            items.push(number)?;
            i += 1;
        }
    }
    Ok(())
}

/// So many numbers from a place on, or as many as there are.
fn row_from(items: &[u32], begin: usize, count: usize) -> &[u32] {
    let from = begin.min(items.len());
    let end = from.saturating_add(count).min(items.len());
    &items[from..end]
}

/// Adds an operation's response as a list of numbers. The last list is that of the response `last`.
fn add_list(
    places: &mut Rows<u32>,
    recording: &Recording,
    operation: OpName,
    names: &[Name],
    numbers: &NameNumbers,
    last: &Response,
    begin: usize,
) -> Result<(), Memory>
    requires numbered { (a : NameBytes) → get (pointwise ◌==◌) numbers.now a ≡ number_in names.now a }
    requires few { length names.now < 2 ^ 32 }
    requires whole { IsCut places.old }
    requires last { take (length last.now) (drop begin places.old.items.items)
        ≡ numbers_in names.now last.now }
    ensures cut { OnOk result (IsCut places.new) }
    ensures rows { OnOk result (rows_of places.new
        ≡ rows_of places.old ++ (numbers_in names.now (response recording.now operation)) ∷ []) }
    ensures items { OnOk result (places.new.items.items
        ≡ places.old.items.items ++ numbers_in names.now (response recording.now operation)) }
{
    match recording.response(operation) {
        None => places.end_row(),
        Some(response) => {
            add_numbers(&mut places.items, names, numbers, response, last, begin)?;
            places.end_row()
        }
    }
}

/// The responses of these operations as lists of numbers, one list each.
pub fn places_of(
    alloc: Global,
    recording: &Recording,
    operations: &[OpName],
    names: &[Name],
    numbers: &NameNumbers,
) -> Result<Rows<u32>, Memory>
    requires numbered { (a : NameBytes) → get (pointwise ◌==◌) numbers.now a ≡ number_in names.now a }
    requires few { length names.now < 2 ^ 32 }
    ensures cut { IfOk result (λ t. IsCut t) }
    ensures rows { IfOk result (λ t. rows_of t ≡ map
        (λ o. numbers_in names.now (response recording.now o)) operations.now) }
{
    let none = Response::new(alloc);
    let mut last = None;
    let mut begin = 0;
    let mut places = Rows::new(alloc);
    for operation in operations {
        let next = places.items.len();
        let before = response_or(recording, last, &none);
        add_list(
            &mut places,
            recording,
            *operation,
            names,
            numbers,
            before,
            begin,
        )?;
        last = Some(*operation);
        begin = next;
    }
    Ok(places)
}

/// The response of an operation; where there is none, `none`.
fn response_or<'a>(
    recording: &'a Recording,
    operation: Option<OpName>,
    none: &'a Response,
) -> &'a Response
    requires { none.now ≡ [] }
    ensures { result.now ≡ response_if recording.now operation }
{
    match operation {
        None => none,
        Some(operation) => recording.response(operation).unwrap_or(none),
    }
}
