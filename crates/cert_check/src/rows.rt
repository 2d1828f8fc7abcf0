//! Rows of layers.

ghost use Rattle.std.specs.Prelude.{◌≡◌, ◌↔◌, ◌-◌, ◌^◌, ◌<◌, ◌≤◌, [], ℕ, All, IfNone, IfOk, IfSome};
ghost use Rattle.std.specs.Prelude.{IsTrue, List, MatchOption, OnOk, Some, length, map, slice_get};
ghost use Rattle.std.specs.Prelude.{slice_index_or};
ghost use Rattle.events.specs.Names.{IsName};
ghost use Rattle.specification.specs.LayerRule.{Row};
ghost use Rattle.specification.specs.Lines.{text_of};
ghost use Rattle.specification.specs.CertificateText.{IsRow, row_line};
ghost use Rattle.specification.specs.ValidCertificate.{HasSource};
ghost use Rattle.format_words.specs.Words.{words_behind};
ghost use Rattle.certificate_text.specs.CertificateOf.{version_in};
ghost use Rattle.element_numbers.specs.Cuts.{IsCut};
ghost use Rattle.cert_check.specs.Numbering.{AreWays, AreWithin, IsNumbering, first_of};
ghost use Rattle.cert_check.specs.Judged.{TellsLayerRule, TellsRow, TellsRows};
ghost use Rattle.cert_check.specs.RowDepths.{IsUnset};
ghost use Rattle.cert_check.specs.RowWords.{SaysRow};

use super::answer::Reason;
use super::numbered::Numbered;
use super::row_depths::RowDepths;
use super::values::are_from;
use super::ways::Ways;
use certificate_text::Version;
use events::{Memory, Name};
use format_words::{first_word, name_of, next_word, split_line};
use std::alloc::Global;

/// What follows `layers` in a row's line.
fn words_of_row(line: &[u8]) -> &[u8]
    ensures { (k : ℕ) (row : Row) → IsRow k row → line.now ≡ row_line row
        → SaysRow k (words_behind result.now) row }
{
    let (_, words) = first_word(line);
    words
}

/// The source of a row: the first of its words.
fn source_of(words: &[u8]) -> Option<&[u8]>
    ensures { (k : ℕ) (row : Row) → SaysRow k (words_behind words.now) row
        → MatchOption result ⊥ (λ a. HasSource row a.now × IsName a.now) }
{
    match next_word(words) {
        Ok((source, _)) => Some(source),
        Err(_) => None,
    }
}

/// Whether a row has this source.
fn has_source(words: &[u8], source: &Name) -> bool
    ensures { (k : ℕ) (row : Row) → SaysRow k (words_behind words.now) row
        → IsTrue result ↔ HasSource row source.now }
{
    match next_word(words) {
        Ok((word, _)) => word == source.bytes(),
        Err(_) => false,
    }
}

/// The first number of which the row of an element speaks: in version two that of the element itself.
fn first_of(version: Version, source: u32) -> u32
    ensures { result ≡ first_of (version_in version) source }
{
    match version {
        Version::One => 0,
        Version::Two => source,
    }
}

/// Whether the row of the element with this number meets the layer rule of the version. In version two it
/// does not where it has an element that is numbered below, and nothing is asked of these elements. It costs
/// a step for each word of the row, and what `Ways::are_deep` says.
///
/// Before and after a row that meets the rule no depth is noted.
fn meets_rule(
    alloc: Global,
    numbered: &Numbered,
    ways: &mut Ways,
    version: Version,
    k: u32,
    source: u32,
    words: &[u8],
    depths: &mut RowDepths,
) -> Result<bool, Memory>
    requires numbering { IsNumbering numbered.now }
    requires cut { IsCut numbered.now.places }
    requires within { AreWithin (length numbered.now.names.items) numbered.now }
    requires ways { AreWays numbered.now ways.old }
    requires long { 2 ≤ k }
    requires element { source < length numbered.now.names.items }
    requires fresh { IsUnset (length numbered.now.names.items) (k - 1) depths.old }
    ensures meets { IfOk result (λ meets. (row : Row) → SaysRow k (words_behind words.now) row
        → TellsLayerRule (version_in version) numbered.now k source row meets) }
    ensures fresh { IfOk result (λ meets. IsTrue meets
        → IsUnset (length numbered.now.names.items) (k - 1) depths.new) }
    ensures ways { IfOk result (λ _. AreWays numbered.now ways.new) }
{
    let first = first_of(version, source);
    let is_noted = numbered.note_row(depths, k - 1, words)?;
    if !is_noted {
        return Ok(false);
    }
    if !are_from(&depths.noted, first) {
        return Ok(false);
    }
    let deep = ways.are_deep(alloc, numbered, depths, k - 1, first, source)?;
    depths.clear(k - 1);
    Ok(deep)
}

/// What is wrong with the row of the element with this number, if anything is. The row is given by its line.
fn row_fault(
    alloc: Global,
    numbered: &Numbered,
    ways: &mut Ways,
    version: Version,
    k: u32,
    line: &[u8],
    i: u32,
    depths: &mut RowDepths,
) -> Result<Option<Reason>, Memory>
    requires numbering { IsNumbering numbered.now }
    requires cut { IsCut numbered.now.places }
    requires within { AreWithin (length numbered.now.names.items) numbered.now }
    requires ways { AreWays numbered.now ways.old }
    requires long { 2 ≤ k }
    requires element { i < length numbered.now.names.items }
    requires fresh { IsUnset (length numbered.now.names.items) (k - 1) depths.old }
    ensures fault { IfOk result (λ found. (rows : List Row) (row : Row) → slice_get rows i ≡ Some row
        → IsRow k row → line.now ≡ row_line row
        → TellsRow (version_in version) numbered.now k rows i found) }
    ensures fresh { IfOk result (λ found. IfNone found
        (IsUnset (length numbered.now.names.items) (k - 1) depths.new)) }
    ensures ways { IfOk result (λ _. AreWays numbered.now ways.new) }
{
    let source = numbered.names[i as usize];
    let words = words_of_row(line);
    if !has_source(words, &source) {
        Ok(Some(Reason::MissingLayer { source }))
    } else if meets_rule(alloc, numbered, ways, version, k, i, words, depths)? {
        Ok(None)
    } else {
        Ok(Some(Reason::ShortLayer { source }))
    }
}

/// The source of the first of these rows, where there is one.
fn first_source(rows: &[u8]) -> Option<Name>
    ensures { (k : ℕ) (layers : List Row) → All (IsRow k) layers
        → rows.now ≡ text_of (map row_line layers) → MatchOption result (layers ≡ [])
        (λ a. (row : Row) × (slice_get layers 0 ≡ Some row) × HasSource row a) }
{
    let Some((line, _)) = split_line(rows) else {
        return None;
    };
    let Some(source) = source_of(words_of_row(line)) else {
        return None;
    };
    match name_of(source) {
        Ok(name) => Some(name),
        Err(_) => None,
    }
}

/// The first thing that is wrong with the rows of a certificate for `k` of 3 and more: one row after the
/// other, in order of numbers, and then a row too many. The rows are given by their lines.
///
/// Rows are judged along the lists, or by a table, as `Ways` says: either is made once a row is found whose
/// source and words are right. The depths of one row after the other are noted in the same memory, in n steps
/// for all rows, and then for each row as `meets_rule` says.
pub fn rows_fault(
    alloc: Global,
    numbered: &Numbered,
    version: Version,
    k: u32,
    rows: &[u8],
) -> Result<Option<Reason>, Memory>
    requires numbering { IsNumbering numbered.now }
    requires cut { IsCut numbered.now.places }
    requires within { AreWithin (length numbered.now.names.items) numbered.now }
    requires long { 2 ≤ k }
    ensures { IfOk result (λ found. (layers : List Row) → All (IsRow k) layers
        → rows.now ≡ text_of (map row_line layers)
        → TellsRows (version_in version) numbered.now k layers found) }
{
    let mut ways = Ways::new();
    let mut depths = RowDepths::new(alloc, numbered.names.len(), k - 1)?;
    first_row_fault(alloc, numbered, &mut ways, version, k, rows, &mut depths)
}

/// The first thing that is wrong with the rows, in the ways that are chosen.
fn first_row_fault(
    alloc: Global,
    numbered: &Numbered,
    ways: &mut Ways,
    version: Version,
    k: u32,
    rows: &[u8],
    depths: &mut RowDepths,
) -> Result<Option<Reason>, Memory>
    requires numbering { IsNumbering numbered.now }
    requires cut { IsCut numbered.now.places }
    requires within { AreWithin (length numbered.now.names.items) numbered.now }
    requires ways { AreWays numbered.now ways.old }
    requires long { 2 ≤ k }
    requires fresh { IsUnset (length numbered.now.names.items) (k - 1) depths.old }
    ensures { IfOk result (λ found. (layers : List Row) → All (IsRow k) layers
        → rows.now ≡ text_of (map row_line layers)
        → TellsRows (version_in version) numbered.now k layers found) }
{
    let count = numbered.names.len() as u32;
    let mut rest = rows;
    for i in 0..count {
        let Some((line, behind)) = split_line(rest) else {
            let source = numbered.names[i as usize];
            return Ok(Some(Reason::MissingLayer { source }));
        };
        if let Some(fault) = row_fault(alloc, numbered, ways, version, k, line, i, depths)? {
            return Ok(Some(fault));
        }
        rest = behind;
    }
    match first_source(rest) {
        None => Ok(None),
        Some(source) => Ok(Some(Reason::ExtraLayer { source })),
    }
}
