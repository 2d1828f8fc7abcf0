//! A recording's elements by number, and responses that cover all as lists of numbers.

use super::guesses::Guesses;
use super::row_depths::RowDepths;
use super::values::is_rising;
use element_numbers::{Covering, NameNumbers, NumberedElements, Rows};
use events::{Memory, Name, OpName, Recording};
use format_words::{name_of, next_word};
use std::alloc::Global;

/// Where the noting of a row's words stands: the layer of the next one, from 0, and the number that its name
/// is likely to have.
#[derive(Clone, Copy)]
struct Place {
    depth: u32,
    likely: u32,
}

/// The elements of a recording with their numbers, and the responses of operations that cover all as numbers.
///
/// Elements are numbered from 0 in the order of their inserts' operations. There is one row of places for
/// each of these operations, in the order of their names. Each response of the recording is a subsequence of
/// that of one of them, which is the same operation or comes before it.
#[derive(Drop)]
pub struct Numbered {
    pub names: Vec<Name>,
    pub numbers: NameNumbers,
    pub operations: Vec<OpName>,
    pub places: Rows<u32>,
}

ghost use Rattle.std.specs.Prelude.{◌≡◌, ◌+◌, ◌<◌, ◌≤◌, ◌∷◌, ◌++◌, ◌↔◌, ◌^◌, [], ℕ, List, All, IfOk};
ghost use Rattle.std.specs.Prelude.{IfSome, IsPermutation, IsTrue, MatchBool, MatchOption, length, map};
ghost use Rattle.std.specs.Prelude.{slice_get, slice_index, Some, None};
ghost use Rattle.events.specs.Names.{IsName};
ghost use Rattle.specification.specs.Elements.{number_in};
ghost use Rattle.specification.specs.Faults.{IsSound};
ghost use Rattle.bit_tables.specs.Rule.{HaveDepths};
ghost use Rattle.format_words.specs.Words.{words_behind};
ghost use Rattle.element_numbers.specs.Cuts.{IsCut};
ghost use Rattle.element_numbers.specs.Covering.{IsNumbered};
ghost use Rattle.cert_check.specs.Numbering.{IsNumbering, IsOf, AreWithin, lists_of, places_at};
ghost use Rattle.cert_check.specs.Noted.{Noted, Holds, CanBeNoted, placed_from};
ghost use Rattle.cert_check.specs.RowDepths.{IsUnset, IsWritten};
ghost use Rattle.cert_check.specs.RowWords.{GoesOn, IsRowWord, Stops, pairs_of, slashes};
ghost use Rattle.cert_check.specs.Values.{IsRising};

impl Numbered {
    /// The elements of a recording that has no fault, and the places of operations that cover all, as they
    /// were found.
    pub fn of(recording: &Recording, found: NumberedElements) -> Numbered
        requires sound { IsSound recording.now }
        requires found { IsNumbered recording.now found }
        ensures { IsOf recording.now result }
    {
        // Its contract has that the recording is legal.
        let _ = recording.replicas();
        let NumberedElements {
            names,
            numbers,
            covering,
        } = found;
        let Covering { operations, rows } = covering;
        Numbered {
            names,
            numbers,
            operations,
            places: rows,
        }
    }

    /// Whether the element with this number has this name.
    fn is_named(&self, number: u32, word: &[u8]) -> bool
        ensures { IsTrue result → slice_get self.now.names.items number ≡ Some word.now }
    {
        match self.names.get(number as usize) {
            Some(name) => name.bytes() == word,
            None => false,
        }
    }

    /// The number of the element with this name. The number that is likely, and then the guesses, are tried
    /// first, for speed alone.
    fn find(&self, guesses: &Guesses, likely: u32, word: &[u8]) -> Option<u32>
        requires { IsNumbering self.now }
        ensures { MatchOption result (IsName word.now → number_in self.now.names.items word.now ≡ None)
            (λ n. slice_get self.now.names.items n ≡ Some word.now) }
    {
        if self.is_named(likely, word) {
            return Some(likely);
        }
        let instead = guesses.instead_of(likely);
        if self.is_named(instead, word) {
            return Some(instead);
        }
        let last = guesses.last_of(word, likely);
        if self.is_named(last, word) {
            return Some(last);
        }
        let Ok(name) = name_of(word) else {
            return None;
        };
        match self.numbers.get(&name) {
            Some(number) => Some(*number as u32),
            None => None,
        }
    }

    /// Notes a value below `unset` for the element of a name, and gives its number. None where the name is no
    /// element's, or has a value.
    fn note(
        &self,
        values: &mut [u32],
        guesses: &Guesses,
        likely: u32,
        word: &[u8],
        value: u32,
        unset: u32,
    ) -> Option<u32>
        requires numbering { IsNumbering self.now }
        requires room { length values.old ≡ length self.now.names.items }
        requires below { value < unset }
        ensures room { length values.new ≡ length values.old }
        ensures noted { (noted : List Noted) → Holds self.now.names.items unset noted values.old →
            MatchOption result
            (IsName word.now → ¬ CanBeNoted self.now.names.items (noted ++ (word.now, value) ∷ []))
            (λ _. Holds self.now.names.items unset (noted ++ (word.now, value) ∷ []) values.new) }
        ensures written { IfSome result (λ n. IsWritten values.old unset n value values.new) }
    {
        let Some(number) = self.find(guesses, likely, word) else {
            return None;
        };
        if values[number as usize] != unset {
            return None;
        }
        values[number as usize] = value;
        Some(number)
    }

    /// Goes on by one word of a row: `/` ends a layer, and a name's depth is noted. None where the name
    /// cannot be noted, or a layer too many begins.
    fn note_word(
        &self,
        row: &mut RowDepths,
        unset: u32,
        at: Place,
        word: &[u8],
    ) -> Result<Option<Place>, Memory>
        requires numbering { IsNumbering self.now }
        requires room { length row.old.depths.items ≡ length self.now.names.items }
        requires numbers { HaveDepths row.old.depths.items unset row.old.noted.items }
        requires below { at.depth < unset }
        ensures below { IfOk result (λ found. IfSome found (λ next. next.depth < unset)) }
        ensures numbers { IfOk result (λ found. IfSome found (λ _.
            HaveDepths row.new.depths.items unset row.new.noted.items)) }
        ensures noted { IfOk result (λ found. (noted : List Noted)
            → Holds self.now.names.items unset noted row.old.depths.items → MatchOption found
            (IsRowWord word.now → Stops self.now.names.items unset noted at.depth word.now)
            (λ next. GoesOn self.now.names.items unset noted at.depth word.now row.new.depths.items
            next.depth)) }
    {
        if word == b"/".as_slice() {
            let depth = at.depth + 1;
            if depth == unset {
                return Ok(None);
            }
            return Ok(Some(Place {
                depth,
                likely: at.likely,
            }));
        }
        let Some(number) = self.note(
            &mut row.depths,
            &row.guesses,
            at.likely,
            word,
            at.depth,
            unset,
        ) else {
            return Ok(None);
        };
        row.guesses.note(at.likely, word, number);
        row.noted.push(number)?;
        Ok(Some(Place {
            depth: at.depth,
            likely: number.saturating_add(1),
        }))
    }

    /// Notes the depths of a row's names, and their numbers. False where a name is no element's or stands
    /// twice, or where there are too many layers. The row is given by its line after `layers`; it is read no
    /// further than that.
    pub fn note_row(&self, row: &mut RowDepths, unset: u32, words: &[u8]) -> Result<bool, Memory>
        requires numbering { IsNumbering self.now }
        requires fresh { IsUnset (length self.now.names.items) unset row.old }
        requires some { 0 < unset }
        ensures row { IfOk result (λ noted. MatchBool noted
            (Holds self.now.names.items unset (pairs_of 0 (words_behind words.now))
            row.new.depths.items)
            (All IsRowWord (words_behind words.now) → slashes (words_behind words.now) < unset
            → ¬ CanBeNoted self.now.names.items (pairs_of 0 (words_behind words.now)))) }
        ensures numbers { IfOk result (λ noted. IsTrue noted
            → HaveDepths row.new.depths.items unset row.new.noted.items) }
    {
        let mut at = Place {
            depth: 0,
            likely: 0,
        };
        let mut rest = words;
        while !rest.is_empty() {
            let Ok((word, behind)) = next_word(rest) else {
                return Ok(false);
            };
            let found = self.note_word(row, unset, at, word)?;
            let Some(next) = found else {
                return Ok(false);
            };
            at = next;
            rest = behind;
        }
        Ok(true)
    }

    /// Notes the place of each name of an order, whose words these are. False where they are no permutation
    /// of the elements, whose count this is.
    fn note_order(&self, guesses: &Guesses, ranks: &mut [u32], count: u32, words: &[u8]) -> bool
        requires numbering { IsNumbering self.now }
        requires count { count ≡ length self.now.names.items }
        requires fresh { Holds self.now.names.items count [] ranks.old }
        ensures { MatchBool result (IsPermutation self.now.names.items (words_behind words.now)
            × Holds self.now.names.items count (placed_from 0 (words_behind words.now)) ranks.new)
            (All IsName (words_behind words.now)
            → ¬ IsPermutation self.now.names.items (words_behind words.now)) }
    {
        let mut place = 0u32;
        let mut likely = 0u32;
        let mut rest = words;
        while !rest.is_empty() {
            let Ok((word, behind)) = next_word(rest) else {
                return false;
            };
            if place == count {
                return false;
            }
            let Some(number) = self.note(ranks, guesses, likely, word, place, count) else {
                return false;
            };
            place += 1;
            likely = number.saturating_add(1);
            rest = behind;
        }
        place == count
    }

    /// The place of each element in an order; none where that is no permutation of the elements. The order
    /// is given by its names, each after one space; it is read no further than to the first name that is no
    /// element's, stands twice or is one too many.
    pub fn ranks_of(&self, alloc: Global, names: &[u8]) -> Result<Option<Vec<u32>>, Memory>
        requires numbering { IsNumbering self.now }
        ensures { IfOk result (λ found. MatchOption found
            (All IsName (words_behind names.now)
            → ¬ IsPermutation self.now.names.items (words_behind names.now))
            (λ ranks. IsPermutation self.now.names.items (words_behind names.now)
            × Holds self.now.names.items (length self.now.names.items)
            (placed_from 0 (words_behind names.now)) ranks.items)) }
    {
        let count = self.names.len() as u32;
        let mut ranks = Vec::from_elem(alloc, count, self.names.len())?;
        // Each name of an order stands once.
        let guesses = Guesses::none(alloc);
        if self.note_order(&guesses, &mut ranks, count, names) {
            Ok(Some(ranks))
        } else {
            Ok(None)
        }
    }

    /// The first list of places along which these values do not rise.
    pub fn first_not_rising(&self, values: &[u32]) -> Option<usize>
        requires cut { IsCut self.now.places }
        requires within { AreWithin (length values.now) self.now }
        ensures { MatchOption result ((j : ℕ) → j < length (lists_of self.now)
            → IsRising (map (slice_index values.now) (places_at self.now j)))
            (λ i. (i < length (lists_of self.now))
            × (¬ IsRising (map (slice_index values.now) (places_at self.now i)))
            × ((j : ℕ) → j < i → IsRising (map (slice_index values.now) (places_at self.now j)))) }
    {
        for i in 0..self.places.ends.len() {
            if !is_rising(values, self.places.row(i)) {
                return Some(i);
            }
        }
        None
    }
}
