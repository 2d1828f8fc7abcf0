//! The judge of rows along lists.

ghost use Rattle.std.specs.Prelude.{◌≡◌, ◌↔◌, ◌<◌, ◌≤◌, ◌+◌, ◌^◌, ℕ, All, IfOk, IfSome, IsTrue, length};
ghost use Rattle.std.specs.Prelude.{slice_index_or};
ghost use Rattle.bit_tables.specs.Rule.{HaveDepths, MeetsRule};
ghost use Rattle.element_numbers.specs.Cuts.{IsCut, rows_of};
ghost use Rattle.list_rule.specs.Judging.{IsRuleOf};

use super::marks::{Mark, State};
use super::passing::pass_row;
use super::spot::Spot;
use super::spots::all_spots;
use element_numbers::Rows;
use events::Memory;
use std::alloc::Global;

/// Judges rows along lists, one after the other. What it writes for one does not count for the next, so that
/// nothing has to be set back.
#[derive(Drop)]
pub struct ListRule {
    pub spots: Vec<Vec<Spot>>,
    pub state: State,
}

impl ListRule {
    /// The judge of rows of numbers below `n`, along these lists. None where they have too many places to be
    /// counted in 32 bits. It takes time linear in `n` and the places, and memory for the lists that are kept:
    /// of two neighbours where one is a part of the other, that one is left out. It is 8 bytes a place of
    /// these, a vector for each number, and 12 bytes for each list.
    pub fn new(alloc: Global, n: usize, places: &Rows<u32>) -> Result<Option<ListRule>, Memory>
        requires cut { IsCut places.now }
        requires within { All (λ list. All (λ x. x < n) list) (rows_of places.now) }
        ensures { IfOk result (λ found. IfSome found (IsRuleOf n (rows_of places.now))) }
    {
        let lists = places.ends.len();
        if lists > u32::MAX as usize || places.items.len() > u32::MAX as usize {
            return Ok(None);
        }
        let spots = all_spots(alloc, n, places)?;
        let none = Mark {
            row: 0,
            end: 0,
            behind_source: 0,
        };
        let marks = Vec::from_elem(alloc, none, lists)?;
        let state = State {
            marks,
            row: 0,
            cost: 0,
        };
        Ok(Some(ListRule { spots, state }))
    }

    /// Whether the numbers from `first` on, at these depths of at most the count, meet the layer rule for a
    /// source: no number is more than one deeper than one that stands before it in some list, and what stands
    /// before the source is as deep as the count. Of the numbers below `first`, and of their depths, nothing
    /// is asked. Noted are the numbers of a lesser depth than the count.
    ///
    /// Where these stand in rising order of depth, it passes the places behind those that are not of depth
    /// `count - 1`, each place of a list once, and takes a step for each, and one for each spot of the noted
    /// numbers and of the source. It takes no memory.
    pub fn are_deep(
        &mut self,
        places: &Rows<u32>,
        depths: &[u32],
        noted: &[u32],
        count: u32,
        first: u32,
        source: u32,
    ) -> bool
        requires cut { IsCut places.now }
        requires rule { IsRuleOf (length depths.now) (rows_of places.now) self.old }
        requires within { All (λ list. All (λ x. x < length depths.now) list) (rows_of places.now) }
        requires noted { HaveDepths depths.now count noted.now }
        requires most { All (λ d. d ≤ count) depths.now }
        ensures rule { IsRuleOf (length depths.now) (rows_of places.now) self.new }
        ensures deep { IsTrue result ↔ MeetsRule (rows_of places.now) first source count
            (λ x. slice_index_or depths.now x count) }
    {
        pass_row(
            places,
            depths,
            noted,
            count,
            first,
            source,
            &self.spots,
            &mut self.state,
        )
    }

    /// What the rows so far have cost, in words of a table: four for each place that was passed, and one for
    /// each spot. The count stays at 18446744073709551615 once it is there.
    pub fn cost(&self) -> u64 {
        self.state.cost
    }
}
