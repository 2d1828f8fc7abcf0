//! The order graph: each response as a list of numbers of elements.

ghost use Rattle.std.specs.Prelude.{◌≡◌, ℕ, ◌<◌, ◌≤◌, ◌^◌, IfOk, IfSome, MatchOption, length, slice_get};
ghost use Rattle.std.specs.Prelude.{is_some};
ghost use Rattle.std.specs.Prelude.{option_map, if◌then◌else◌, All, AllPairs};
ghost use Rattle.events.specs.Operations.{operation_names};
ghost use Rattle.specification.specs.Faults.{IsSound};
ghost use Rattle.specification.specs.Elements.{elements, number_in};
ghost use Rattle.specification.specs.LayerRule.{narrowed};
ghost use Rattle.specification.specs.Responses.{responses_of, AreProper, IsLeastShowing};
ghost use Rattle.order_graph.specs.Emptied.{emptied};
ghost use Rattle.order_graph.specs.Turned.{turned};

use super::emptying::rows_emptied;
use super::looked::Looked;
use super::narrowing::{names_kept, new_numbers, number_of, places_left};
use super::pairs::stands_behind;
use super::spot::Spot;
use super::spots::{all_spots, count_of_spots, spot_among, spot_at, spots_at};
use super::turning::rows_turned;
use element_numbers::{Covering, NumberedElements, Rows, inserted_names, numbers_of, places_of};
use events::{Memory, Name, OpName, Recording};
use std::alloc::Global;
use std::marker::Model;

/// The elements of a recording and its responses, as lists of the elements' numbers.
///
/// Elements are numbered from 0 in the order of their inserts' operations. There is one list for each
/// operation whose response is kept, in the order of their names: `of` keeps all, also where the response is
/// empty, and `of_covering` some that cover them. Lists and their places are numbered from 0. A spot of an
/// element is a place where it stands.
///
/// Its memory is linear in the places of the responses that are kept. Only `of`, `narrowed` and `turned` take
/// memory: they list the spots of each element, as the search for a cycle asks for them. `of_covering`
/// doesn't, since an order is found without them. There each spot is looked for among all places.
#[derive(Drop)]
pub struct OrderGraph {
    names: Vec<Name>,
    shown: Vec<OpName>,
    places: Rows<u32>,
    spots: Option<Vec<Vec<Spot>>>,
}

impl Model for OrderGraph {
    ghost use Rattle.specification.specs.Responses.{Responses};
    ghost use Rattle.element_numbers.specs.Cuts.{rows_of};
    ghost use Rattle.order_graph.specs.Kept.{responses_kept, AreKept};

    ghost Value = { Responses };

    ghost view = { λ g. responses_kept g.names.items g.shown.items (rows_of g.places) };

    ghost invariant = { λ g. AreKept g.names.items g.shown.items g.places g.spots };
}

impl OrderGraph {
    ghost use Rattle.element_numbers.specs.Covering.{IsNumbered, IsPart};
    ghost use Rattle.order_graph.specs.Covers.{IsCoveredBy, responses_on};
    ghost use Rattle.order_graph.specs.Lists.{lists_of, row, ticked, AreFew, BeforeIn, IsLeastList};
    ghost use Rattle.element_numbers.specs.Cuts.{rows_of};
    ghost use Rattle.order_graph.specs.Kept.{names_at, responses_kept, AreListed};
    ghost use Rattle.order_graph.specs.Spots.{spots_of};

    /// The graph of a recording that has no fault. It takes memory and time linear in the places of all
    /// responses, the operations and the elements: a name is looked up at most once for each place, and not
    /// at all where the response goes on like the one before it in the list.
    pub fn of(alloc: Global, recording: &Recording) -> Result<OrderGraph, Memory>
        requires { IsSound recording.now }
        ensures { IfOk result (λ g. g ≡ responses_of recording.now) }
    {
        let shown = recording.operations(alloc)?;
        let names = inserted_names(alloc, recording, &shown)?;
        OrderGraph::on(alloc, recording, names, shown)
    }

    /// The graph of some responses that cover all, whose numbers were found with them, over the elements that
    /// were.
    ///
    /// It has the same orders and cycles as the graph of all responses, and the same least operations that
    /// show one element before another; it has fewer lists and places. It keeps names and rows as they are:
    /// it takes no memory and constant time.
    pub fn of_covering(recording: &Recording, numbered: NumberedElements) -> OrderGraph
        requires sound { IsSound recording.now }
        requires numbered { IsNumbered recording.now numbered }
        ensures { IsCoveredBy (responses_of recording.now) result }
    {
        // Its contract has that the recording is legal.
        let _ = recording.replicas();
        let NumberedElements {
            names,
            numbers: _,
            covering,
        } = numbered;
        let Covering { operations, rows } = covering;
        OrderGraph {
            names,
            shown: operations,
            places: rows,
            spots: None,
        }
    }

    /// The graph of the responses of these operations, over the elements of the recording.
    fn on(
        alloc: Global,
        recording: &Recording,
        names: Vec<Name>,
        shown: Vec<OpName>,
    ) -> Result<OrderGraph, Memory>
        requires sound { IsSound recording.now }
        requires names { names.items ≡ elements recording.now }
        requires part { IsPart shown.items (operation_names recording.now) }
        ensures { IfOk result (λ g. g ≡ responses_on recording.now shown.items) }
    {
        // Its contract has that the recording is legal.
        let _ = recording.replicas();
        let numbers = numbers_of(alloc, &names)?;
        let places = places_of(alloc, recording, &shown, &names, &numbers)?;
        OrderGraph::with_spots(alloc, names, shown, places)
    }

    /// The graph of these lists, with the spots of each element, which are found in one pass over the places.
    fn with_spots(
        alloc: Global,
        names: Vec<Name>,
        shown: Vec<OpName>,
        places: Rows<u32>,
    ) -> Result<OrderGraph, Memory>
        requires { AreListed names.items shown.items places }
        ensures { IfOk result (λ g. g ≡ responses_kept names.items shown.items (rows_of places)) }
    {
        let spots = all_spots(alloc, names.len(), &places)?;
        Ok(OrderGraph {
            names,
            shown,
            places,
            spots: Some(spots),
        })
    }

    /// The graph of some of the elements alone, told by their numbers, which rise: each list keeps those of
    /// its places that hold one of them, and the elements are numbered anew, in the same order. Time and
    /// memory are linear in the elements and the places; no name is looked up.
    pub fn narrowed(&self, alloc: Global, kept: &[u32]) -> Result<OrderGraph, Memory>
        requires rising { AllPairs (λ x y. x < y) kept.now }
        requires known { All (λ x. x < length self.now.elements) kept.now }
        ensures { IfOk result (λ g. g ≡ narrowed self.now (names_at self.now.elements kept.now)) }
    {
        let names = names_kept(alloc, &self.names, kept)?;
        let anew = new_numbers(alloc, &self.names, kept)?;
        let places = places_left(alloc, &self.places, &anew)?;
        let shown = Vec::from_slice(alloc, self.shown.as_slice())?;
        OrderGraph::with_spots(alloc, names, shown, places)
    }

    /// The graph of the same elements where each list goes the other way: an element stands there before
    /// those that it stands after here. Time and memory are linear in the elements and the places.
    pub fn turned(&self, alloc: Global) -> Result<OrderGraph, Memory>
        ensures { IfOk result (λ g. g ≡ turned self.now) }
    {
        let names = Vec::from_slice(alloc, self.names.as_slice())?;
        let shown = Vec::from_slice(alloc, self.shown.as_slice())?;
        let places = rows_turned(alloc, &self.places)?;
        OrderGraph::with_spots(alloc, names, shown, places)
    }

    /// The graph of the same elements and operations where the lists that are marked are empty; marks past the
    /// last list are of none, and a list past the last mark stays. Time and memory are linear in the elements,
    /// the lists and the places that are left.
    pub fn emptied(&self, alloc: Global, marks: &[bool]) -> Result<OrderGraph, Memory>
        ensures { IfOk result (λ g. g ≡ emptied self.now marks.now) }
    {
        let names = Vec::from_slice(alloc, self.names.as_slice())?;
        let shown = Vec::from_slice(alloc, self.shown.as_slice())?;
        let places = rows_emptied(alloc, &self.places, marks)?;
        OrderGraph::with_spots(alloc, names, shown, places)
    }

    /// How many elements there are, at most 65,536.
    pub fn elements(&self) -> u32
        ensures value { result ≡ length self.now.elements }
        ensures proper { AreProper self.now }
    {
        self.names.len() as u32
    }

    /// The number of a name; none where it is no element's. It looks at the elements in turn: searches go by
    /// numbers alone, so that no map of names is kept.
    pub fn number(&self, name: &Name) -> Option<u32>
        ensures { result ≡ number_in self.now.elements name.now }
    {
        number_of(&self.names, name)
    }

    /// The name of the element with this number; none past the last.
    pub fn name(&self, x: u32) -> Option<Name>
        ensures { result ≡ slice_get self.now.elements x }
    {
        self.names.get(x as usize).copied()
    }

    /// How many lists there are: one for each operation whose response is kept, at most 262,144.
    pub fn lists(&self) -> u32
        ensures value { result ≡ length self.now.returned }
        ensures few { AreFew self.now }
    {
        self.shown.len() as u32
    }

    /// The operation whose response a list is; none past the last.
    pub fn shown_by(&self, list: u32) -> Option<OpName>
        ensures { result ≡ option_map (λ r. r.by) (slice_get self.now.returned list) }
    {
        self.shown.get(list as usize).copied()
    }

    /// How many places a list has; 0 past the last list.
    pub fn length(&self, list: u32) -> u32
        ensures { result ≡ length (row (lists_of self.now) list) }
    {
        self.places.row(list as usize).len() as u32
    }

    /// The elements of a list, in order; none past the last list.
    pub fn list(&self, list: u32) -> &[u32]
        ensures value { result.now ≡ row (lists_of self.now) list }
        ensures known { All (λ x. x < length self.now.elements) result.now }
    {
        self.places.row(list as usize)
    }

    /// The element at place j of a list, which counts as looked at; none past the end.
    pub fn place(&self, list: u32, j: u32, looked: &mut Looked) -> Option<u32>
        ensures value { result ≡ slice_get (row (lists_of self.now) list) j }
        ensures looked { looked.new ≡ (if is_some result then ticked looked.old else looked.old) }
        ensures forward { looked.old ≤ looked.new }
        ensures known { IfSome result (λ x. x < length self.now.elements) }
    {
        let x = *self.places.row(list as usize).get(j as usize)?;
        looked.expand();
        Some(x)
    }

    /// How many spots an element has; 0 past the last element. Where spots are not listed it goes through all
    /// places once.
    pub fn spots(&self, x: u32) -> u32
        ensures { result ≡ length (spots_of (lists_of self.now) x) }
    {
        match &self.spots {
            Some(spots) => spots_at(spots, x as usize).len() as u32,
            None => count_of_spots(&self.places, x),
        }
    }

    /// The i-th spot of an element, from 0, in order of lists; none past the last. Where spots are not listed
    /// it goes through all places.
    pub fn spot(&self, x: u32, i: u32) -> Option<Spot>
        ensures { result ≡ slice_get (spots_of (lists_of self.now) x) i }
    {
        match &self.spots {
            Some(spots) => spot_at(spots, x as usize, i as usize),
            None => spot_among(&self.places, x, i),
        }
    }

    /// The least operation whose response shows element a before element b; none where no response does.
    /// It reads the places after each spot of a, at most those of all responses together. Where spots are not
    /// listed it reads all places once more, and again for each spot.
    pub fn before(&self, a: u32, b: u32) -> Option<OpName>
        ensures { IsLeastShowing self.now a b result }
    {
        // Its contract has that the responses are proper.
        let _ = self.elements();
        let list = self.first_list(a, b)?;
        self.shown_by(list)
    }

    /// The least list in which a stands before b.
    fn first_list(&self, a: u32, b: u32) -> Option<u32>
        ensures { MatchOption result ((l : ℕ) → ¬ BeforeIn (lists_of self.now) l a b)
            (λ l. IsLeastList (lists_of self.now) a b l) }
    {
        for i in 0..self.spots(a) {
            if let Some(spot) = self.spot(a, i) {
                if stands_behind(self.list(spot.list), spot.place, b) {
                    return Some(spot.list);
                }
            }
        }
        None
    }
}
