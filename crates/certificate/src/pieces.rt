//! The lines of the rows of layers, one after the other, or in pieces that threads make side by side.

ghost use Rattle.std.specs.Prelude.{◌≡◌, ◌≢◌, ◌≤◌, ◌<◌, ◌+◌, ◌*◌, ◌/◌, ◌%◌, ◌^◌, [], ℕ};
ghost use Rattle.std.specs.Prelude.{IfOk, OnOk, Result, Vec, length, take, drop, slice_index_or};
ghost use Rattle.std.specs.Global.{Global};
ghost use Rattle.events.specs.declared.memory.Memory.{Memory};
ghost use Rattle.level_search.specs.Thinned.{IsThinned};
ghost use Rattle.certificate.specs.AfterTables.{IsAfterTable};
ghost use Rattle.certificate.specs.ByRows.{AppendsRows, ArePieces, joined};
ghost use Rattle.certificate.specs.Ways.{IsWay};

use super::listed::row_by_lists;
use super::rows::row_by_table;
use super::ways::{Costs, Way, choose_way, first_way};
use bit_tables::AfterTable;
use certificate_text::push_row;
use events::Memory;
use list_layers::ListLayers;
use order_graph::OrderGraph;
use std::alloc::Global;
use std::thread::Threads;
use std::{mem, thread};

/// How many rows stand in one piece.
///
/// Ten and not a power of two: a replica often has as many elements as a power of two, and then a thread
/// would get the same part of the elements of each replica, which may be the part with the longest rows.
const ROWS: usize = 10;

/// How many threads make pieces side by side.
const THREADS: usize = 4;

/// How many pieces each of them makes before they are put in order.
const TURNS: usize = 128;

/// How many pieces these are together.
const PIECES: usize = 512;

/// Makes the rows of layers of a graph, for a k of at least 1. Each method requires that the way is one of the
/// graph's.
#[derive(Drop)]
pub struct RowMaker<'a> {
    alloc: Global,
    graph: &'a OrderGraph,
    way: Way,
    costs: Costs,
    k: u32,
    ghost some: { 1 ≤ k },
}

/// The maker of the rows of a graph.
pub fn row_maker(alloc: Global, graph: &OrderGraph, k: u32) -> Result<RowMaker<'_>, Memory>
    requires { 1 ≤ k }
    ensures { IfOk result (λ maker. (maker.graph.now ≡ graph.now) × (maker.k ≡ k)
        × IsWay maker.graph.now maker.way) }
{
    let way = first_way(alloc, graph, k)?;
    Ok(RowMaker::along(alloc, graph, way, k))
}

impl<'a> RowMaker<'a> {
    /// The maker of the rows of a graph that begins with this way.
    pub fn along(alloc: Global, graph: &'a OrderGraph, way: Way, k: u32) -> RowMaker<'a>
        requires { 1 ≤ k }
        ensures graph { result.graph.now ≡ graph.now }
        ensures k { result.k ≡ k }
        ensures way { result.way ≡ way }
    {
        RowMaker {
            alloc,
            graph,
            way,
            costs: Costs::new(graph),
            k,
        }
    }
}

impl RowMaker<'_> {
    /// Adds the line of the row of an element, made along a table.
    fn push_known_row(
        &self,
        table: &AfterTable,
        source: u32,
        text: &mut Vec<u8>,
    ) -> Result<(), Memory>
        requires table { IsAfterTable self.now.graph.now table.now }
        requires known { source < length self.now.graph.now.elements }
        ensures { OnOk result (AppendsRows self.now.graph.now self.now.k
            (take 1 (drop source self.now.graph.now.elements)) text.old.items text.new.items) }
    {
        let row = row_by_table(self.alloc, self.graph, table, source, self.k)?;
        push_row(text, &row)?;
        Ok(())
    }

    /// The same, if there is an element with this number.
    fn push_row_at(
        &self,
        table: &AfterTable,
        source: usize,
        text: &mut Vec<u8>,
    ) -> Result<(), Memory>
        requires table { IsAfterTable self.now.graph.now table.now }
        ensures { OnOk result (AppendsRows self.now.graph.now self.now.k
            (take 1 (drop source self.now.graph.now.elements)) text.old.items text.new.items) }
    {
        if source < self.graph.elements() as usize {
            return self.push_known_row(table, source as u32, text);
        }
        Ok(())
    }

    /// Adds the lines of the rows of so many elements from one number on, or of as many as there are, made
    /// along a table.
    fn push_rows_by_table(
        &self,
        table: &AfterTable,
        first: usize,
        count: usize,
        text: &mut Vec<u8>,
    ) -> Result<(), Memory>
        requires table { IsAfterTable self.now.graph.now table.now }
        requires few { first + count < 2 ^ 64 }
        ensures { OnOk result (AppendsRows self.now.graph.now self.now.k
            (take count (drop first self.now.graph.now.elements)) text.old.items text.new.items) }
    {
        for i in 0..count {
            self.push_row_at(table, first + i, text)?;
        }
        Ok(())
    }

    /// Adds the line of the row of an element, made along lists.
    fn push_known_listed(
        &self,
        lists: &mut ListLayers<'_>,
        source: u32,
        text: &mut Vec<u8>,
    ) -> Result<(), Memory>
        requires lists { IsThinned self.now.graph.now lists.old.graph }
        requires known { source < length self.now.graph.now.elements }
        ensures graph { lists.new.graph ≡ lists.old.graph }
        ensures rows { OnOk result (AppendsRows self.now.graph.now self.now.k
            (take 1 (drop source self.now.graph.now.elements)) text.old.items text.new.items) }
    {
        let row = row_by_lists(self.alloc, self.graph, lists, &self.costs, source, self.k)?;
        push_row(text, &row)?;
        Ok(())
    }

    /// The same, if there is an element with this number.
    fn push_listed_at(
        &self,
        lists: &mut ListLayers<'_>,
        source: usize,
        text: &mut Vec<u8>,
    ) -> Result<(), Memory>
        requires lists { IsThinned self.now.graph.now lists.old.graph }
        ensures graph { lists.new.graph ≡ lists.old.graph }
        ensures rows { OnOk result (AppendsRows self.now.graph.now self.now.k
            (take 1 (drop source self.now.graph.now.elements)) text.old.items text.new.items) }
    {
        if source < self.graph.elements() as usize {
            return self.push_known_listed(lists, source as u32, text);
        }
        Ok(())
    }

    /// Adds the lines of the rows of so many elements from one number on, or of as many as there are, made
    /// along the lists of a graph. To begin it takes time linear in the elements and the lists.
    fn push_rows_by_lists(
        &self,
        listed: &OrderGraph,
        first: usize,
        count: usize,
        text: &mut Vec<u8>,
    ) -> Result<(), Memory>
        requires listed { IsThinned self.now.graph.now listed.now }
        requires few { first + count < 2 ^ 64 }
        ensures { OnOk result (AppendsRows self.now.graph.now self.now.k
            (take count (drop first self.now.graph.now.elements)) text.old.items text.new.items) }
    {
        self.costs.note_begin(listed);
        let mut lists = ListLayers::new(self.alloc, listed)?;
        for i in 0..count {
            self.push_listed_at(&mut lists, first + i, text)?;
        }
        Ok(())
    }

    /// Adds the lines of the rows of so many elements from one number on, or of as many as there are. Past the
    /// last it takes one step.
    fn push_rows_from(&self, first: usize, count: usize, text: &mut Vec<u8>) -> Result<(), Memory>
        requires way { IsWay self.now.graph.now self.now.way }
        requires few { first + count < 2 ^ 64 }
        ensures { OnOk result (AppendsRows self.now.graph.now self.now.k
            (take count (drop first self.now.graph.now.elements)) text.old.items text.new.items) }
    {
        if first >= self.graph.elements() as usize {
            return Ok(());
        }
        match &self.way {
            Way::Lists(listed) => self.push_rows_by_lists(listed, first, count, text),
            Way::Table(table) => self.push_rows_by_table(table, first, count, text),
        }
    }

    /// Takes the table from now on, where rows along lists have cost more than it would have.
    fn choose(&mut self) -> Result<(), Memory>
        requires way { IsWay self.old.graph.now self.old.way }
        ensures graph { self.new.graph.now ≡ self.old.graph.now }
        ensures k { self.new.k ≡ self.old.k }
        ensures way { OnOk result (IsWay self.new.graph.now self.new.way) }
    {
        choose_way(self.alloc, self.graph, &self.costs, &mut self.way)
    }

    /// Adds the lines of the rows of all elements, in the caller's thread.
    pub fn push_rows(&mut self, text: &mut Vec<u8>) -> Result<(), Memory>
        requires way { IsWay self.old.graph.now self.old.way }
        ensures { OnOk result (AppendsRows self.old.graph.now self.old.k self.old.graph.now.elements
            text.old.items text.new.items) }
    {
        let elements = self.graph.elements() as usize;
        for batch in 0..elements / (ROWS * PIECES) + 1 {
            self.choose()?;
            self.push_rows_from(batch * (ROWS * PIECES), ROWS * PIECES, text)?;
        }
        Ok(())
    }

    /// The lines of the rows of the elements from one number on, as many as stand in one piece.
    fn piece_from(&self, first: usize) -> Result<Vec<u8>, Memory>
        requires way { IsWay self.now.graph.now self.now.way }
        requires few { first < 2 ^ 40 }
        ensures { IfOk result (λ piece. AppendsRows self.now.graph.now self.now.k
            (take ROWS (drop first self.now.graph.now.elements)) [] piece.items) }
    {
        let mut piece = Vec::new(self.alloc);
        self.push_rows_from(first, ROWS, &mut piece)?;
        Ok(piece)
    }

    /// Adds the lines of the rows of the elements from one number on, in pieces that are made side by side.
    fn push_side_by_side<H: Threads + Sync>(
        &self,
        rt: &H,
        first: usize,
        texts: &mut Vec<Vec<u8>>,
    ) -> Result<(), Memory>
        requires way { IsWay self.now.graph.now self.now.way }
        requires few { first < 2 ^ 39 }
        ensures { OnOk result (AppendsRows self.now.graph.now self.now.k
            (take (ROWS * PIECES) (drop first self.now.graph.now.elements))
            (joined texts.old.items) (joined texts.new.items)) }
    {
        let mut made = unmade(self.alloc)?;
        self.make_pieces(rt, first, made.as_mut_slice());
        push_pieces(self.graph, self.k, first, made.as_mut_slice(), texts)
    }

    /// Makes the pieces of the rows of the elements from one number on, each in its slot.
    fn make_pieces<H: Threads + Sync>(
        &self,
        rt: &H,
        first: usize,
        made: &mut [Result<Vec<u8>, Memory>],
    )
        requires way { IsWay self.now.graph.now self.now.way }
        requires few { first < 2 ^ 39 }
        requires slots { length made.old ≡ PIECES }
        ensures slots { length made.new ≡ PIECES }
        ensures pieces { ArePieces self.now.graph.now self.now.k ROWS first
            (λ slot. slot % TURNS * THREADS + slot / TURNS) made.new }
    {
        thread::for_each_mut(
            rt,
            made,
            THREADS,
            &|slot: usize, piece: &mut Result<Vec<u8>, Memory>|
                requires { IsWay self.now.graph.now self.now.way × (first < 2 ^ 39)
                    × (slot < PIECES) }
                ensures { IfOk piece.new (λ lines. AppendsRows self.entry.now.graph.now self.entry.now.k
                    (take ROWS (drop (first + ROWS * (slot % TURNS * THREADS + slot / TURNS))
                    self.entry.now.graph.now.elements)) [] lines.items) }
            {
                *piece = self.piece_from(first + ROWS * (slot % TURNS * THREADS + slot / TURNS));
            },
        );
    }

    /// Adds the lines of the rows of all elements, in pieces that are made side by side. The last batch of
    /// them may be a part, or empty: past the end no row is added.
    pub fn push_in_pieces<H: Threads + Sync>(
        &mut self,
        rt: &H,
        texts: &mut Vec<Vec<u8>>,
    ) -> Result<(), Memory>
        requires way { IsWay self.old.graph.now self.old.way }
        ensures { OnOk result (AppendsRows self.old.graph.now self.old.k self.old.graph.now.elements
            (joined texts.old.items) (joined texts.new.items)) }
    {
        let elements = self.graph.elements() as usize;
        for batch in 0..elements / (ROWS * PIECES) + 1 {
            self.choose()?;
            self.push_side_by_side(rt, batch * (ROWS * PIECES), texts)?;
        }
        Ok(())
    }
}

/// Slots for pieces, with none made yet.
fn unmade(alloc: Global) -> Result<Vec<Result<Vec<u8>, Memory>>, Memory>
    ensures { IfOk result (λ slots. length slots.items ≡ PIECES) }
{
    let mut slots = Vec::with_capacity(alloc, PIECES)?;
    for _slot in 0..PIECES {
        slots.push(Err(Memory))?;
    }
    Ok(slots)
}

/// Adds pieces in the order of their rows; they are taken out of their slots. In the slots the pieces of a
/// thread stand one after the other; in the order of rows the threads take turns. The graph, k and the first
/// number serve the contract alone.
fn push_pieces(
    graph: &OrderGraph,
    k: u32,
    first: usize,
    made: &mut [Result<Vec<u8>, Memory>],
    texts: &mut Vec<Vec<u8>>,
) -> Result<(), Memory>
    requires slots { length made.old ≡ PIECES }
    requires pieces { ArePieces graph.now k ROWS first
        (λ slot. slot % TURNS * THREADS + slot / TURNS) made.old }
    ensures { OnOk result (AppendsRows graph.now k
        (take (ROWS * PIECES) (drop first graph.now.elements))
        (joined texts.old.items) (joined texts.new.items)) }
{
    for piece in 0..PIECES {
        let text = taken(made, piece % THREADS * TURNS + piece / THREADS)?;
        texts.push(text)?;
    }
    Ok(())
}

/// Takes a piece out of its slot.
fn taken(made: &mut [Result<Vec<u8>, Memory>], slot: usize) -> Result<Vec<u8>, Memory>
    requires { slot < length made.old }
    ensures piece { (d : Result (Vec ℕ Global) Memory) → result ≡ slice_index_or made.old slot d }
    ensures slots { length made.new ≡ length made.old }
    ensures others { (i : ℕ) (d : Result (Vec ℕ Global) Memory) → i ≢ slot
        → slice_index_or made.new i d ≡ slice_index_or made.old i d }
{
    mem::replace(&mut made[slot], Err(Memory))
}

/// Adds the lines of the rows of layers, one for each element, as texts that are to stand one after the
/// other. The number of workers says whether threads are used: with 1 the rows are made one after the other
/// in the caller's thread, as one text; with any other number four threads take turns at texts of ten rows,
/// in batches of 5,120 rows, after each of which they wait for one another. Behind the last row up to 512
/// texts are empty.
///
/// Rows are made along the lists; in their place a table of `n * n / 8` bytes for n elements is taken if it is
/// found to be cheaper: at first by some rows that are tried, and before each batch by those so far, as
/// `first_way` and `choose_way` say. Along lists each text takes time and memory linear in the elements and the
/// lists to begin. Besides the texts memory is for a row of each thread,
/// for 512 slots, and for the table, or 12 bytes for each place that is kept.
pub fn push_rows_by<H: Threads + Sync>(
    rt: &H,
    alloc: Global,
    workers: u32,
    graph: &OrderGraph,
    k: u32,
    texts: &mut Vec<Vec<u8>>,
) -> Result<(), Memory>
    requires { 1 ≤ k }
    ensures { OnOk result (AppendsRows graph.now k graph.now.elements
        (joined texts.old.items) (joined texts.new.items)) }
{
    let mut maker = row_maker(alloc, graph, k)?;
    if workers != 1 {
        return maker.push_in_pieces(rt, texts);
    }
    let mut text = Vec::new(alloc);
    maker.push_rows(&mut text)?;
    texts.push(text)?;
    Ok(())
}
