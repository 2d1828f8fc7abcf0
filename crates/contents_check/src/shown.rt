//! What a response shows beside the one before it: whether that is just what is live, or a part of it where
//! it may be one, and whether it is a part of what the one before it shows.

ghost use Rattle.std.specs.Prelude.{◌≡◌, ◌↔◌, ◌+◌, ◌<◌, ◌^◌, ◌++◌, ℕ, ◌≤◌, Some, IfOk, IsTrue, List, []};
ghost use Rattle.std.specs.Prelude.{drop, length};
ghost use Rattle.std.specs.Prelude.{OnOk, take, true};
ghost use Rattle.events.specs.Names.{NameBytes};
ghost use Rattle.events.specs.History.{History};
ghost use Rattle.specification.specs.Elements.{numbers_in};
ghost use Rattle.specification.specs.Faults.{IsView};
ghost use Rattle.specification.specs.Members.{In};
ghost use Rattle.contents_check.specs.Known.{element_names, number_of, AreNumbered};
ghost use Rattle.contents_check.specs.Shown.{joined, AreOfElements, Fits, HasWhatItMust, IsShowing, IsStep};
ghost use Rattle.contents_check.specs.Shown.{OnlyNotes, ShowJust, ShowsLive};
ghost use Rattle.contents_check.specs.Standings.{AreBehind};

use super::elements::Elements;
use super::position::is_view;
use super::recent::Recent;
use super::standings::Standings;
use events::{Memory, OpName, Recording, Response};

/// What happens at places of two responses where their names differ.
#[derive(Clone, Copy)]
pub enum Step {
    /// The one is at its end.
    End,
    /// The name of the one is new: it has this number.
    New(usize),
    /// The name of the other is gone.
    Gone,
    /// The name of the one is no element's, or stands there twice.
    Refused,
}

/// What a response shows, beside the response before it.
#[derive(Clone, Copy)]
pub enum Shown {
    /// A name stands twice or is no element's; or the names are not just those of the live elements, or of
    /// some of them where it may leave some out.
    Wrong,
    /// It is right, and all its names stand in the response before it in the same order.
    Part,
    /// It is right, and not found to be such a part.
    More,
}

impl Standings {
    /// What the response of `e` shows beside the one before it, `last`. It is right where it repeats no name
    /// and has just the names of the live elements, or some of them where `e` is a view. What `last` shows is
    /// noted; now it is noted of this one, where it is right, and its numbers are put into `next`. Where it
    /// is wrong, nothing is promised of the notes or of `next`.
    ///
    /// Names are compared with those of `last` in runs, as far as both go on alike, and only where they
    /// differ is a name looked up. The numbers of `last` are given, in `row`, and of a run they are copied.
    /// It takes time linear in both.
    pub fn shows_live(
        &mut self,
        recent: &mut Recent,
        elements: &Elements,
        last: &Response,
        row: &[u32],
        w: &Response,
        next: &mut Vec<u32>,
        recording: &Recording,
        e: OpName,
    ) -> Result<Shown, Memory>
        requires numbers { AreNumbered elements.now }
        requires few { length elements.now.list.items < 2 ^ 32 }
        requires fits { Fits elements.now self.old }
        requires shown { ShowJust elements.now self.old.list.items last.now }
        requires row { row.now ≡ numbers_in (element_names elements.now) last.now }
        requires empty { next.old.items ≡ [] }
        ensures counts { IfOk result (λ _. self.new.counts ≡ self.old.counts) }
        ensures behind { IfOk result (λ _. (h : History)
            → AreBehind h elements.now self.old → AreBehind h elements.now self.new) }
        ensures shows { IfOk result (IsShowing
            (ShowsLive (IsView recording.now e) elements.now self.new.list.items w.now) elements.now last.now
            w.now self.new next.new.items) }
    {
        match self.show(recent, elements, last, row, w, next)? {
            Shown::Wrong => Ok(Shown::Wrong),
            shown => {
                if self.has_what_it_must(recording, e) {
                    Ok(shown)
                } else {
                    Ok(Shown::Wrong)
                }
            }
        }
    }

    /// Whether none is shown that is not live, and no live element is left out unless `e` is a view.
    fn has_what_it_must(&self, recording: &Recording, e: OpName) -> bool
        ensures { IsTrue result ↔ HasWhatItMust (IsView recording.now e) self.now }
    {
        self.extra == 0 && (self.missing == 0 || is_view(recording, e))
    }

    /// Notes what a response shows, where `last` is noted; it is wrong where it repeats a name or has one
    /// that is no element's.
    fn show(
        &mut self,
        recent: &mut Recent,
        elements: &Elements,
        last: &Response,
        row: &[u32],
        w: &Response,
        next: &mut Vec<u32>,
    ) -> Result<Shown, Memory>
        requires numbers { AreNumbered elements.now }
        requires few { length elements.now.list.items < 2 ^ 32 }
        requires fits { Fits elements.now self.old }
        requires shown { ShowJust elements.now self.old.list.items last.now }
        requires row { row.now ≡ numbers_in (element_names elements.now) last.now }
        requires empty { next.old.items ≡ [] }
        ensures notes { IfOk result (λ _. OnlyNotes elements.now self.old self.new) }
        ensures shows { IfOk result (IsShowing (AreOfElements elements.now w.now) elements.now last.now w.now
            self.new next.new.items) }
    {
        // Its contract has that the places of a response are numbers of 64 bits.
        let _ = last.len();
        let mut is_part = true;
        let mut i = 0;
        let mut j = 0;
        'runs: while i < w.len() {
            let run = w.same_names(i, last, j);
            copy_run(next, row, j, run)?;
            i += run;
            j += run;
            match self.step(recent, elements, last, j, row, w, i) {
                Step::End => {}
                Step::New(number) => {
                    next.push(number as u32)?;
                    i += 1;
                    is_part = false;
                }
                Step::Gone => j += 1,
                Step::Refused => return Ok(Shown::Wrong),
            }
        }
        self.hide_from(elements, last, row, j);
        if is_part {
            Ok(Shown::Part)
        } else {
            Ok(Shown::More)
        }
    }

    /// Notes what differs at these places: that the one's name is shown, or that the other's is not any more.
    fn step(
        &mut self,
        recent: &mut Recent,
        elements: &Elements,
        last: &Response,
        j: usize,
        row: &[u32],
        w: &Response,
        i: usize,
    ) -> Step
        requires numbers { AreNumbered elements.now }
        requires fits { Fits elements.now self.old }
        requires shown { ShowJust elements.now self.old.list.items (joined w.now i last.now j) }
        requires row { row.now ≡ numbers_in (element_names elements.now) last.now }
        ensures notes { OnlyNotes elements.now self.old self.new }
        ensures step { IsStep elements.now last.now j w.now i self.new result }
    {
        if self.is_gone(row, j) {
            self.hide(elements, last, row, j);
            return Step::Gone;
        }
        let Some(name) = w.get(i) else {
            return Step::End;
        };
        let Some(number) = recent.number(elements, &name) else {
            return Step::Refused;
        };
        if !self.list[number].shown {
            self.note(number, true);
            return Step::New(number);
        }
        if j < row.len() {
            self.hide(elements, last, row, j);
            return Step::Gone;
        }
        Step::Refused
    }

    /// Whether a row goes on at a place with the number of an element that is not live, so that a right
    /// response shows it no more. It decides cost alone.
    fn is_gone(&self, row: &[u32], j: usize) -> bool
        ensures { result ≡ true → j < length row.now }
    {
        match row.get(j) {
            None => false,
            Some(number) => match self.list.get(*number as usize) {
                None => false,
                Some(standing) => !standing.is_live(),
            },
        }
    }

    /// Notes that the name at a place of a response is not shown any more.
    fn hide(&mut self, elements: &Elements, last: &Response, row: &[u32], j: usize)
        requires numbers { AreNumbered elements.now }
        requires fits { Fits elements.now self.old }
        requires row { row.now ≡ numbers_in (element_names elements.now) last.now }
        requires inside { j < length last.now }
        requires known { (a : NameBytes) → In a (drop j last.now)
            → (i : ℕ) × (number_of elements.now a ≡ Some i) }
        ensures notes { OnlyNotes elements.now self.old self.new }
        ensures shown { (front : List NameBytes)
            → ShowJust elements.now self.old.list.items (front ++ drop j last.now)
            → ShowJust elements.now self.new.list.items (front ++ drop (j + 1) last.now) }
    {
        self.note(row[j] as usize, false);
    }

    /// Notes that the names of a response from a place on are not shown any more.
    fn hide_from(&mut self, elements: &Elements, last: &Response, row: &[u32], j: usize)
        requires numbers { AreNumbered elements.now }
        requires fits { Fits elements.now self.old }
        requires row { row.now ≡ numbers_in (element_names elements.now) last.now }
        requires known { (a : NameBytes) → In a (drop j last.now)
            → (i : ℕ) × (number_of elements.now a ≡ Some i) }
        ensures notes { OnlyNotes elements.now self.old self.new }
        ensures shown { (front : List NameBytes)
            → ShowJust elements.now self.old.list.items (front ++ drop j last.now)
            → ShowJust elements.now self.new.list.items front }
    {
        for k in j..row.len() {
            self.hide(elements, last, row, k);
        }
    }
}

/// Adds so many numbers of a row, from a place on.
fn copy_run(next: &mut Vec<u32>, row: &[u32], j: usize, run: usize) -> Result<(), Memory>
    requires { j + run ≤ length row.now }
    ensures { OnOk result (next.new.items ≡ next.old.items ++ take run (drop j row.now)) }
{
    next.extend_from_slice(&row[j..j + run])?;
    Ok(())
}
