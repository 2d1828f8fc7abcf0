//! What is known of each list while a row is judged.

ghost use Rattle.std.specs.Prelude.{◌≡◌, ◌≢◌, ℕ, ◌+◌, ◌<◌, ◌≤◌, ◌^◌, All, vec_len};
ghost use Rattle.list_rule.specs.Marks.{IsBegun, IsNoted, IsNotedMark, mark_at};

use super::spot::Spot;

/// What is known of a list in a row.
#[derive(Clone, Copy)]
pub struct Mark {
    /// The row for which the rest was written: they are counted from 1.
    pub row: u32,
    /// From this place on all was compared with a number that is no deeper.
    pub end: u32,
    /// The place behind the last one at which the source stands, or 0.
    pub behind_source: u32,
}

/// A mark for each list, and the row that is judged. What was written for an earlier row counts no more: so
/// nothing has to be set back.
#[derive(Drop)]
pub struct State {
    pub marks: Vec<Mark>,
    pub row: u32,
    /// What rows have cost, in words of a table.
    pub cost: u64,
}

/// The mark of a list in this row: where none is written, nothing was compared, and the source not found.
pub fn mark_of(state: &State, list: u32) -> Mark
    requires { list < vec_len state.now.marks }
    ensures row { result.row ≡ state.now.row }
    ensures written { (mark_at state.now.marks.items list).row ≡ state.now.row
        → result ≡ mark_at state.now.marks.items list }
    ensures unwritten { (mark_at state.now.marks.items list).row ≢ state.now.row
        → result ≡ record { row = state.now.row; end = u32.MAX; behind_source = 0 } }
{
    let mark = state.marks[list as usize];
    if mark.row == state.row {
        return mark;
    }
    Mark {
        row: state.row,
        end: u32::MAX,
        behind_source: 0,
    }
}

/// Makes all marks those of no row.
fn forget_all(marks: &mut [Mark])
    ensures { (l : ℕ) → (mark_at marks.new l).row ≡ 0 }
{
    for mark in marks.iter_mut() {
        *mark = Mark {
            row: 0,
            end: 0,
            behind_source: 0,
        };
    }
}

/// Begins a row: no mark is written for it.
fn next_row(state: &mut State)
    requires { (l : ℕ) → (mark_at state.old.marks.items l).row ≤ state.old.row }
    ensures count { vec_len state.new.marks ≡ vec_len state.old.marks }
    ensures fresh { (l : ℕ) → (mark_at state.new.marks.items l).row < state.new.row }
{
    if state.row == u32::MAX {
        forget_all(&mut state.marks);
        state.row = 0;
    }
    state.row += 1;
}

/// Notes a place of the source in its list's mark, unless a later one is noted there.
fn note_spot(state: &mut State, spot: Spot)
    requires list { spot.list < vec_len state.old.marks }
    requires place { spot.place + 1 < 2 ^ 32 }
    ensures count { vec_len state.new.marks ≡ vec_len state.old.marks }
    ensures row { state.new.row ≡ state.old.row }
    ensures noted { IsNoted state.new spot }
    ensures others { (l : ℕ) → IsNotedMark state.old state.new spot l }
{
    let mark = mark_of(state, spot.list);
    if mark.behind_source <= spot.place {
        state.marks[spot.list as usize] = Mark {
            row: state.row,
            end: u32::MAX,
            behind_source: spot.place + 1,
        };
    }
}

/// Begins a row for a source with these spots: in each of their lists the last place of the source is noted.
pub fn begin_row(state: &mut State, spots: &[Spot])
    requires rows { (l : ℕ) → (mark_at state.old.marks.items l).row ≤ state.old.row }
    requires lists { All (λ q. q.list < vec_len state.old.marks) spots.now }
    requires places { All (λ q. q.place + 1 < 2 ^ 32) spots.now }
    ensures { IsBegun spots.now state.old state.new }
{
    next_row(state);
    for spot in spots {
        note_spot(state, *spot);
    }
}
