// Lays policies out into their normal form, and two policies into their difference (document 01, 'One normal form').
#![tactic(auto)]

mod branch;
mod intervals;
mod lists;
mod room;
mod span;
mod stretches;

ghost use Rattle.std.specs.Prelude.{◌+◌, ◌-◌, ◌≤◌, ◌<◌, length};
ghost use Rattle.selectors.specs.Value.{number};
ghost use Rattle.selectors.specs.Words.{field_count};
ghost use Rattle.policy.specs.Words.{policy_rows};
ghost use Rattle.layout.specs.Laid.{sizes_of, Outcome};
ghost use Rattle.layout.specs.Parting.{difference_form};
ghost use Rattle.layout.specs.Steps.{LaidOut, field_form, value_form, words_for};
ghost use Rattle.layout.specs.Stretches.{StretchOut};

use crate::branch::{Branch, Task};
use crate::intervals::interval_end;
use crate::lists::{narrow, rows_for, with_value};
use crate::room::{place_stretch, stamp};
use crate::span::Span;
use crate::stretches::{joined, known_alike, leaf};
use agree::cutting;
use arrayvec::ArrayVec;
use policy::{LIMIT, ROW_WORDS};
use selectors::words::{FIELDS, SELECTOR_WORDS, VALUE_WORDS, value_at};
use selectors::{Direction, Value};

// The words of room for each row of a layout's limit: a row for each field, and one for what stands behind the last.
pub const ROOM_WORDS: usize = (FIELDS + 1) * ROW_WORDS;

// A value for each field: two words each, the upper first.
#[derive(Clone, Copy)]
pub struct Point {
    pub words: [u64; SELECTOR_WORDS],
}

// Why nothing is laid out.
#[derive(Clone, Copy, Debug, PartialEq, Eq)]
pub enum LayoutError {
    // More rows than the limit.
    Over,
    // Less room than the limit asks for.
    NoRoom,
}

// The rows from `last` to `next` are those of the last interval, which begins at the value `low`; those before it are done. Stays: that
// `last` is at most `next` is asked for; as a ghost field it was tried, and in the loop `invariant_of-kept` stayed open.
#[derive(Clone, Copy)]
struct Kept {
    last: usize,
    next: usize,
    low: Value,
}

const START: Kept = Kept {
    last: 0,
    next: 0,
    low: Value::ZERO,
};

// Lays out what follows the branch's field at its value `from`: the next field, or the leaf where none is left. None: it is known to be what
// follows the value before.
#[cycle(layout_field_layout_stretch)]
fn layout_stretch(
    branch: &Branch,
    from: Value,
    room: &mut [u64],
) -> Result<Option<usize>, LayoutError>
    requires field_lt_field_count { branch.now.field < field_count }
    requires field_in_bounds { words_for branch.now.task.now.limit (field_count - (branch.now.field + 1)) ≤ length room.old }
    ensures { StretchOut branch.now.task.now.limit (branch.now.field + 1) (field_count - (branch.now.field + 1)) (number from) (value_form branch.now.first.now branch.now.second.now branch.now.task.now branch.now.point branch.now.field) room.new result }
{
    if joined(branch, from) {
        return Ok(None);
    }
    let task = branch.task;
    let first = branch.first;
    let second = branch.second;
    let mut of_first = ArrayVec::<u16, LIMIT>::new();
    let mut of_second = ArrayVec::<u16, LIMIT>::new();
    narrow(first, branch.of_first, branch.field, from, &mut of_first);
    narrow(second, branch.of_second, branch.field, from, &mut of_second);
    let inner = Branch {
        task,
        first,
        second,
        field: branch.field + 1,
        point: with_value(branch.point, branch.field, from),
        of_first: &of_first,
        of_second: &of_second,
    };
    if inner.field == FIELDS {
        return Ok(Some(leaf(&inner, room)?));
    }
    if known_alike(&inner) {
        return Ok(Some(0));
    }
    Ok(Some(layout_field(&inner, room)?))
}

// Lays out the branch's field and those after it: from interval to interval, each of which is laid out into the rest of the room.
#[cycle(layout_field_layout_stretch)]
fn layout_field(branch: &Branch, room: &mut [u64]) -> Result<usize, LayoutError>
    requires field_lt_field_count { branch.now.field < field_count }
    requires field_in_bounds { words_for branch.now.task.now.limit (field_count - branch.now.field) ≤ length room.old }
    ensures { LaidOut branch.now.task.now.limit branch.now.field (field_count - branch.now.field) (field_form branch.now.first.now branch.now.second.now branch.now.task.now branch.now.point branch.now.field) room.new result }
{
    let field = branch.field;
    let limit = branch.task.limit;
    let top = value_at(&branch.task.highest.words, VALUE_WORDS * field);
    let mut cuts = ArrayVec::<u16, LIMIT>::new();
    let mut other_cuts = ArrayVec::<u16, LIMIT>::new();
    cutting(branch.first, branch.of_first, field, &mut cuts);
    cutting(branch.second, branch.of_second, field, &mut other_cuts);
    let mut kept = START;
    let mut from = Value::ZERO;
    // Stays: a `loop`, since it goes from interval to interval until the last value, and counts no index.
    loop {
        let end = interval_end(branch, &cuts, &other_cuts, Span { from, last: top });
        let base = kept.next * ROW_WORDS;
        let laid = layout_stretch(branch, from, &mut room[base..])?;
        kept = place_stretch(room, kept, laid, field, from);
        let next = kept.next;
        if limit < next {
            return Err(LayoutError::Over);
        }
        if end == top {
            stamp(room, kept.last, next, field, kept.low, top);
            return Ok(next);
        }
        from = end.next();
    }
}

// Lays out where the policies of two lists of rows part for a direction, or with no second list the normal form of the first, and counts the rows.
// `highest` has the highest value of each field. The rows, at most `limit`, stand at the start of the room; the rest of the room is
// scratch, and what it holds afterwards is left open. NoRoom is answered before anything is written.
pub fn layout(
    first: &[u64],
    second: &[u64],
    direction: Direction,
    highest: Point,
    limit: usize,
    room: &mut [u64],
) -> Result<usize, LayoutError>
    ensures { Outcome limit (difference_form (sizes_of highest) direction (policy_rows first.now) (policy_rows second.now)) room.old room.new result }
{
    if room.len() / ROOM_WORDS < limit {
        return Err(LayoutError::NoRoom);
    }
    let task = Task {
        direction,
        highest,
        limit,
    };
    let mut of_first = ArrayVec::<u16, LIMIT>::new();
    let mut of_second = ArrayVec::<u16, LIMIT>::new();
    rows_for(first, direction, &mut of_first);
    rows_for(second, direction, &mut of_second);
    let branch = Branch {
        task: &task,
        first,
        second,
        field: 0,
        point: Point {
            words: [0; SELECTOR_WORDS],
        },
        of_first: &of_first,
        of_second: &of_second,
    };
    if known_alike(&branch) {
        return Ok(0);
    }
    layout_field(&branch, room)
}
