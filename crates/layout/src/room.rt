// The rows of a layout in the room: whether blocks of them are the same, and the range that a field puts in front of them.
ghost use Rattle.std.specs.Prelude.{◌≡◌, true, ◌↔◌, ℕ, ◌+◌, ◌-◌, ◌*◌, ◌≤◌, ◌<◌, length, Some};
ghost use Rattle.selectors.specs.Range.{same_range};
ghost use Rattle.selectors.specs.Value.{number};
ghost use Rattle.selectors.specs.Words.{field_count, range_at};
ghost use Rattle.policy.specs.Words.{row_words};
ghost use Rattle.layout.specs.Decode.{row_ranges, part_row, part_rows};
ghost use Rattle.layout.specs.Steps.{Stamped, Placed};
ghost use Rattle.layout.specs.Stretches.{PlacedStretch};

use crate::Kept;
use policy::{HEAD_WORDS, ROW_WORDS};
use selectors::words::{FIELDS, RANGE_WORDS, ends_at, put_ends};
use selectors::{Ends, Value};

// Whether two rows are the same from the field on.
fn same_row(room: &[u64], a: usize, b: usize, field: usize) -> bool
    requires { (field ≤ field_count) × ((a * row_words + row_words ≤ length room.now) × (b * row_words + row_words ≤ length room.now)) }
    ensures { (result ≡ true) ↔ (part_row field (field_count - field) room.now a ≡ part_row field (field_count - field) room.now b) }
{
    let left = a * ROW_WORDS;
    let right = b * ROW_WORDS;
    let from = HEAD_WORDS + RANGE_WORDS * field;
    room[left..left + HEAD_WORDS] == room[right..right + HEAD_WORDS]
        && room[left + from..left + ROW_WORDS] == room[right + from..right + ROW_WORDS]
}

// Whether `count` rows from a on and from b on are the same from the field on.
fn same_rows(room: &[u64], a: usize, b: usize, count: usize, field: usize) -> bool
    requires { (field ≤ field_count) × (((a + count) * row_words ≤ length room.now) × ((b + count) * row_words ≤ length room.now)) }
    ensures { (result ≡ true) ↔ (part_rows field (field_count - field) room.now a count ≡ part_rows field (field_count - field) room.now b count) }
{
    for i in 0..count {
        if !same_row(room, a + i, b + i, field) {
            return false;
        }
    }
    true
}

// Writes a row's range of the field.
fn stamp_row(room: &mut [u64], row: usize, field: usize, low: Value, high: Value)
    requires { (field < field_count) × (row * row_words + row_words ≤ length room.old) }
    ensures { Stamped field (field_count - (field + 1)) row (row + 1) (number low) (number high) room.old room.new }
{
    let at = row * ROW_WORDS + HEAD_WORDS + RANGE_WORDS * field;
    put_ends(room, at, Ends { low, high });
}

// Writes the range of the field of the rows a to b, without b.
pub(crate) fn stamp(room: &mut [u64], a: usize, b: usize, field: usize, low: Value, high: Value)
    requires { (field < field_count) × ((a ≤ b) × (b * row_words ≤ length room.old)) }
    ensures { Stamped field (field_count - (field + 1)) a b (number low) (number high) room.old room.new }
{
    for row in a..b {
        stamp_row(room, row, field, low, high);
    }
}

// Whether the last interval's rows are the same as the `count` rows behind them, from the field on.
fn same_block(room: &[u64], last: usize, next: usize, count: usize, field: usize) -> bool
    requires { (field ≤ field_count) × ((last ≤ next) × ((next + count) * row_words ≤ length room.now)) }
    ensures { (result ≡ true) ↔ (part_rows field (field_count - field) room.now last (next - last) ≡ part_rows field (field_count - field) room.now next count) }
{
    if next - last != count {
        return false;
    }
    same_rows(room, last, next, count, field)
}

// The last interval goes on, or it ends and one begins with the `count` rows behind it, which are the layout at `from`.
fn place(room: &mut [u64], kept: Kept, count: usize, field: usize, from: Value) -> Kept
    requires { (field < field_count) × ((kept.last ≤ kept.next) × ((kept.next + count) * row_words ≤ length room.old)) }
    ensures { Placed field (field_count - (field + 1)) kept count (number from) room.old room.new result }
{
    let last = kept.last;
    let next = kept.next;
    if same_block(room, last, next, count, field + 1) {
        return kept;
    }
    stamp(room, last, next, field, kept.low, from.previous());
    Kept {
        last: next,
        next: next + count,
        low: from,
    }
}

// The last interval goes on behind a value that is treated like the one before it; else as above.
pub(crate) fn place_stretch(
    room: &mut [u64],
    kept: Kept,
    laid: Option<usize>,
    field: usize,
    from: Value,
) -> Kept
    requires field_lt_field_count { (field < field_count) × (kept.last ≤ kept.next) }
    requires by_index { (count : ℕ) → laid ≡ Some count → (kept.next + count) * row_words ≤ length room.old }
    ensures { PlacedStretch field (field_count - (field + 1)) kept laid (number from) room.old room.new result }
{
    match laid {
        Some(count) => place(room, kept, count, field, from),
        None => kept,
    }
}
