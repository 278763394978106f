// Lists of the rows that are active, for the direction and holding a point's values, and the action that they give.
ghost use Rattle.std.specs.Prelude.{◌≡◌, [], ◌+◌, ◌*◌, ◌≤◌, ◌<◌, length};
ghost use Rattle.std.proofs.lemmas.List.Edits.{sets};
ghost use Rattle.selectors.specs.Value.{number};
ghost use Rattle.selectors.specs.Words.{field_count, value_words, ends_at, values_from, words_of_value};
ghost use Rattle.policy.specs.Policy.{ordered_search};
ghost use Rattle.policy.specs.Words.{policy_rows, action_word, row_words};
ghost use Rattle.agree.specs.Sides.{There};
ghost use Rattle.layout.specs.Decode.{word_of, active as isActive};
ghost use Rattle.layout.specs.Lists.{Lists, Narrowed};

use crate::Point;
use arrayvec::ArrayVec;
use policy::{HEAD_WORDS, LIMIT, ROW_WORDS, RowDirection, first_match};
use selectors::words::{
    RANGE_WORDS, SELECTOR_WORDS, VALUE_WORDS, ends_at, put_value, ranges_hold, selectors_of,
};
use selectors::{Direction, Ends, Value};

// The point with another value of a field.
pub(crate) fn with_value(point: Point, field: usize, value: Value) -> Point
    requires { field < field_count }
    ensures { result.words ≡ sets point.words (value_words * field) (words_of_value (number value)) }
{
    let mut words = point.words;
    put_value(&mut words, VALUE_WORDS * field, value);
    Point { words }
}

// Whether a row is for the direction and holds the point's values in the fields before `field`.
// Stays: a row and a field are numbers, with their bounds in the contracts: a type for either would be built at each read, and is no plainer.
pub(crate) fn active(
    rows: &[u64],
    row: usize,
    direction: Direction,
    point: &[u64; SELECTOR_WORDS],
    field: usize,
) -> bool
    requires { (field ≤ field_count) × (row * row_words + row_words ≤ length rows.now) }
    ensures { result ≡ isActive direction rows.now row field (values_from point.now 0 field) }
{
    RowDirection::from(rows[row * ROW_WORDS]).applies_to(direction)
        && ranges_hold(rows, row * ROW_WORDS + HEAD_WORDS, point, field)
}

// The range of a field in a row. Most of a layout's time goes here: lent as four words, the range is read without a test of its place.
pub(crate) fn row_range(rows: &[u64], row: usize, field: usize) -> Ends
    requires { (field < field_count) × (row * row_words + row_words ≤ length rows.now) }
    ensures { result ≡ ends_at rows.now (word_of row field) }
{
    let at = row * ROW_WORDS + HEAD_WORDS + RANGE_WORDS * field;
    let end = at + RANGE_WORDS;
    ends_at(&rows[at..end], 0)
}

// Lists the rows for the direction, of the first ones of a policy, as many as the limit of a list. Those of a policy beyond them are asked one by one.
pub(crate) fn rows_for(rows: &[u64], direction: Direction, list: &mut ArrayVec<u16, LIMIT>)
    ensures { Lists direction rows.now 0 [] list.new.items }
{
    let nowhere = [0u64; SELECTOR_WORDS];
    let listed = (rows.len() / ROW_WORDS).min(LIMIT);
    list.clear();
    for row in 0..listed {
        if active(rows, row, direction, &nowhere, 0) {
            list.push(row as u16);
        }
    }
}

// Lists those of the listed rows whose ranges of the field hold the value.
pub(crate) fn narrow(
    rows: &[u64],
    old: &[u16],
    field: usize,
    value: Value,
    list: &mut ArrayVec<u16, LIMIT>,
)
    requires { (field < field_count) × There rows.now old.now }
    ensures { Narrowed rows.now field (number value) old.now list.new.items }
{
    list.clear();
    for &row in old {
        if row_range(rows, usize::from(row), field).hold(value) {
            list.push(row);
        }
    }
}

// The word of discard.
const DISCARD: u64 = 0;

// The word of the action that the ordered search finds at the point, whose values the listed rows hold.
// Stays: an action is its word, since a row of a normal form gets the word as the policy has it (specs/Laid.antt, `laid_row`).
pub(crate) fn action_at(rows: &[u64], direction: Direction, point: &Point, list: &[u16]) -> u64
    requires { Lists direction rows.now field_count (values_from point.now.words 0 field_count) list.now }
    ensures { result ≡ action_word (ordered_search direction (policy_rows rows.now) (values_from point.now.words 0 field_count)) }
{
    if let [row, ..] = list {
        return rows[usize::from(*row) * ROW_WORDS + 1];
    }
    if rows.len() / ROW_WORDS <= LIMIT {
        return DISCARD;
    }
    match first_match(rows, direction, selectors_of(&point.words)) {
        Some(row) => rows[row * ROW_WORDS + 1],
        None => DISCARD,
    }
}
