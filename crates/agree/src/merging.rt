// Lists of entries: of the rows of a list at a cut, and of two lists merged.
ghost use Rattle.std.specs.Prelude.{◌≡◌, true, ℕ, ◌+◌, ◌*◌, ◌≤◌, ◌<◌, [], length, get_or, filter};
ghost use Rattle.selectors.specs.Range.{contains};
ghost use Rattle.selectors.specs.Value.{number};
ghost use Rattle.selectors.specs.Words.{field_count};
ghost use Rattle.agree.specs.Sides.{sides_of, SideRows, Next, row_behind, range_of};

use crate::row_list::RowList;
use crate::sides::Side;
use arrayvec::ArrayVec;
use cover::{MOST, wide};
use policy::{HEAD_WORDS, LIMIT, ROW_WORDS};
use selectors::Value;
use selectors::words::{RANGE_WORDS, ends_at};

// What a code has beside its row: 1 for the first side, 2 for the second, 4 for a row of the second policy.
// Stays: a code is a number, since the must-fail edits `policy_counts_to_the_row` and `sides_for_the_row` of cover are about its digits.
const FIRST: u32 = 1;

const SECOND: u32 = 2;

const IN_SECOND: u32 = 4;

// The sides of a row at a cut: the first where its range of the field holds the one value, the second where it holds the other.
fn sides_of(rows: &[u64], row: u16, field: usize, one: Value, other: Value) -> u32
    requires { field < field_count }
    ensures { result ≡ sides_of (range_of rows.now row field) (number one) (number other) }
{
    let at = wide(row) * ROW_WORDS + HEAD_WORDS + RANGE_WORDS * field;
    let range = ends_at(rows, at);
    let mut sides = 0;
    if range.hold(one) {
        sides += FIRST;
    }
    if range.hold(other) {
        sides += SECOND;
    }
    sides
}

// The code of a row of a policy with its sides, and 4 more for the second policy.
fn coded(row: u16, sides: u32) -> u32
    requires { sides < 8 }
    ensures { result ≡ 8 * row + sides }
{
    8 * (row as u32) + sides
}

// Makes entries of listed rows at a cut.
pub(crate) fn cut_entries(
    list: &RowList<'_>,
    field: usize,
    one: Value,
    other: Value,
    entries: &mut ArrayVec<u32, MOST>,
)
    requires { (field < field_count) × (entries.old.items ≡ []) }
    ensures { SideRows list.now.rows.now list.now.rows.now (filter (λ i. contains (range_of list.now.rows.now i field) (number one)) list.now.places.now) (filter (λ i. contains (range_of list.now.rows.now i field) (number other)) list.now.places.now) entries.new.items }
{
    for &row in list.places {
        let sides = sides_of(list.rows, row, field, one, other);
        if 0 < sides {
            entries.push(coded(row, sides));
        }
    }
}

// Whether two listed rows have the same action and ranges.
fn same_row(first: &RowList<'_>, i: usize, second: &RowList<'_>, j: usize) -> bool
    requires { (i < length first.now.places.now) × (j < length second.now.places.now) }
    ensures { result ≡ true → (f : ℕ) → row_behind first.now.rows.now f (get_or first.now.places.now i 0) ≡ row_behind second.now.rows.now f (get_or second.now.places.now j 0) }
{
    first.row(i) == second.row(j)
}

// How far behind `from` the first row of another list is that is the same as the row i; the limit if there is none. It matters for the time
// alone.
fn ahead(list: &RowList<'_>, i: usize, other: &RowList<'_>, from: usize) -> usize
    requires { i < length list.now.places.now }
{
    for k in from..other.places.len() {
        if same_row(list, i, other, k) {
            return k - from;
        }
    }
    LIMIT
}

// The side on which the next entry stands alone, where i rows of the first list and j of the second are entries; none, if the next rows are
// the same. Of two that differ the one stays alone whose like is farther away in the other list.
fn next_of(first: &RowList<'_>, i: usize, second: &RowList<'_>, j: usize) -> Option<Side>
    requires { (i ≤ length first.now.places.now) × ((j ≤ length second.now.places.now) × (i + j < length first.now.places.now + length second.now.places.now)) }
    ensures { Next first.now.rows.now first.now.places.now i second.now.rows.now second.now.places.now j result }
{
    if first.places.len() <= i {
        return Some(Side::Second);
    }
    if second.places.len() <= j {
        return Some(Side::First);
    }
    if same_row(first, i, second, j) {
        return None;
    }
    if ahead(first, i, second, j) < ahead(second, j, first, i) {
        return Some(Side::Second);
    }
    Some(Side::First)
}

// Makes entries of two lists, a row that is the same and in like order in both one entry.
// Stays: the loop counts by hand, since it goes through two lists, each at its own pace.
pub(crate) fn merge(first: &RowList<'_>, second: &RowList<'_>, entries: &mut ArrayVec<u32, MOST>)
    requires { entries.old.items ≡ [] }
    ensures { SideRows first.now.rows.now second.now.rows.now first.now.places.now second.now.places.now entries.new.items }
{
    let mut i: usize = 0;
    let mut j: usize = 0;
    while i + j < first.places.len() + second.places.len() {
        match next_of(first, i, second, j) {
            Some(Side::First) => {
                entries.push(coded(first.places[i], FIRST));
                i += 1;
            }
            Some(Side::Second) => {
                entries.push(coded(second.places[j], SECOND + IN_SECOND));
                j += 1;
            }
            None => {
                entries.push(coded(first.places[i], FIRST + SECOND));
                i += 1;
                j += 1;
            }
        }
    }
}
