// Whether a row is apart from a box, and two rows from each other: by the ends of their ranges, field by field.
ghost use Rattle.std.specs.Prelude.{◌≡◌, true};
ghost use Rattle.selectors.specs.Ranges.{ends_range};
ghost use Rattle.cover.specs.Boxes.{row_of, table_of, ranges_word, Apart, RowsApart, RangeApart};

use crate::rows::{range_in, ranges_of};
use crate::{Bounds, Policies, row_of, wide};
use selectors::Ends;
use selectors::words::FIELDS;

// Whether two ranges are apart: one ends before the other begins.
pub(crate) fn ranges_apart(row: Ends, own: Ends) -> bool
    ensures { result ≡ true → RangeApart (ends_range row) (ends_range own) }
{
    row.high < own.low || own.high < row.low
}

// Whether the row of a code is known to be apart from a box, in the fields from `field` on. Of rows that are not there nothing is known.
pub fn apart_from(policies: &Policies<'_>, code: u32, field: usize, bounds: &Bounds) -> bool
    ensures { result ≡ true → Apart (table_of policies.now.first.now policies.now.second.now code) (ranges_word (row_of code)) field bounds.now.words }
{
    let Some(row) = ranges_of(policies.table_of(code), row_of(code)) else {
        return false;
    };
    (field..FIELDS).any(|f| ranges_apart(range_in(row, f), range_in(&bounds.words, f)))
}

// Whether two rows are known to be apart, in the fields from `field` on.
pub fn rows_apart(rows: &[u64], a: u16, b: u16, field: usize) -> bool
    ensures { result ≡ true → RowsApart rows.now a b field }
{
    let Some(row) = ranges_of(rows, wide(a)) else {
        return false;
    };
    let Some(other) = ranges_of(rows, wide(b)) else {
        return false;
    };
    (field..FIELDS).any(|f| ranges_apart(range_in(row, f), range_in(other, f)))
}
