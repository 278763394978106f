// The ranges of rows, and whether a row covers a box.
ghost use Rattle.std.specs.Prelude.{◌≡◌, ◌<◌, ◌*◌, true, ℕ, IfSome};
ghost use Rattle.selectors.specs.Ranges.{ends_range};
ghost use Rattle.selectors.specs.Words.{field_count, range_words, ends_at};
ghost use Rattle.cover.specs.Boxes.{row_of, table_of, ranges_word, HasRanges, Covers, RangeCovers};

use crate::{Bounds, Policies, row_of};
use policy::{HEAD_WORDS, ROW_WORDS};
use selectors::Ends;
use selectors::words::{FIELDS, RANGE_WORDS, RANGES_WORDS, ends_at};

// The words of the ranges of a row, if it is there. That it is there is asked once, so that the tests of its ranges fall away.
pub(crate) fn ranges_of(rows: &[u64], row: usize) -> Option<&[u64]>
    requires { row < 4294967296 }
    ensures { IfSome result (λ words. HasRanges rows.now row words.now) }
{
    let at = row * ROW_WORDS + HEAD_WORDS;
    rows.get(at..at + RANGES_WORDS)
}

// The range of a field among the words of ranges.
// Stays: that the field is one is asked for, and no type's: in a loop over `field..FIELDS` it is known, and a type would be made at each turn.
pub(crate) fn range_in(words: &[u64], field: usize) -> Ends
    requires { field < field_count }
    ensures { result ≡ ends_at words.now (range_words * field) }
{
    ends_at(words, RANGE_WORDS * field)
}

// Whether a range has all the values of another one.
fn range_covers(row: Ends, own: Ends) -> bool
    ensures { result ≡ true → RangeCovers (ends_range row) (ends_range own) }
{
    row.low <= own.low && own.high <= row.high
}

// Whether the row of a code is known to cover a box, in the fields from `field` on. Of rows that are not there nothing is known.
pub fn covers(policies: &Policies<'_>, code: u32, field: usize, bounds: &Bounds) -> bool
    ensures { result ≡ true → Covers (table_of policies.now.first.now policies.now.second.now code) (ranges_word (row_of code)) field bounds.now.words }
{
    let Some(row) = ranges_of(policies.table_of(code), row_of(code)) else {
        return false;
    };
    (field..FIELDS).all(|f| range_covers(range_in(row, f), range_in(&bounds.words, f)))
}
