// Parts of a box: on one side of a value of a field, and what it shares with a row.
ghost use Rattle.std.specs.Prelude.{◌≡◌, ◌<◌};
ghost use Rattle.selectors.specs.Ranges.{ends_range};
ghost use Rattle.selectors.specs.Value.{number};
ghost use Rattle.selectors.specs.Words.{field_count};
ghost use Rattle.cover.specs.Boxes.{row_of, table_of, ranges_word, Narrowed, Part, Common};

use crate::rows::{range_in, ranges_of};
use crate::standing::Cut;
use crate::{Bounds, Policies, row_of};
use selectors::Ends;
use selectors::words::{FIELDS, RANGE_WORDS, VALUE_WORDS, put_value};

impl Bounds {
    // Keeps the part from the value of a cut on, or else the part below it.
    pub(crate) fn keep_part(&mut self, cut: &Cut, upper: bool)
        ensures { Part cut.now.field (number cut.now.at) upper self.old.words self.new.words }
    {
        let at = RANGE_WORDS * cut.field;
        if upper {
            put_value(&mut self.words, at, cut.at);
        } else {
            put_value(&mut self.words, at + VALUE_WORDS, cut.at.previous());
        }
    }

    // Leaves out the values of the field that are outside of a range, if there are any.
    fn narrow(&mut self, field: usize, range: Ends)
        requires { field < field_count }
        ensures { Narrowed field (ends_range range) self.old.words self.new.words }
    {
        let at = RANGE_WORDS * field;
        let own = range_in(&self.words, field);
        if own.low < range.low {
            put_value(&mut self.words, at, range.low);
        }
        if range.high < own.high {
            put_value(&mut self.words, at + VALUE_WORDS, range.high);
        }
    }
}

// A box that has all that a box and the row of a code have in common, in the fields from `field` on; if there is no such row, the box.
pub fn common(policies: &Policies<'_>, code: u32, field: usize, bounds: &Bounds) -> Bounds
    ensures { Common (table_of policies.now.first.now policies.now.second.now code) (ranges_word (row_of code)) field bounds.now.words result.words }
{
    let mut shared = *bounds;
    if let Some(row) = ranges_of(policies.table_of(code), row_of(code)) {
        for f in field..FIELDS {
            shared.narrow(f, range_in(row, f));
        }
    }
    shared
}
