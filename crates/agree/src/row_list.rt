// A list of rows of a policy.
ghost use Rattle.std.specs.Prelude.{◌≡◌, ◌+◌, ◌*◌, ◌<◌, length, get_or, slice_range, IfSome};
ghost use Rattle.policy.specs.Words.{row_words};
ghost use Rattle.agree.specs.Sides.{There};

use cover::wide;
use policy::{LIMIT, ROW_WORDS};

// Rows of a policy by their places there, at most as many as the limit.
#[derive(Clone, Copy)]
pub(crate) struct RowList<'a> {
    pub(crate) rows: &'a [u64],
    pub(crate) places: &'a [u16],
    ghost there: { There rows.now places.now },
}

impl<'a> RowList<'a> {
    // The list, if its places are those of rows that are there.
    pub(crate) fn of(rows: &'a [u64], places: &'a [u16]) -> Option<RowList<'a>>
        ensures { IfSome result (λ list. (list.rows.now ≡ rows.now) × (list.places.now ≡ places.now)) }
    {
        if LIMIT < places.len() {
            return None;
        }
        let most = rows.len() / ROW_WORDS;
        for &place in places {
            if most <= wide(place) {
                return None;
            }
        }
        Some(RowList { rows, places })
    }

    // The words of a listed row from its action on.
    pub(crate) fn row(&self, i: usize) -> &'a [u64]
        requires { i < length self.now.places.now }
        ensures { result.now ≡ slice_range self.now.rows.now (get_or self.now.places.now i 0 * row_words + 1) (get_or self.now.places.now i 0 * row_words + row_words) }
    {
        let at = wide(self.places[i]) * ROW_WORDS;
        &self.rows[at + 1..at + ROW_WORDS]
    }
}
