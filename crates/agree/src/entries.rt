// Entries: the sides that they are on, their actions, how they stand to a box.
ghost use Rattle.std.specs.Prelude.{◌≡◌, true, not, ◌<◌, ◌≤◌, length, get_or, MatchOption};
ghost use Rattle.agree.specs.Sides.{is_second, sides_in, action_in, on_side, on, action_at, EntryApart, EntryCovers, EntryCommon};

use crate::sides::{Entries, Side};
use cover::{Bounds, apart_from, common, covers, row_of};
use policy::ROW_WORDS;

impl Side {
    pub(crate) fn other(self) -> Side
        ensures { is_second result ≡ not (is_second self) }
    {
        match self {
            Side::First => Side::Second,
            Side::Second => Side::First,
        }
    }
}

// Whether the row of a code is on a side.
pub(crate) fn on(code: u32, side: Side) -> bool
    ensures { result ≡ on_side (is_second side) code }
{
    match side {
        Side::First => code % 2 == 1,
        Side::Second => code / 2 % 2 == 1,
    }
}

// The action's word of a row; 0 if the word is not there.
pub(crate) fn action_in(rows: &[u64], row: usize) -> u64
    requires { row < 4294967296 }
    ensures { result ≡ action_in rows.now row }
{
    rows.get(row * ROW_WORDS + 1).copied().unwrap_or(0)
}

impl Entries<'_> {
    // The code of an entry; the end row has none.
    fn code(&self, k: usize) -> Option<u32>
        ensures { MatchOption result (length self.now.codes.now ≤ k) (λ code. (k < length self.now.codes.now) × (code ≡ get_or self.now.codes.now k 0)) }
    {
        self.codes.get(k).copied()
    }

    pub(crate) fn on(&self, k: usize, side: Side) -> bool
        ensures { result ≡ on (sides_in self.now) (is_second side) k }
    {
        let Some(code) = self.code(k) else {
            return true;
        };
        on(code, side)
    }

    pub(crate) fn action(&self, k: usize) -> u64
        ensures { result ≡ action_at (sides_in self.now) k }
    {
        let Some(code) = self.code(k) else {
            return 0;
        };
        action_in(self.policies.table_of(code), row_of(code))
    }

    // Whether an entry is known to be apart from a box; and whether it is known to cover it.
    pub(crate) fn apart(&self, k: usize, bounds: &Bounds) -> bool
        ensures { result ≡ true → EntryApart (sides_in self.now) k bounds.now.words }
    {
        let Some(code) = self.code(k) else {
            return false;
        };
        apart_from(&self.policies, code, self.field, bounds)
    }

    pub(crate) fn cover(&self, k: usize, bounds: &Bounds) -> bool
        ensures { result ≡ true → EntryCovers (sides_in self.now) k bounds.now.words }
    {
        let Some(code) = self.code(k) else {
            return true;
        };
        covers(&self.policies, code, self.field, bounds)
    }

    // A box that has all that a box and an entry have in common.
    pub(crate) fn common(&self, k: usize, bounds: &Bounds) -> Bounds
        ensures { EntryCommon (sides_in self.now) k bounds.now.words result.words }
    {
        let Some(code) = self.code(k) else {
            return *bounds;
        };
        common(&self.policies, code, self.field, bounds)
    }
}
