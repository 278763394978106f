// Two sides of one list of entries, and what is asked of an entry.
ghost use Rattle.std.specs.Prelude.{◌≤◌, ◌*◌, length};
ghost use Rattle.policy.specs.Words.{row_limit};

use cover::Policies;

// One of the two lists that are compared.
#[derive(Clone, Copy, PartialEq, Eq)]
pub(crate) enum Side {
    First,
    Second,
}

// Entries: codes of rows of two policies, each on one side or on both, of which the fields from `field` on count. Behind them stands the end
// row, which is on both sides, holds everything and discards.
#[derive(Clone, Copy)]
pub(crate) struct Entries<'a> {
    pub(crate) policies: Policies<'a>,
    pub(crate) codes: &'a [u32],
    pub(crate) field: usize,
    ghost fits: { length codes.now ≤ 2 * row_limit },
}

// What is asked: whether the entry `row`, which is on one side only, makes a difference.
#[derive(Clone, Copy)]
pub(crate) struct Asked {
    pub(crate) side: Side,
    pub(crate) row: usize,
}

// What an entry is to the row asked about in a box: no matter; a conflict, on the other side with another action; or the end, an entry of the
// other side with the same action that covers the box, so that none behind it is first there.
pub(crate) enum Step {
    Past,
    Conflict,
    End,
}
