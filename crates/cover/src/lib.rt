// Boxes, a range for each field: whether rows of policies cover one, what one shares with a row, whether two rows are apart.
#![tactic(auto)]

mod apart;
mod parts;
mod rows;
mod standing;
mod stands;

ghost use Rattle.std.specs.Prelude.{◌≡◌, ◌*◌, ◌≤◌, true, length};
ghost use Rattle.cover.specs.Boxes.{row_of, in_second, table_of, Covered};

pub use crate::apart::{apart_from, rows_apart};
pub use crate::parts::common;
pub use crate::rows::covers;
use crate::standing::Stand;
use crate::stands::survey;
use policy::LIMIT;
use selectors::words::RANGES_WORDS;

// A list of rows has at most the limit's rows of each of two policies.
pub const MOST: usize = 2 * LIMIT;

// How deep a box is split.
const DEPTH: usize = 32;

// A box: for each field low and high, of two words each, as in a row. Where fields from one on count, the others are passed over.
#[derive(Clone, Copy)]
pub struct Bounds {
    pub words: [u64; RANGES_WORDS],
}

// The words of two policies. A row of one of them is named by a code.
// Stays: a code is a number, since the must-fail edits `policy_counts_to_the_row` and `sides_for_the_row` are about its digits.
#[derive(Clone, Copy)]
pub struct Policies<'a> {
    pub first: &'a [u64],
    pub second: &'a [u64],
}

impl<'a> Policies<'a> {
    // The policy of the row of a code.
    pub fn table_of(&self, code: u32) -> &'a [u64]
        ensures { result.now ≡ table_of self.now.first.now self.now.second.now code }
    {
        if in_second(code) {
            return self.second;
        }
        self.first
    }
}

// A code of a row of one of two policies: its place there, whose it is, and the sides that it is on.
pub fn row_of(code: u32) -> usize
    ensures { result ≡ row_of code }
{
    (code / 8) as usize
}

pub fn in_second(code: u32) -> bool
    ensures { result ≡ in_second code }
{
    code / 4 % 2 == 1
}

// A row's place in a policy, as lists of places hold it. Stays beside `usize::from`: two must-fail edits are about it.
pub fn wide(row: u16) -> usize
    ensures { result ≡ row }
{
    row as usize
}

// Whether the listed rows cover the box: one of them does, or they cover both parts of it. The part with the row that it is split by is soon
// done and is asked by recursion, the other one by the loop, so that long chains of rows take no depth. `left` is how many parts may still be
// looked at.
fn cover(
    policies: &Policies<'_>,
    list: &[u32],
    field: usize,
    bounds: &Bounds,
    depth: usize,
    left: &mut usize,
) -> bool
    ensures fewer { left.new ≤ left.old }
    ensures covered { result ≡ true → Covered policies.now.first.now policies.now.second.now list.now field bounds.now.words }
{
    if depth == 0 {
        return false;
    }
    let mut rest = *bounds;
    // Stays: a `while`, since it ends when the budget is used up, and counts no index.
    while 0 < *left {
        *left -= 1;
        let cut = match survey(policies, list, field, &rest) {
            Stand::Covering => return true,
            Stand::Across(cut) => cut,
            _ => return false,
        };
        let mut near = rest;
        near.keep_part(&cut, cut.above);
        if !cover(policies, list, field, &near, depth - 1, left) {
            return false;
        }
        rest.keep_part(&cut, !cut.above);
    }
    false
}

// Whether the rows of a list cover a box, in the fields from `field` on: yes, or not known. It looks at `left` parts of the box at the most,
// and takes off those that it looked at.
pub fn covered(
    policies: &Policies<'_>,
    list: &[u32],
    field: usize,
    bounds: &Bounds,
    left: &mut usize,
) -> bool
    ensures fewer { left.new ≤ left.old }
    ensures covered { result ≡ true → Covered policies.now.first.now policies.now.second.now list.now field bounds.now.words }
{
    list.len() <= MOST && cover(policies, list, field, bounds, DEPTH, left)
}
