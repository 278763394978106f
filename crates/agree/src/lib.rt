// Whether two ordered lists of rows give the same action throughout a box: yes, or not known; and which rows may part two values of a field.
#![tactic(auto)]

mod agreement;
mod cuts;
mod entries;
mod merging;
mod row_list;
mod sides;

ghost use Rattle.std.specs.Prelude.{◌≡◌, true, ◌+◌, ◌≤◌, ◌<◌, length, filter};
ghost use Rattle.selectors.specs.Range.{contains};
ghost use Rattle.selectors.specs.Value.{number};
ghost use Rattle.selectors.specs.Words.{field_count};
ghost use Rattle.policy.specs.Words.{row_limit};
ghost use Rattle.agree.specs.Sides.{range_of, Alike, Cutting};

use crate::cuts::{acting, cutting_among};
use crate::merging::{cut_entries, merge};
use crate::row_list::RowList;
use crate::sides::Entries;
use arrayvec::ArrayVec;
use cover::{Bounds, MOST, Policies};
use policy::LIMIT;
use selectors::Value;
use selectors::words::FIELDS;

// Whether two lists of rows, each in its order, give the same action throughout a box, in the fields from `field` on: yes, or not known.
pub fn agree(
    first: &[u64],
    of_first: &[u16],
    second: &[u64],
    of_second: &[u16],
    field: usize,
    bounds: Bounds,
) -> bool
    ensures { result ≡ true → Alike field bounds.words first.now of_first.now second.now of_second.now }
{
    let Some(one) = RowList::of(first, of_first) else {
        return false;
    };
    let Some(other) = RowList::of(second, of_second) else {
        return false;
    };
    let mut codes = ArrayVec::<u32, MOST>::new();
    merge(&one, &other, &mut codes);
    let entries = Entries {
        policies: Policies { first, second },
        codes: &codes,
        field,
    };
    entries.agreed(&bounds)
}

// Whether the rows of a list give the same action behind two values of a field, throughout a box of the fields behind it: yes, or not known.
pub fn same_behind(
    rows: &[u64],
    list: &[u16],
    field: usize,
    one: Value,
    other: Value,
    bounds: Bounds,
) -> bool
    ensures { result ≡ true → Alike (field + 1) bounds.words rows.now (filter (λ i. contains (range_of rows.now i field) (number one)) list.now) rows.now (filter (λ i. contains (range_of rows.now i field) (number other)) list.now) }
{
    if FIELDS <= field {
        return false;
    }
    if list.is_empty() {
        return true;
    }
    let Some(listed) = RowList::of(rows, list) else {
        return false;
    };
    let mut codes = ArrayVec::<u32, MOST>::new();
    cut_entries(&listed, field, one, other, &mut codes);
    let entries = Entries {
        policies: Policies {
            first: rows,
            second: rows,
        },
        codes: &codes,
        field: field + 1,
    };
    entries.agreed(&bounds)
}

// Lists those rows of a list that may part two values of a field: all but rows that discard and that no row which acts otherwise meets in the
// fields behind it.
pub fn cutting(rows: &[u64], list: &[u16], field: usize, cuts: &mut ArrayVec<u16, LIMIT>)
    ensures { length list.now ≤ row_limit → field < field_count → Cutting rows.now list.now field cuts.new.items }
{
    cuts.clear();
    if LIMIT < list.len() {
        return;
    }
    if FIELDS <= field {
        return;
    }
    let mut actors = ArrayVec::<u16, LIMIT>::new();
    acting(rows, list, &mut actors);
    cutting_among(rows, list, &actors, field, cuts);
}
