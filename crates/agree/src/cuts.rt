// Rows that may part two values of a field: all but those that discard and are met by none that acts otherwise.
ghost use Rattle.std.specs.Prelude.{◌≡◌, false, ℕ, ◌≤◌, ◌<◌, [], length, get_or, filter};
ghost use Rattle.selectors.specs.Words.{field_count};
ghost use Rattle.policy.specs.Words.{row_limit};
ghost use Rattle.cover.specs.Boxes.{RowsApart};
ghost use Rattle.agree.specs.Sides.{action_in, does_act, Cutting};

use crate::entries::action_in;
use arrayvec::ArrayVec;
use cover::{rows_apart, wide};
use policy::LIMIT;

// Whether a row does not discard.
fn acts(rows: &[u64], row: u16) -> bool
    ensures { result ≡ does_act rows.now row }
{
    action_in(rows, wide(row)) != 0
}

// Lists those rows of a list that do not discard.
pub(crate) fn acting(rows: &[u64], list: &[u16], actors: &mut ArrayVec<u16, LIMIT>)
    requires { (length list.now ≤ row_limit) × (actors.old.items ≡ []) }
    ensures { actors.new.items ≡ filter (λ i. does_act rows.now i) list.now }
{
    for &row in list {
        if acts(rows, row) {
            actors.push(row);
        }
    }
}

// Whether a row may be met by one of the listed rows, in the fields from `field` on.
fn may_meet(rows: &[u64], row: u16, actors: &[u16], field: usize) -> bool
    ensures { result ≡ false → (k : ℕ) → k < length actors.now → RowsApart rows.now row (get_or actors.now k 0) field }
{
    for &actor in actors {
        if !rows_apart(rows, row, actor, field) {
            return true;
        }
    }
    false
}

// Whether a row does not discard, or may be met by one of the listed rows.
fn may_cut(rows: &[u64], row: u16, actors: &[u16], field: usize) -> bool
    ensures { result ≡ false → (action_in rows.now row ≡ 0) × ((k : ℕ) → k < length actors.now → RowsApart rows.now row (get_or actors.now k 0) field) }
{
    acts(rows, row) || may_meet(rows, row, actors, field)
}

// The same, where the rows that do not discard are listed.
pub(crate) fn cutting_among(
    rows: &[u64],
    list: &[u16],
    actors: &[u16],
    field: usize,
    cuts: &mut ArrayVec<u16, LIMIT>,
)
    requires list_len { (length list.now ≤ row_limit) × (cuts.old.items ≡ []) }
    requires field_lt_field_count { (field < field_count) × (actors.now ≡ filter (λ i. does_act rows.now i) list.now) }
    ensures { Cutting rows.now list.now field cuts.new.items }
{
    for &row in list {
        if may_cut(rows, row, actors, field) {
            cuts.push(row);
        }
    }
}
