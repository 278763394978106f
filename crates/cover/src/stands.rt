// How rows stand to a box: outside of it, covering it, or across it, and where best to split it.
ghost use Rattle.std.specs.Prelude.{◌≡◌, ◌<◌, ◌≤◌, ◌≢◌};
ghost use Rattle.selectors.specs.Ranges.{ends_range};
ghost use Rattle.selectors.specs.Words.{field_count};
ghost use Rattle.cover.specs.Boxes.{row_of, table_of, ranges_word, FieldStand, BoxStand, Surveyed};
ghost use Rattle.cover.specs.declared.standing.Stand.TheVariants.{Outside};

use crate::apart::ranges_apart;
use crate::rows::{range_in, ranges_of};
use crate::standing::{Cut, Stand};
use crate::{Bounds, Policies, row_of};
use selectors::words::FIELDS;
use selectors::{Ends, Value};

// The widths that are told apart.
const WIDEST: u64 = 1000000;

// About half the count of the values from low to high.
fn width(low: Value, high: Value) -> u64
    ensures { 0 < result }
{
    if low.upper == high.upper {
        return std::num::wrapping_sub_u64(high.lower, low.lower) / 2 + 1;
    }
    1 << 63
}

// How many times as wide as what it shares with the row the box is in a field. No statement needs it: any place to split is sound.
fn smallness(row: Ends, own: Ends) -> u64 {
    let shared = width(own.low.max(row.low), own.high.min(row.high));
    (width(own.low, own.high) / shared).min(WIDEST) + 1
}

// The stand with one field more, by the row's range and the box's own. A place to split is that of the last field that has one.
fn stand_one(s: Stand, field: usize, row: Ends, own: Ends) -> Stand
    requires { (field < field_count) × (s ≢ Outside) }
    ensures { FieldStand s (ends_range row) (ends_range own) result }
{
    if ranges_apart(row, own) {
        return Stand::Outside;
    }
    let above = own.low < row.low;
    if !above && own.high <= row.high {
        return s;
    }
    let so_far = match s {
        Stand::Across(cut) => cut.score,
        _ => 0,
    };
    Stand::Across(Cut {
        field,
        at: if above { row.low } else { row.high.next() },
        above,
        score: std::num::wrapping_add_u64(so_far, smallness(row, own)),
    })
}

// How the row of a code, from the field on, stands to a box.
fn stand_of(policies: &Policies<'_>, code: u32, field: usize, bounds: &Bounds) -> Stand
    ensures { BoxStand (table_of policies.now.first.now policies.now.second.now code) (ranges_word (row_of code)) field bounds.now.words result }
{
    let Some(row) = ranges_of(policies.table_of(code), row_of(code)) else {
        return Stand::Unknown;
    };
    let mut s = Stand::Covering;
    for f in field..FIELDS {
        s = stand_one(s, f, range_in(row, f), range_in(&bounds.words, f));
        if let Stand::Outside = s {
            return s;
        }
    }
    s
}

// The better place to split: that with the lower score.
fn better(best: Option<Cut>, cut: Cut) -> Cut {
    match best {
        Some(best) if best.score <= cut.score => best,
        _ => cut,
    }
}

// The first of the listed rows that covers the box, or else the best to split by.
pub(crate) fn survey(policies: &Policies<'_>, list: &[u32], field: usize, bounds: &Bounds) -> Stand
    ensures { Surveyed policies.now.first.now policies.now.second.now list.now field bounds.now.words result }
{
    let mut best = None;
    for &code in list {
        match stand_of(policies, code, field, bounds) {
            Stand::Covering => return Stand::Covering,
            Stand::Across(cut) => best = Some(better(best, cut)),
            _ => {}
        }
    }
    match best {
        Some(cut) => Stand::Across(cut),
        None => Stand::Unknown,
    }
}
