// How far the values of a field are treated alike: the last value of the interval that begins at one.
ghost use Rattle.std.specs.Prelude.{◌≡◌, true, ◌/◌, ◌+◌, ◌*◌, ◌≤◌, ◌<◌, length};
ghost use Rattle.selectors.specs.Ranges.{ends_range};
ghost use Rattle.selectors.specs.Value.{number};
ghost use Rattle.selectors.specs.Words.{field_count, values_from};
ghost use Rattle.policy.specs.Words.{row_words};
ghost use Rattle.agree.specs.Sides.{range_of, There};
ghost use Rattle.layout.specs.Decode.{active as isActive};
ghost use Rattle.layout.specs.Lists.{AlikeListed, CutsAt};
ghost use Rattle.layout.specs.Steps.{IntervalEnd, AlikeTo, AlikeAmong, SearchAlike};

use crate::Point;
use crate::branch::Branch;
use crate::lists::{active, row_range};
use crate::span::Span;
use policy::{LIMIT, ROW_WORDS};
use selectors::{Direction, Ends, Value};

// The last value of the span to which the range treats all values like its first.
fn alike_to(range: Ends, span: Span) -> Value
    ensures { IntervalEnd (number span.from) (number span.last) (number result) (AlikeTo (ends_range range) (number span.from) (number result)) }
{
    if span.from < range.low {
        let before = range.low.previous();
        return before.min(span.last);
    }
    if range.high < span.from {
        return span.last;
    }
    range.high.min(span.last)
}

// The same for the range of a field in a row.
fn range_end(rows: &[u64], row: usize, field: usize, span: Span) -> Value
    requires { (field < field_count) × (row * row_words + row_words ≤ length rows.now) }
    ensures { IntervalEnd (number span.from) (number span.last) (number result) (AlikeTo (range_of rows.now row field) (number span.from) (number result)) }
{
    alike_to(row_range(rows, row, field), span)
}

// The same if the row is active, which is asked last, since most ranges end nothing earlier.
fn row_end(
    rows: &[u64],
    row: usize,
    direction: Direction,
    point: &Point,
    field: usize,
    span: Span,
) -> Value
    requires { (field < field_count) × (row * row_words + row_words ≤ length rows.now) }
    ensures { IntervalEnd (number span.from) (number span.last) (number result) (isActive direction rows.now row field (values_from point.now.words 0 field) ≡ true → AlikeTo (range_of rows.now row field) (number span.from) (number result)) }
{
    let end = range_end(rows, row, field, span);
    if span.last <= end {
        return span.last;
    }
    if !active(rows, row, direction, &point.words, field) {
        return span.last;
    }
    end
}

// The same for the listed rows.
fn end_listed(rows: &[u64], list: &[u16], field: usize, span: Span) -> Value
    requires { (field < field_count) × There rows.now list.now }
    ensures { IntervalEnd (number span.from) (number span.last) (number result) (AlikeListed rows.now list.now (length list.now) field (number span.from) (number result)) }
{
    let from = span.from;
    let mut end = span.last;
    for &row in list {
        end = range_end(rows, usize::from(row), field, Span { from, last: end });
    }
    end
}

// The same for all rows of a policy that are active.
fn end_of_all(rows: &[u64], direction: Direction, point: &Point, field: usize, span: Span) -> Value
    requires { field < field_count }
    ensures { IntervalEnd (number span.from) (number span.last) (number result) (AlikeAmong direction rows.now (length rows.now / row_words) field (values_from point.now.words 0 field) (number span.from) (number result)) }
{
    let from = span.from;
    let mut end = span.last;
    for row in 0..rows.len() / ROW_WORDS {
        end = row_end(rows, row, direction, point, field, Span { from, last: end });
    }
    end
}

// The last value of the span to which the search treats all values like its first: no listed row parts them, or no active row at all where a
// policy has more rows than are listed.
fn end_among(
    rows: &[u64],
    direction: Direction,
    point: &Point,
    cuts: &[u16],
    field: usize,
    span: Span,
) -> Value
    requires field_lt_field_count { field < field_count }
    requires cuts_at { CutsAt direction rows.now field (values_from point.now.words 0 field) cuts.now }
    ensures { IntervalEnd (number span.from) (number span.last) (number result) (SearchAlike direction rows.now (values_from point.now.words 0 field) (number span.from) (number result)) }
{
    if rows.len() / ROW_WORDS <= LIMIT {
        return end_listed(rows, cuts, field, span);
    }
    end_of_all(rows, direction, point, field, span)
}

// The last value of the interval that begins with the span: to it, both policies treat all values alike. The lists have the rows of the policies
// that may part values of the branch's field.
pub(crate) fn interval_end(branch: &Branch, cuts: &[u16], other_cuts: &[u16], span: Span) -> Value
    requires field_lt_field_count { branch.now.field < field_count }
    requires cuts_at { CutsAt branch.now.task.now.direction branch.now.first.now branch.now.field (values_from branch.now.point.words 0 branch.now.field) cuts.now }
    requires cuts_at_2 { CutsAt branch.now.task.now.direction branch.now.second.now branch.now.field (values_from branch.now.point.words 0 branch.now.field) other_cuts.now }
    ensures { IntervalEnd (number span.from) (number span.last) (number result) (SearchAlike branch.now.task.now.direction branch.now.first.now (values_from branch.now.point.words 0 branch.now.field) (number span.from) (number result) × SearchAlike branch.now.task.now.direction branch.now.second.now (values_from branch.now.point.words 0 branch.now.field) (number span.from) (number result)) }
{
    let direction = branch.task.direction;
    let point = &branch.point;
    let field = branch.field;
    let from = span.from;
    let last = end_among(branch.first, direction, point, cuts, field, span);
    end_among(
        branch.second,
        direction,
        point,
        other_cuts,
        field,
        Span { from, last },
    )
}
