// What a layout is asked for, and the field of it that is to be laid out next.
ghost use Rattle.std.specs.Prelude.{◌≤◌};
ghost use Rattle.selectors.specs.Words.{field_count};
ghost use Rattle.layout.specs.Lists.{BranchAt};

use crate::Point;
use selectors::Direction;

// What a layout is asked for.
#[derive(Clone, Copy)]
pub(crate) struct Task {
    pub direction: Direction,
    pub highest: Point,
    pub limit: usize,
}

// A field of two policies that is to be laid out behind the point's values of those before it, and the rows of each policy that hold these, by
// their places. Behind the last field it is the leaf. Stays: both policies and not `Policies`, since a struct in a struct, both with references, is
// not covered ('is given one at other lifetimes').
#[derive(Clone, Copy)]
pub(crate) struct Branch<'t, 'p, 'q, 'a, 'b> {
    pub task: &'t Task,
    pub first: &'p [u64],
    pub second: &'q [u64],
    pub field: usize,
    pub point: Point,
    pub of_first: &'a [u16],
    pub of_second: &'b [u16],

    ghost in_range: { field ≤ field_count },
    ghost listed: { BranchAt task.now.direction first.now second.now field point.words of_first.now of_second.now },
}
