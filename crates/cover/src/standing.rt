// How a row stands to a box, and where to split the box by it.
ghost use Rattle.std.specs.Prelude.{◌<◌};
ghost use Rattle.selectors.specs.Words.{field_count};

use selectors::Value;

// A place to split a box by a row: the upper part begins at `at`, an end of the row in the field, and the row is in the upper part alone where
// `above`, else in the lower. The lower the score, the better the place.
#[derive(Clone, Copy)]
pub(crate) struct Cut {
    pub(crate) field: usize,
    pub(crate) at: Value,
    pub(crate) above: bool,
    pub(crate) score: u64,
    ghost in_range: { field < field_count },
}

// How a row stands to a box: outside of it, covering it, or across it, so that it may be split; or that is not known.
#[derive(Clone, Copy)]
pub(crate) enum Stand {
    Outside,
    Covering,
    Across(Cut),
    Unknown,
}
