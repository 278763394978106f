// Values that follow one another.
ghost use Rattle.std.specs.Prelude.{◌≤◌};
ghost use Rattle.selectors.specs.Value.{number};

use selectors::Value;

// The values from `from` to `last`.
#[derive(Clone, Copy)]
pub(crate) struct Span {
    pub from: Value,
    pub last: Value,

    ghost ordered: { number from ≤ number last },
}
