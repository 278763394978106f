// The ordered search over a lent list of row records.
#![tactic(auto)]

ghost use Rattle.std.specs.Prelude.{◌≡◌, map};
ghost use Rattle.selectors.specs.Value.{combination};
ghost use Rattle.selectors.specs.Range.{holds};
ghost use Rattle.policy.specs.Policy.{matches, ordered_search};
ghost use Rattle.policy.specs.Words.{ranges_of, row_of};

use policy::{Action, Row, RowDirection};
use selectors::{Direction, FieldRange, Selectors};

// Whether the five ranges of a row all hold the values.
fn ranges_hold(row: Row, selectors: Selectors) -> bool
    ensures { result ≡ holds (ranges_of row) (combination selectors) }
{
    if !row.local.holds(selectors.local) {
        return false;
    }
    if !row.remote.holds(selectors.remote) {
        return false;
    }
    if !row.protocol.holds(selectors.protocol) {
        return false;
    }
    if !row.local_port.holds(selectors.local_port) {
        return false;
    }
    row.remote_port.holds(selectors.remote_port)
}

// Whether a row is for the direction and holds the values.
pub fn row_matches(row: Row, direction: Direction, selectors: Selectors) -> bool
    ensures { result ≡ matches direction (row_of row) (combination selectors) }
{
    if !RowDirection::from(row.direction).applies_to(direction) {
        return false;
    }
    ranges_hold(row, selectors)
}

// The ordered search: the action of the first match, and discard where there is none.
pub fn search(rows: &[Row], direction: Direction, selectors: Selectors) -> Action
    ensures { result ≡ ordered_search direction (map row_of rows.now) (combination selectors) }
{
    for &row in rows {
        if row_matches(row, direction, selectors) {
            return Action::from(row.action);
        }
    }
    Action::Discard
}
