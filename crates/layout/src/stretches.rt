// What stands behind one value of a field: the leaf, and what is known without laying it out.
ghost use Rattle.std.specs.Prelude.{◌≡◌, true, [], ◌/◌, ◌*◌, ◌≤◌, ◌<◌, length};
ghost use Rattle.selectors.specs.Value.{number};
ghost use Rattle.selectors.specs.Words.{field_count};
ghost use Rattle.policy.specs.Words.{row_words, row_limit};
ghost use Rattle.layout.specs.Steps.{LaidOut, field_form, value_form};
ghost use Rattle.layout.specs.Stretches.{Joins, Whole};

use crate::branch::Branch;
use crate::lists::action_at;
use crate::{LayoutError, Point};
use agree::{agree, same_behind};
use cover::Bounds;
use policy::{LIMIT, ROW_WORDS};
use selectors::Value;
use selectors::words::FIELDS;

// Behind the last field stands the leaf, if the two policies part there.
pub(crate) fn leaf(branch: &Branch, room: &mut [u64]) -> Result<usize, LayoutError>
    requires at_end { branch.now.field ≡ field_count }
    requires room_fits { branch.now.task.now.limit * row_words ≤ length room.old }
    ensures { LaidOut branch.now.task.now.limit field_count 0 (field_form branch.now.first.now branch.now.second.now branch.now.task.now branch.now.point field_count) room.new result }
{
    let direction = branch.task.direction;
    let action = action_at(branch.first, direction, &branch.point, branch.of_first);
    let other = action_at(branch.second, direction, &branch.point, branch.of_second);
    if action == other {
        return Ok(0);
    }
    if branch.task.limit == 0 {
        return Err(LayoutError::Over);
    }
    room[0] = other;
    room[1] = action;
    Ok(1)
}

// The box of all values, by the highest value of each field.
fn box_of(highest: &Point) -> Bounds
    ensures { Whole highest.now result.words }
{
    let t = &highest.words;
    Bounds {
        words: [
            0, 0, t[0], t[1], 0, 0, t[2], t[3], 0, 0, t[4], t[5], 0, 0, t[6], t[7], 0, 0, t[8],
            t[9],
        ],
    }
}

// Whether both policies have no more rows than are listed.
fn all_listed(first: &[u64], second: &[u64]) -> bool
    ensures { result ≡ true → (length first.now / row_words ≤ row_limit) × (length second.now / row_words ≤ row_limit) }
{
    first.len() / ROW_WORDS <= LIMIT && second.len() / ROW_WORDS <= LIMIT
}

// Whether both policies are known to treat the value `from` of the branch's field like the one before it.
pub(crate) fn joined(branch: &Branch, from: Value) -> bool
    requires { branch.now.field < field_count }
    ensures { result ≡ true → Joins (number from) (value_form branch.now.first.now branch.now.second.now branch.now.task.now branch.now.point branch.now.field) }
{
    let field = branch.field;
    let first = branch.first;
    let second = branch.second;
    if field + 1 == FIELDS || from == Value::ZERO || !all_listed(first, second) {
        return false;
    }
    let bounds = box_of(&branch.task.highest);
    let below = from.previous();
    same_behind(first, branch.of_first, field, below, from, bounds)
        && same_behind(second, branch.of_second, field, below, from, bounds)
}

// Whether both policies are known to agree behind the branch's point, whatever its field and those after it hold.
pub(crate) fn known_alike(branch: &Branch) -> bool
    ensures { result ≡ true → field_form branch.now.first.now branch.now.second.now branch.now.task.now branch.now.point branch.now.field ≡ [] }
{
    let first = branch.first;
    let second = branch.second;
    if !all_listed(first, second) {
        return false;
    }
    let bounds = box_of(&branch.task.highest);
    agree(
        first,
        branch.of_first,
        second,
        branch.of_second,
        branch.field,
        bounds,
    )
}
