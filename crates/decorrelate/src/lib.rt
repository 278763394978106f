// Policies made decorrelated (RFC 4301): the normal form of a policy, and the difference of two (document 01, 'One normal form').
#![tactic(auto)]

ghost use Rattle.std.specs.Prelude.{◌≡◌, true, ◌↔◌, ◌≤◌, length};
ghost use Rattle.policy.specs.Words.{policy_rows, row_limit};
ghost use Rattle.policy_text.specs.Editions.{edition_sizes, rules};
ghost use Rattle.layout.specs.Laid.{sizes_of};
ghost use Rattle.decorrelate.specs.Agree.{Agree};
ghost use Rattle.decorrelate.specs.Form.{padded, form_answer, form_after, FormOutcome};

use layout::{LayoutError, Point, ROOM_WORDS};
use policy::{LIMIT, POLICY_WORDS, ROW_WORDS};
use policy_text::Edition;
use selectors::Direction;

// The words of the room that a normal form asks for.
const FORM_ROOM: usize = LIMIT * ROOM_WORDS;

// A normal form has more rows than the limit.
#[derive(Clone, Copy, Debug, PartialEq, Eq)]
pub struct OverLimit;

// The highest value of each field of IPv4, in two words.
pub const IPV4: Point = Point {
    words: [0, 4294967295, 0, 4294967295, 0, 255, 0, 65536, 0, 65536],
};

// The highest value of each field of an edition.
fn highest(edition: Edition) -> Point
    ensures { sizes_of result ≡ edition_sizes edition }
{
    match edition {
        Edition::One => IPV4,
    }
}

// Lays out the normal form of a policy of that edition for a direction: its words stand at the start of the room, and the rest is scratch.
fn normal_form(
    edition: Edition,
    rows: &[u64],
    direction: Direction,
    room: &mut [u64],
) -> Result<usize, LayoutError>
    ensures { FormOutcome row_limit direction (rules edition (policy_rows rows.now)) room.old room.new result }
{
    let top = highest(edition);
    layout::layout(rows, &rows[..0], direction, top, LIMIT, room)
}

// Writes the words of a list, and zeros after them.
fn fill(words: &mut [u64], from: &[u64])
    requires { length from.now ≤ length words.old }
    ensures { words.new ≡ padded (length words.old) from.now }
{
    let used = from.len();
    words[..used].copy_from_slice(from);
    words[used..].fill(0);
}

// The normal form of a policy of that edition for a direction in a room for the limit's rows, and the count of its rows: its words, and zeros
// after them. More rows than the limit leave the room as it was.
pub fn form_of(
    edition: Edition,
    rows: &[u64],
    direction: Direction,
    form: &mut [u64; POLICY_WORDS],
) -> Result<usize, OverLimit>
    ensures value { result ≡ form_answer row_limit direction (rules edition (policy_rows rows.now)) }
    ensures form_after { form.new ≡ form_after row_limit row_limit direction (rules edition (policy_rows rows.now)) form.old }
{
    let mut room = [0u64; FORM_ROOM];
    let n = normal_form(edition, rows, direction, &mut room).map_err(|_| OverLimit)?;
    fill(form, &room[..n * ROW_WORDS]);
    Ok(n)
}

// Whether two policies of that edition give every combination the same action in a direction: their difference has no rows. The first one ends
// the layout.
pub fn same(edition: Edition, first: &[u64], second: &[u64], direction: Direction) -> bool
    ensures { (result ≡ true) ↔ Agree (edition_sizes edition) direction (policy_rows first.now) (policy_rows second.now) }
{
    let mut room = [0u64; ROOM_WORDS];
    let top = highest(edition);
    let laid = layout::layout(first, second, direction, top, 0, &mut room);
    match laid {
        Ok(count) => count == 0,
        Err(_) => false,
    }
}
