// Policies as rows of words in a flat slice, and the ordered search over them (document 01; RFC 4301's SPD; docs/RULES.md, 'The ordered search').
#![tactic(auto)]

ghost use Rattle.std.specs.Prelude.{◌≡◌, ◌+◌, ◌*◌, ◌≤◌, length, take};
ghost use Rattle.std.proofs.lemmas.List.Edits.{sets};
ghost use Rattle.selectors.specs.Value.{combination};
ghost use Rattle.selectors.specs.Words.{values_of};
ghost use Rattle.selectors.specs.Ranges.{five_ranges};
ghost use Rattle.policy.specs.Policy.{applies_to, matches, match_from, ordered_search};
ghost use Rattle.policy.specs.Words.{direction_of, direction_word, action_of_word, action_word, row_words, row_at, policy_rows, ranges_of, words_of_record};

use selectors::words::{
    FIELDS, RANGES_WORDS, SELECTOR_WORDS, put_ranges, put_word, ranges_hold, selector_words,
};
use selectors::{
    AddressRange, Direction, FieldRange, Fields, PortRange, ProtocolRange, Ranges, Selectors,
};

#[derive(Clone, Copy, Debug, PartialEq, Eq)]
pub enum Action {
    Discard,
    Bypass,
    // With the number N of protect-N.
    Protect(u64),
}

// The direction of a row: one direction only, or both. (Stays beside `Option<Direction>`: its `None` would have to mean both.)
#[derive(Clone, Copy, Debug, PartialEq, Eq)]
pub enum RowDirection {
    Only(Direction),
    Both,
}

// A row as a record: its words, each with the meaning that it has in a flat list of words. Stays: direction and action are words, since C lends rows.
#[repr(C)]
#[derive(Clone, Copy, Debug, PartialEq, Eq)]
pub struct Row {
    pub direction: u64,
    pub action: u64,
    pub local: AddressRange,
    pub remote: AddressRange,
    pub protocol: ProtocolRange,
    pub local_port: PortRange,
    pub remote_port: PortRange,
}

// The words of a row before its ranges, its direction and its action; and the words of a row, with a range for each field.
pub const HEAD_WORDS: usize = 2;

pub const ROW_WORDS: usize = HEAD_WORDS + RANGES_WORDS;

// The most rows that a policy and a normal form may have (document 01, 21 and 22), and their words.
pub const LIMIT: usize = 256;

pub const POLICY_WORDS: usize = LIMIT * ROW_WORDS;

// The words of the first rows of a room for the limit's rows; of more rows than the limit, those that the room has.
pub fn first_rows(room: &[u64; POLICY_WORDS], count: usize) -> &[u64]
    ensures { result.now ≡ take (count * row_words) room.now }
{
    &room[..count.min(LIMIT) * ROW_WORDS]
}

// Every word is a direction, and every direction a word.
impl From<u64> for RowDirection {
    ghost from_gives = { λ word direction. direction ≡ direction_of word };

    fn from(word: u64) -> RowDirection {
        match word {
            1 => RowDirection::Only(Direction::Out),
            2 => RowDirection::Only(Direction::In),
            _ => RowDirection::Both,
        }
    }
}

impl From<RowDirection> for u64 {
    ghost from_gives = { λ direction word. word ≡ direction_word direction };

    fn from(direction: RowDirection) -> u64 {
        match direction {
            RowDirection::Only(Direction::Out) => 1,
            RowDirection::Only(Direction::In) => 2,
            RowDirection::Both => 3,
        }
    }
}

// Every word is an action.
impl From<u64> for Action {
    ghost from_gives = { λ word action. action ≡ action_of_word word };

    fn from(word: u64) -> Action {
        match word {
            0 => Action::Discard,
            1 => Action::Bypass,
            _ => Action::Protect(word - 2),
        }
    }
}

impl RowDirection {
    pub fn applies_to(self, direction: Direction) -> bool
        ensures { result ≡ applies_to self direction }
    {
        match self {
            RowDirection::Only(own) => own == direction,
            RowDirection::Both => true,
        }
    }
}

// Whether the row at a word is for the direction and holds the values.
fn row_matches(
    rows: &[u64],
    at: usize,
    direction: Direction,
    values: &[u64; SELECTOR_WORDS],
) -> bool
    requires { at + row_words ≤ length rows.now }
    ensures { result ≡ matches direction (row_at rows.now at) (values_of values.now) }
{
    if !RowDirection::from(rows[at]).applies_to(direction) {
        return false;
    }
    ranges_hold(rows, at + HEAD_WORDS, values, FIELDS)
}

// The first row for the direction that holds the values.
pub fn first_match(rows: &[u64], direction: Direction, selectors: Selectors) -> Option<usize>
    ensures { result ≡ match_from 0 direction (policy_rows rows.now) (combination selectors) }
{
    let values = selector_words(selectors);
    let count = rows.len() / ROW_WORDS;
    for row in 0..count {
        if row_matches(rows, row * ROW_WORDS, direction, &values) {
            return Some(row);
        }
    }
    None
}

// The ordered search: the action of the first match, and discard where there is none.
pub fn search(rows: &[u64], direction: Direction, selectors: Selectors) -> Action
    ensures { result ≡ ordered_search direction (policy_rows rows.now) (combination selectors) }
{
    let Some(row) = first_match(rows, direction, selectors) else {
        return Action::Discard;
    };
    Action::from(rows[row * ROW_WORDS + 1])
}

fn ranges_of(row: Row) -> Ranges
    ensures { five_ranges result ≡ ranges_of row }
{
    Fields {
        local: row.local.ends(),
        remote: row.remote.ends(),
        protocol: row.protocol.ends(),
        local_port: row.local_port.ends(),
        remote_port: row.remote_port.ends(),
    }
}

// Writes a row's words from a place on; a word that has no place is not written.
pub fn put_row(rows: &mut [u64], at: usize, row: Row)
    ensures { rows.new ≡ sets rows.old at (words_of_record row) }
{
    if rows.len() <= at {
        return;
    }
    put_word(rows, at, row.direction);
    put_word(rows, at + 1, row.action);
    put_ranges(rows, at + HEAD_WORDS, ranges_of(row));
}
