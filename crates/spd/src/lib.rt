// What a gateway holds of its policy, in lent words: its own address, and the normal-form rows of both directions (document 01).
#![tactic(auto)]

ghost use Rattle.std.specs.Prelude.{◌≡◌, ◌≤◌, ◌<◌, min};
ghost use Rattle.policy.specs.Words.{row_limit};
ghost use Rattle.spd.specs.Words.{address_of, count_at, rows_at, rows_of};

use policy::{LIMIT, POLICY_WORDS, ROW_WORDS};
use selectors::Direction;

// Where the counts of rows stand, after the address.
const OUT_COUNT: usize = 1;

const IN_COUNT: usize = OUT_COUNT + 1;

// Where the rows for out begin, after the counts, and where those for in.
pub const OUT_ROWS: usize = IN_COUNT + 1;

pub const IN_ROWS: usize = OUT_ROWS + POLICY_WORDS;

// The words of a gateway's policy.
pub const SPD_WORDS: usize = IN_ROWS + POLICY_WORDS;

fn count_at(direction: Direction) -> usize
    ensures { (result ≡ count_at direction) × (result < 3) }
{
    match direction {
        Direction::Out => OUT_COUNT,
        Direction::In => IN_COUNT,
    }
}

fn rows_at(direction: Direction) -> usize
    ensures { (result ≡ rows_at row_limit direction) × (result ≤ rows_at row_limit Direction.In) }
{
    match direction {
        Direction::Out => OUT_ROWS,
        Direction::In => IN_ROWS,
    }
}

// The gateway's own address.
pub fn address_of(words: &[u64; SPD_WORDS]) -> u64
    ensures { result ≡ address_of words.now }
{
    words[0]
}

// The normal-form rows that the gateway holds for a direction, a part of the lent words.
pub fn rows_of(words: &[u64; SPD_WORDS], direction: Direction) -> &[u64]
    ensures { result.now ≡ rows_of row_limit words.now direction }
{
    // Never more rows than there is room for.
    let count = words[count_at(direction)].min(LIMIT as u64) as usize;
    let start = rows_at(direction);
    &words[start..start + count * ROW_WORDS]
}
