// Whether two policy files are the same policy in a direction: every search of one gives what it gives of the other.
#![tactic(auto)]

ghost use Rattle.std.specs.Prelude.{◌≡◌};
ghost use Rattle.policy.specs.Words.{row_limit};
ghost use Rattle.policy_text.specs.Editions.{parse_policy};
ghost use Rattle.same_policy.specs.Same.{compared};

use policy::POLICY_WORDS;
use policy_text::Refusal;
use selectors::Direction;

// A file that is no policy: 23, 24, 21, 20.
#[derive(Clone, Copy, Debug, PartialEq, Eq)]
pub enum CompareError {
    First(Refusal),
    Second(Refusal),
}

// Compares two policy files in a direction. A refusal is that of the first file that is refused.
pub fn same_policy(first: &[u8], second: &[u8], direction: Direction) -> Result<bool, CompareError>
    ensures { result ≡ compared direction (parse_policy row_limit first.now) (parse_policy row_limit second.now) }
{
    let mut first_room = [0u64; POLICY_WORDS];
    let first_file = policy_parse::parse_policy(first, &mut first_room);
    let first_rows = first_file.map_err(CompareError::First)?;
    let mut second_room = [0u64; POLICY_WORDS];
    let second_file = policy_parse::parse_policy(second, &mut second_room);
    let second_rows = second_file.map_err(CompareError::Second)?;
    let same = decorrelate::same(
        first_rows.edition,
        policy::first_rows(&first_room, first_rows.count),
        policy::first_rows(&second_room, second_rows.count),
        direction,
    );
    Ok(same)
}
