// Normalising: a policy file and a direction to the normal-form file (document 01, 'One normal form').
#![tactic(auto)]

ghost use Rattle.std.specs.Prelude.{◌≡◌, length};
ghost use Rattle.policy.specs.Words.{policy_rows, row_limit};
ghost use Rattle.policy_text.specs.Editions.{rules, rows, parse_policy};
ghost use Rattle.normal_form_file.specs.Normalise.{normalised, normalised_bytes};
ghost use Rattle.normal_form_file.specs.declared.NormaliseError.TheVariants.{Refused, NoRoom as ShortRoom};

use policy::POLICY_WORDS;
use policy_print::NoRoom;
use policy_text::{Edition, Refusal};
use selectors::Direction;

#[derive(Clone, Copy, Debug, PartialEq, Eq)]
pub enum NormaliseError {
    // 23, 24, 21, 20: the file is no policy.
    Refused(Refusal),
    // 22: the normal form for the direction has too many rows.
    TooLarge(Direction),
    // 31: the lent room is shorter than the printed file.
    NoRoom,
}

impl From<Refusal> for NormaliseError {
    ghost from_gives = { λ refusal error. error ≡ Refused refusal };

    fn from(refusal: Refusal) -> NormaliseError {
        NormaliseError::Refused(refusal)
    }
}

impl From<NoRoom> for NormaliseError {
    ghost from_gives = { λ _ error. error ≡ ShortRoom };

    fn from(_no_room: NoRoom) -> NormaliseError {
        NormaliseError::NoRoom
    }
}

// Lays a policy's rows out and prints them in its edition; the count of bytes printed.
fn print_form(
    edition: Edition,
    policy: &[u64],
    direction: Direction,
    out: &mut [u8],
) -> Result<usize, NormaliseError>
    ensures value { result ≡ normalised row_limit direction (length out.old) (rows (rules edition (policy_rows policy.now))) }
    ensures out_after { out.new ≡ normalised_bytes row_limit direction out.old (rows (rules edition (policy_rows policy.now))) }
{
    let mut words = [0u64; POLICY_WORDS];
    let Ok(count) = decorrelate::form_of(edition, policy, direction, &mut words) else {
        return Err(NormaliseError::TooLarge(direction));
    };
    let rows = policy::first_rows(&words, count);
    let bytes = policy_print::print(edition, rows, direction, out)?;
    Ok(bytes)
}

// The normal-form file of a policy file for a direction, at the start of the lent bytes, and its length; a refusal leaves them as they were.
pub fn normalise(
    bytes: &[u8],
    direction: Direction,
    out: &mut [u8],
) -> Result<usize, NormaliseError>
    ensures value { result ≡ normalised row_limit direction (length out.old) (parse_policy row_limit bytes.now) }
    ensures out_after { out.new ≡ normalised_bytes row_limit direction out.old (parse_policy row_limit bytes.now) }
{
    let mut room = [0u64; POLICY_WORDS];
    let parsed = policy_parse::parse_policy(bytes, &mut room)?;
    let rows = policy::first_rows(&room, parsed.count);
    print_form(parsed.edition, rows, direction, out)
}
