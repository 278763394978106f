// The format of policy files (document 01; docs/RULES.md, 'The policy file'): texts, cuts at a byte, and decimals; specs/ has the whole format.
#![tactic(auto)]

ghost use Rattle.std.specs.Prelude.{◌≡◌, ◌≤◌, length, IfSome};
ghost use Rattle.policy_text.specs.Bytes.{index, before, after, count};
ghost use Rattle.policy_text.specs.Decimals.{unpadded, decimal};
ghost use Rattle.policy_text.specs.declared.ParseError.TheVariants.{Refused};

// Where the first byte `b` stands, or the text's length.
// Stays a number, and no Option: its clause is an equation with `index`, which is the length where there is none.
pub fn find(s: &[u8], b: u8) -> usize
    ensures { (result ≡ index b s.now) × (result ≤ length s.now) }
{
    s.iter().position(|x| *x == b).unwrap_or(s.len())
}

#[tactic(auto, unfolding(crate::specs::Bytes::before))]
pub fn before(s: &[u8], b: u8) -> &[u8]
    ensures { result.now ≡ before b s.now }
{
    let end = find(s, b);
    &s[..end]
}

#[tactic(auto, using(crate::proofs::BytesLaws::part_rest, crate::proofs::BytesLaws::left_none), unfolding(crate::specs::Bytes::after))]
pub fn after(s: &[u8], b: u8) -> &[u8]
    ensures { result.now ≡ after b s.now }
{
    let end = find(s, b);
    if end < s.len() {
        return &s[end + 1..];
    }
    &s[end..]
}

#[tactic(auto, using(crate::proofs::BytesLaws::count_counts))]
pub fn count(s: &[u8], b: u8) -> usize
    ensures { result ≡ count b s.now }
{
    s.iter().filter(|x| **x == b).count()
}

#[tactic(auto, using(crate::proofs::FormatLaws::unpadded_empty, crate::proofs::FormatLaws::unpadded_one, crate::proofs::FormatLaws::unpadded_more))]
fn unpadded(s: &[u8]) -> bool
    ensures { result ≡ unpadded s.now }
{
    match s {
        [] => false,
        [_] => true,
        [first, ..] => *first != b'0',
    }
}

// The number that a text stands for, if it is at most `max`.
#[tactic(auto, using(crate::proofs::FormatLaws::decimals))]
pub fn decimal(s: &[u8], max: u16) -> Option<u64>
    ensures value { result ≡ decimal max s.now }
    ensures within { IfSome result (λ n. n ≤ max) }
{
    if !unpadded(s) {
        return None;
    }
    let mut n: u64 = 0;
    for c in s {
        if !c.is_ascii_digit() {
            return None;
        }
        n = n * 10 + u64::from(*c - b'0');
        if u64::from(max) < n {
            return None;
        }
    }
    Some(n)
}

// Why a file is no policy: document 01's 23, 24, 21 and 20.
#[derive(Clone, Copy, Debug, PartialEq, Eq)]
pub enum Refusal {
    NotHeader,
    NotEnded,
    TooMany,
    // With the number of the row, the first being 1.
    BadRow(usize),
}

// The editions of the policy file, by their header lines.
#[derive(Clone, Copy, Debug, PartialEq, Eq)]
pub enum Edition {
    // `policy`, tab, `1`.
    One,
}

// A file that is a policy: its edition and the count of its rows.
#[derive(Clone, Copy, Debug, PartialEq, Eq)]
pub struct Rows {
    pub edition: Edition,
    pub count: usize,
}

// Why a file was not parsed into a lent room.
#[derive(Clone, Copy, Debug, PartialEq, Eq)]
pub enum ParseError {
    Refused(Refusal),
    // The rows are good, and the lent room is too short for them.
    NoRoom,
}

impl From<Refusal> for ParseError {
    ghost from_gives = { λ refusal error. error ≡ Refused refusal };

    fn from(refusal: Refusal) -> ParseError {
        ParseError::Refused(refusal)
    }
}
