// A fresh gateway's policy, and policy acceptance (document 01; docs/RULES.md, 'The order of checks').
#![tactic(auto)]

ghost use Rattle.std.specs.Prelude.{◌≡◌};
ghost use Rattle.policy.specs.Words.{policy_rows, row_limit};
ghost use Rattle.policy_text.specs.Editions.{rules, rows, parse_policy};
ghost use Rattle.acceptance.specs.Spd.{held_words, spd_words, no_rules, accepting, spd_after, empty_caches, caches_after};
ghost use Rattle.acceptance.specs.declared.AcceptError.TheVariants.{Refused};

use policy::POLICY_WORDS;
use policy_text::{Edition, Refusal};
use selectors::Direction;
use spd::{IN_ROWS, OUT_ROWS, SPD_WORDS};
use spd_cache::Cache;

// Why the policy of a file is not taken.
#[derive(Clone, Copy, Debug, PartialEq, Eq)]
pub enum AcceptError {
    // 23, 24, 21, 20: the file is no policy.
    Refused(Refusal),
    // 22: the normal form for the direction has too many rows.
    TooLarge(Direction),
}

impl From<Refusal> for AcceptError {
    ghost from_gives = { λ refusal error. error ≡ Refused refusal };

    fn from(refusal: Refusal) -> AcceptError {
        AcceptError::Refused(refusal)
    }
}

// The caches of both directions.
#[derive(Clone, Copy)]
pub struct Caches {
    pub outbound: Cache,
    pub inbound: Cache,
}

impl Caches {
    fn empty() -> Caches
        ensures { result ≡ empty_caches }
    {
        Caches {
            outbound: Cache::empty(),
            inbound: Cache::empty(),
        }
    }
}

// Writes the address, and the counts and the rooms of both directions. Stays: arrays with a count, since a gateway holds whole rooms, zeros behind the rows.
fn write(
    words: &mut [u64; SPD_WORDS],
    address: u64,
    out_count: usize,
    outbound: &[u64; POLICY_WORDS],
    in_count: usize,
    inbound: &[u64; POLICY_WORDS],
)
    ensures { words.new ≡ held_words address out_count outbound.now in_count inbound.now }
{
    words[0] = address;
    words[1] = out_count as u64;
    words[2] = in_count as u64;
    words[OUT_ROWS..IN_ROWS].copy_from_slice(outbound);
    words[IN_ROWS..].copy_from_slice(inbound);
}

// A fresh gateway holds its address and the policy without rows.
pub fn fresh(words: &mut [u64; SPD_WORDS], address: u32) -> Caches
    ensures { (result ≡ empty_caches) × (words.new ≡ spd_words row_limit address no_rules) }
{
    let none = [0u64; POLICY_WORDS];
    write(words, address as u64, 0, &none, 0, &none);
    Caches::empty()
}

// Takes the rows of a policy: both normal forms are laid out before anything lent is written.
fn load(
    words: &mut [u64; SPD_WORDS],
    caches: &mut Caches,
    edition: Edition,
    policy: &[u64],
) -> Result<(), AcceptError>
    ensures value { result ≡ accepting row_limit (rows (rules edition (policy_rows policy.now))) }
    ensures words_after { words.new ≡ spd_after row_limit row_limit words.old (rows (rules edition (policy_rows policy.now))) }
    ensures caches_after { caches.new ≡ caches_after row_limit caches.old (rows (rules edition (policy_rows policy.now))) }
{
    let mut outbound = [0u64; POLICY_WORDS];
    let Ok(out_count) = decorrelate::form_of(edition, policy, Direction::Out, &mut outbound) else {
        return Err(AcceptError::TooLarge(Direction::Out));
    };
    let mut inbound = [0u64; POLICY_WORDS];
    let Ok(in_count) = decorrelate::form_of(edition, policy, Direction::In, &mut inbound) else {
        return Err(AcceptError::TooLarge(Direction::In));
    };
    let address = words[0];
    write(words, address, out_count, &outbound, in_count, &inbound);
    *caches = Caches::empty();
    Ok(())
}

// The policy of a policy file replaces the one that the gateway holds, and empties the caches; a refusal changes nothing.
pub fn accept(
    words: &mut [u64; SPD_WORDS],
    caches: &mut Caches,
    bytes: &[u8],
) -> Result<(), AcceptError>
    ensures value { result ≡ accepting row_limit (parse_policy row_limit bytes.now) }
    ensures words_after { words.new ≡ spd_after row_limit row_limit words.old (parse_policy row_limit bytes.now) }
    ensures caches_after { caches.new ≡ caches_after row_limit caches.old (parse_policy row_limit bytes.now) }
{
    let mut room = [0u64; POLICY_WORDS];
    let parsed = policy_parse::parse_policy(bytes, &mut room)?;
    let rows = policy::first_rows(&room, parsed.count);
    load(words, caches, parsed.edition, rows)
}
