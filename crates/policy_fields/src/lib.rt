// The fields of a row, and the row.
#![tactic(auto)]

ghost use Rattle.std.specs.Prelude.{◌≡◌, ◌-◌, ◌^◌, ◌<◌, ◌≤◌, ℕ, List, cond, IfSome};
ghost use Rattle.std.proofs.Common.{rules};
ghost use Rattle.std.proofs.Math.Option.{some};
ghost use Rattle.selectors.specs.Range.{full};
ghost use Rattle.selectors.specs.Ranges.{address_of};
ghost use Rattle.policy.specs.Words.{action_word};
ghost use Rattle.policy_text.specs.Bytes.{are_same_bytes};
ghost use Rattle.policy_text.specs.Decimals.{Number, decimal};
ghost use Rattle.policy_text.specs.Format.{any, ends, direction_field};
ghost use Rattle.policy_text.specs.Edition1.{address, is_mask, masked_range, address_field, port_end, action_field};
ghost use Rattle.policy_fields.specs.Answers.{small, range_for, perhaps, entry_of};

use policy::{Action, Row, RowDirection};
use policy_text::{after, before, decimal};
use selectors::{ABSENT, AddressRange, Direction, FieldRange, PortRange, ProtocolRange, Value};

fn small(n: u64) -> Value
    ensures { result ≡ small n }
{
    Value { upper: 0, lower: n }
}

#[tactic(auto, unfolding(policy_text::specs::Edition1::address))]
fn address(s: &[u8]) -> Option<u64>
    ensures value { result ≡ address s.now }
    ensures within { IfSome result (λ n. n ≤ 4294967295) }
{
    let s1 = after(s, b'.');
    let s2 = after(s1, b'.');
    let s3 = after(s2, b'.');
    let a = decimal(before(s, b'.'), 255)?;
    let b = decimal(before(s1, b'.'), 255)?;
    let c = decimal(before(s2, b'.'), 255)?;
    let d = decimal(s3, 255)?;
    Some(((a * 256 + b) * 256 + c) * 256 + d)
}

// Whether a number of 32 bits is ones followed by zeros.
fn is_mask(m: u64) -> bool
    ensures { result ≡ is_mask m }
{
    for zeros in 0..33u32 {
        if m == 4294967296 - (1 << zeros) {
            return true;
        }
    }
    false
}

// The addresses of address/mask.
#[tactic(auto, using(crate::specs::AnswerLaws::new_small))]
fn masked(address: u64, mask: u64) -> Option<AddressRange>
    requires address_in { address ≤ 4294967295 }
    requires mask_in { mask ≤ 4294967295 }
    ensures { result ≡ range_for address_of (masked_range (Some address) (Some mask)) }
{
    if !is_mask(mask) {
        return None;
    }
    let size = 4294967296 - mask;
    if address % size != 0 {
        return None;
    }
    AddressRange::new(small(address), small(address + (size - 1)))
}

// A range that stands in a row as text.
trait RangeText: FieldRange {
    // The value that a text stands for before a dash, and after one or alone.
    ghost low_of: { List ℕ → Number };

    ghost high_of: { List ℕ → Number };

    fn low(s: &[u8]) -> Option<u64>
        ensures { result ≡ low_of s.now };

    fn high(s: &[u8]) -> Option<u64>
        ensures { result ≡ high_of s.now };

    ghost any_is: { Self.ANY ≡ Self.of_ends (small 0) (small (Self.size - 1)) };

    // One value, or `low-high`.
    #[tactic(auto, using(policy_text::proofs::BytesLaws::has_any, crate::specs::AnswerLaws::new_small))]
    final fn span(s: &[u8]) -> Option<Self>
        ensures { result ≡ range_for Self.of_ends (ends Self.size low_of high_of s.now) }
    {
        if s.contains(&b'-') {
            let low = Self::low(before(s, b'-'))?;
            let high = Self::high(after(s, b'-'))?;
            return Self::new(small(low), small(high));
        }
        let value = small(Self::high(s)?);
        Self::new(value, value)
    }

    // `any`, or a span.
    #[tactic(auto, using(policy_text::proofs::BytesLaws::same_pointwise))]
    final fn read(s: &[u8]) -> Option<Self>
        ensures { result ≡ range_for Self.of_ends (cond (are_same_bytes s.now any) (some (full Self.size)) (ends Self.size low_of high_of s.now)) }
    {
        if s == b"any".as_slice() {
            return Some(Self::ANY);
        }
        Self::span(s)
    }
}

impl RangeText for AddressRange {
    ghost low_of = { address };

    ghost high_of = { address };

    ghost any_is = { Prim.search rules };

    fn low(s: &[u8]) -> Option<u64> {
        address(s)
    }

    fn high(s: &[u8]) -> Option<u64> {
        address(s)
    }
}

impl RangeText for ProtocolRange {
    ghost low_of = { decimal 255 };

    ghost high_of = { decimal 255 };

    ghost any_is = { Prim.search rules };

    fn low(s: &[u8]) -> Option<u64> {
        decimal(s, 255)
    }

    fn high(s: &[u8]) -> Option<u64> {
        decimal(s, 255)
    }
}

impl RangeText for PortRange {
    ghost low_of = { decimal 65535 };

    ghost high_of = { port_end };

    ghost any_is = { Prim.search rules };

    fn low(s: &[u8]) -> Option<u64> {
        decimal(s, 65535)
    }

    // One port, or `opaque`.
    #[tactic(auto, using(policy_text::proofs::BytesLaws::same_pointwise))]
    fn high(s: &[u8]) -> Option<u64> {
        if s == b"opaque".as_slice() {
            return Some(ABSENT.lower);
        }
        decimal(s, 65535)
    }
}

// An address range may also be address/mask.
#[tactic(auto, using(policy_text::proofs::BytesLaws::has_any, crate::specs::AnswerLaws::unlike_any), unfolding(policy_text::specs::Edition1::address_field))]
fn address_field(s: &[u8]) -> Option<AddressRange>
    ensures { result ≡ range_for address_of (address_field s.now) }
{
    if s.contains(&b'/') {
        return masked(address(before(s, b'/'))?, address(after(s, b'/'))?);
    }
    AddressRange::read(s)
}

#[tactic(auto, using(policy_text::proofs::BytesLaws::same_pointwise), unfolding(policy_text::specs::Format::direction_field))]
fn direction_field(s: &[u8]) -> Option<RowDirection>
    ensures { result ≡ perhaps (direction_field s.now) }
{
    if s == b"out".as_slice() {
        return Some(RowDirection::Only(Direction::Out));
    }
    if s == b"in".as_slice() {
        return Some(RowDirection::Only(Direction::In));
    }
    if s == b"both".as_slice() {
        return Some(RowDirection::Both);
    }
    None
}

#[tactic(auto, using(policy_text::proofs::BytesLaws::same_pointwise), unfolding(policy_text::specs::Edition1::action_field))]
fn action_field(s: &[u8]) -> Option<Action>
    ensures value { result ≡ perhaps (action_field s.now) }
    ensures within { IfSome result (λ action. action_word action < 2 ^ 64) }
{
    if s == b"bypass".as_slice() {
        return Some(Action::Bypass);
    }
    if s == b"discard".as_slice() {
        return Some(Action::Discard);
    }
    if before(s, b'-') == b"protect".as_slice() {
        let number = decimal(after(s, b'-'), 255)?;
        if number != 0 {
            return Some(Action::Protect(number));
        }
    }
    None
}

fn action_word(action: Action) -> u64
    requires { action_word action < 2 ^ 64 }
    ensures { result ≡ action_word action }
{
    match action {
        Action::Discard => 0,
        Action::Bypass => 1,
        Action::Protect(number) => number + 2,
    }
}

// A row's text without its LF.
#[tactic(auto, unfolding(crate::specs::Answers::entry_of, policy_text::specs::Format::field, policy_text::specs::Format::fields_from, policy_text::specs::Edition1::protocol_field, policy_text::specs::Edition1::port_field))]
pub fn row(s: &[u8]) -> Option<Row>
    ensures { result ≡ entry_of s.now }
{
    let s1 = after(s, b'\t');
    let s2 = after(s1, b'\t');
    let s3 = after(s2, b'\t');
    let s4 = after(s3, b'\t');
    let s5 = after(s4, b'\t');
    let s6 = after(s5, b'\t');
    let direction = direction_field(before(s, b'\t'))?;
    let action = action_field(before(s1, b'\t'))?;
    let local = address_field(before(s2, b'\t'))?;
    let remote = address_field(before(s3, b'\t'))?;
    let protocol = ProtocolRange::read(before(s4, b'\t'))?;
    let local_port = PortRange::read(before(s5, b'\t'))?;
    let remote_port = PortRange::read(s6)?;
    Some(Row {
        direction: u64::from(direction),
        action: action_word(action),
        local,
        remote,
        protocol,
        local_port,
        remote_port,
    })
}
