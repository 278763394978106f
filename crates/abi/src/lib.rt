// Directions, pairs, actions and packets as the numbers and words by which they cross to C.
#![tactic(auto)]

ghost use Rattle.std.specs.Prelude.{◌≡◌, length};
ghost use Rattle.packet.specs.Read.{trigger_of};
ghost use Rattle.abi.specs.Words.{direction_of_number, pair_from, kind_of_action, number_of_action, is_found, place_found, trigger_part};

use packet::Packet;
use policy::Action;
use sad::NewPair;
use selectors::Direction;
use selectors::words::{RANGES_WORDS, ranges_at};

// Stays: a number, since C gives one, and any.
pub fn direction_from(number: u64) -> Direction
    ensures { result ≡ direction_of_number number }
{
    match number {
        1 => Direction::Out,
        _ => Direction::In,
    }
}

pub fn pair_from(
    protocol: u64,
    spi_in: u32,
    spi_out: u32,
    number: u64,
    ranges: &[u64; RANGES_WORDS],
) -> NewPair
    ensures { result ≡ pair_from protocol spi_in spi_out number ranges.now }
{
    NewPair {
        protocol,
        spi_in,
        spi_out,
        number,
        ranges: ranges_at(ranges, 0),
    }
}

// Stays: two numbers for an action, since that is how C gets it.
pub fn action_kind(action: Action) -> u64
    ensures { result ≡ kind_of_action action }
{
    match action {
        Action::Discard => 0,
        Action::Bypass => 1,
        Action::Protect(_) => 2,
    }
}

pub fn action_number(action: Action) -> u64
    ensures { result ≡ number_of_action action }
{
    match action {
        Action::Discard | Action::Bypass => 0,
        Action::Protect(number) => number,
    }
}

// Stays: a flag and a number, since that is how C gets a place.
pub fn is_found(found: Option<usize>) -> bool
    ensures { result ≡ is_found found }
{
    found.is_some()
}

pub fn place_found(found: Option<usize>) -> u64
    ensures { result ≡ place_found found }
{
    found.unwrap_or(0) as u64
}

// Where the triggering header starts and how long it is.
pub fn trigger_part(bytes: &[u8], packet: Packet) -> [u64; 2]
    ensures { result ≡ trigger_part packet.end (length (trigger_of bytes.now packet.upper packet.end)) }
{
    let header = packet::trigger(bytes, packet);
    let long = header.len();
    [(packet.end - long) as u64, long as u64]
}
