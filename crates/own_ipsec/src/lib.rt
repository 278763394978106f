// AH and ESP for the gateway itself (document 01, 'Coming in from outside').
#![tactic(auto)]

ghost use Rattle.std.specs.Prelude.{◌≡◌};
ghost use Rattle.selectors.specs.Value.{number};
ghost use Rattle.sad.specs.Pairs.{pairs};
ghost use Rattle.verdicts.specs.Calls.{fragment, to_ipsec};
ghost use Rattle.own_ipsec.specs.Own.{number_of, least_of, spi_place, own_protocol, own_answer};

use packet::Packet;
use sad::{AH, ESP, TABLE_WORDS};
use selectors::Value;
use verdicts::Verdict;

// The numbers of `Calls.antt`: least upper parts, where AH's SPI stands.
const ESP_BYTES: usize = 8;

const AH_BYTES: usize = 12;

const AH_SPI_AT: usize = 4;

#[derive(Clone, Copy, Debug, PartialEq, Eq)]
enum Protocol {
    Esp,
    Ah,
}

impl Protocol {
    fn number(self) -> u64
        ensures { result ≡ number_of self }
    {
        match self {
            Protocol::Esp => ESP,
            Protocol::Ah => AH,
        }
    }

    // The fewest bytes that an upper part may have.
    fn least_upper(self) -> usize
        ensures { result ≡ least_of self }
    {
        match self {
            Protocol::Esp => ESP_BYTES,
            Protocol::Ah => AH_BYTES,
        }
    }

    // The SPI is upper bytes 0 to 3 for ESP, 4 to 7 for AH.
    fn spi_at(self) -> usize
        ensures { result ≡ spi_place self }
    {
        match self {
            Protocol::Esp => 0,
            Protocol::Ah => AH_SPI_AT,
        }
    }
}

// Which of the two a packet for the gateway has, whose own address is given; no other packet is its own.
#[tactic(auto, using(std::proofs::lemmas::Bool::Decides::nat_tests), unfolding(selectors::specs::Value::number, verdicts::specs::Calls::for_gateway))]
fn own_protocol(address: u64, packet: Packet) -> Option<Protocol>
    ensures { result ≡ own_protocol address packet }
{
    let own = Value {
        upper: 0,
        lower: address,
    };
    let selectors = packet.selectors;
    if selectors.local != own || selectors.protocol.upper != 0 {
        return None;
    }
    match selectors.protocol.lower {
        ESP => Some(Protocol::Esp),
        AH => Some(Protocol::Ah),
        _ => None,
    }
}

fn is_fragment(packet: Packet) -> bool
    ensures { result ≡ fragment packet }
{
    packet.offset != 0 || packet.more_fragments
}

// What becomes of AH or ESP for the gateway.
#[tactic(auto, using(std::proofs::lemmas::Bool::Decides::nat_tests), unfolding(verdicts::specs::Calls::to_ipsec))]
fn to_ipsec(table: &[u64; TABLE_WORDS], bytes: &[u8], packet: Packet, protocol: Protocol) -> Verdict
    requires { number packet.selectors.protocol ≡ number_of protocol }
    ensures { result ≡ to_ipsec (pairs table.now) bytes.now packet }
{
    if is_fragment(packet) {
        return Verdict::IpsecFragment;
    }
    if packet.end.saturating_sub(packet.upper) < protocol.least_upper() {
        return Verdict::IpsecTooShort;
    }
    let spi = packet::four_at(bytes, packet.upper + protocol.spi_at()) as u32;
    if !sad::is_live(table, protocol.number(), spi) {
        return Verdict::NoSuchPair;
    }
    Verdict::ToIpsec(protocol.number(), u64::from(spi))
}

// The answer to AH or ESP for the gateway, whose own address is given.
#[tactic(auto, using(crate::specs::OwnLaws::own_number))]
pub fn answer(
    address: u64,
    table: &[u64; TABLE_WORDS],
    bytes: &[u8],
    packet: Packet,
) -> Option<Verdict>
    ensures { result ≡ own_answer address (pairs table.now) bytes.now packet }
{
    let protocol = own_protocol(address, packet)?;
    Some(to_ipsec(table, bytes, packet, protocol))
}
