// What the gateway sees in an IPv4 packet: five selectors, and what the packet calls need besides (document 01; docs/RULES.md, 'What is read in a packet').
#![tactic(auto)]

ghost use Rattle.std.specs.Prelude.{◌≡◌, ◌+◌, ◌^◌, ◌≤◌, ◌<◌, length};
ghost use Rattle.selectors.specs.Value.{number};
ghost use Rattle.packet.specs.Header.{two, four, total_length_at, flags_at, header_end, total_length, fragment_offset};
ghost use Rattle.packet.specs.Read.{header_good, carries_ports, shown, local, local_port_of, remote_port_of, value, packet_of, read_packet, read_trigger, trigger_of, error_type, icmp_error};
ghost use Rattle.packet.specs.StepsLaws.{Inside};

use selectors::{ABSENT, Direction, Selectors, Value};

#[derive(Clone, Copy, Debug, PartialEq, Eq)]
pub struct Packet {
    pub selectors: Selectors,
    // The fragment offset, in units of eight bytes.
    pub offset: u64,
    pub more_fragments: bool,
    // Where the upper part begins and ends.
    pub upper: usize,
    pub end: usize,
}

// The numbers of `Header.antt`, by the same names: where fields of the header stand, its sizes, its version.
const TOTAL_LENGTH_AT: usize = 2;

const FLAGS_AT: usize = 6;

const PROTOCOL_AT: usize = 9;

const SOURCE_AT: usize = 12;

const DESTINATION_AT: usize = 16;

const SHORTEST_HEADER: usize = 20;

const LENGTH_UNIT: usize = 4;

const IP_VERSION: u8 = 4;

// The numbers of `Read.antt`, of the upper part.
const PORTS_BYTES: usize = 4;

const DESTINATION_PORT_AT: usize = 2;

const TYPE_AND_CODE_BYTES: usize = 2;

const TRIGGER_AT: usize = 8;

const ICMP: u8 = 1;

// Two bytes and four bytes as a number, the first byte the highest, where all are there.
#[tactic(auto, unfolding(crate::specs::Header::two))]
fn two_there(bytes: &[u8], i: usize) -> u64
    requires { i + 2 ≤ length bytes.now }
    ensures { (result ≡ two bytes.now i) × (result < 2 ^ 16) }
{
    u64::from(u16::from_be_bytes([bytes[i], bytes[i + 1]]))
}

#[tactic(auto, unfolding(crate::specs::Header::four, crate::specs::Header::two))]
fn four_there(bytes: &[u8], i: usize) -> u64
    requires { i + 4 ≤ length bytes.now }
    ensures { (result ≡ four bytes.now i) × (result < 2 ^ 32) }
{
    u64::from(u32::from_be_bytes([bytes[i], bytes[i + 1], bytes[i + 2], bytes[i + 3]]))
}

// The same numbers from any place on: a byte that is not there counts as 0.
#[tactic(auto, using(crate::specs::StepsLaws::two_past, crate::specs::StepsLaws::two_last))]
pub fn two_at(bytes: &[u8], i: usize) -> u64
    ensures { (result ≡ two bytes.now i) × (result < 2 ^ 16) }
{
    let left = bytes.len().saturating_sub(i);
    match left {
        0 => 0,
        1 => u64::from(bytes[i]) * 256,
        _ => two_there(bytes, i),
    }
}

#[tactic(auto, using(crate::specs::StepsLaws::two_past), unfolding(crate::specs::Header::four))]
pub fn four_at(bytes: &[u8], i: usize) -> u64
    ensures { (result ≡ four bytes.now i) × (result < 2 ^ 32) }
{
    match bytes.len().saturating_sub(i) {
        0..=2 => two_at(bytes, i) * 65536,
        3 => two_at(bytes, i) * 65536 + two_at(bytes, i + 2),
        _ => four_there(bytes, i),
    }
}

fn header_end(bytes: &[u8]) -> usize
    requires { 1 ≤ length bytes.now }
    ensures { result ≡ header_end bytes.now }
{
    LENGTH_UNIT * usize::from(bytes[0] % 16)
}

fn total_length(bytes: &[u8]) -> usize
    requires { total_length_at + 2 ≤ length bytes.now }
    ensures { result ≡ total_length bytes.now }
{
    two_there(bytes, TOTAL_LENGTH_AT) as usize
}

fn fragment_offset(bytes: &[u8]) -> u64
    requires { flags_at + 2 ≤ length bytes.now }
    ensures { result ≡ fragment_offset bytes.now }
{
    u64::from(bytes[FLAGS_AT] % 32) * 256 + u64::from(bytes[FLAGS_AT + 1])
}

// Whether this is a header that can be read, wherever the packet ends.
#[tactic(auto, using(std::proofs::lemmas::Bool::Decides::nat_tests), unfolding(crate::specs::Read::header_good))]
fn header_good(bytes: &[u8]) -> bool
    ensures { result ≡ header_good bytes.now }
{
    SHORTEST_HEADER <= bytes.len()
        && bytes[0] / 16 == IP_VERSION
        && SHORTEST_HEADER <= header_end(bytes)
        && header_end(bytes) <= total_length(bytes)
}

// The protocols that have ports.
#[tactic(auto, using(std::proofs::lemmas::Bool::Decides::nat_tests), unfolding(crate::specs::Read::carries_ports))]
fn has_ports(protocol: u8) -> bool
    ensures { result ≡ carries_ports protocol }
{
    matches!(protocol, 6 | 17 | 132)
}

// The types of the ICMP error messages.
#[tactic(auto, using(std::proofs::lemmas::Bool::Decides::nat_tests), unfolding(crate::specs::Read::error_type))]
fn error_type(icmp_type: u64) -> bool
    ensures { result ≡ error_type icmp_type }
{
    matches!(icmp_type, 3 | 4 | 5 | 11 | 12)
}

// Going out, local is the source; coming in, it is the destination.
fn local(direction: Direction, source: u64, destination: u64) -> Value
    ensures { result ≡ value (local direction source destination) }
{
    let lower = match direction {
        Direction::Out => source,
        Direction::In => destination,
    };
    Value { upper: 0, lower }
}

#[derive(Clone, Copy)]
struct Ports {
    local: Value,
    remote: Value,
}

// The ports that an upper part up to `end` shows.
#[tactic(auto, using(std::proofs::lemmas::Bool::Decides::nat_tests, crate::specs::StepsLaws::ports_not_icmp, crate::specs::StepsLaws::remote_local), unfolding(crate::specs::Read::shown))]
fn ports_at(bytes: &[u8], direction: Direction, end: usize) -> Ports
    requires { Inside bytes.now end }
    ensures local_value { result.local ≡ value (local_port_of direction (shown bytes.now end)) }
    ensures remote_value { result.remote ≡ value (remote_port_of direction (shown bytes.now end)) }
{
    let absent = Ports {
        local: ABSENT,
        remote: ABSENT,
    };
    if fragment_offset(bytes) != 0 {
        return absent;
    }
    let upper = header_end(bytes);
    let protocol = bytes[PROTOCOL_AT];
    if has_ports(protocol) && upper + PORTS_BYTES <= end {
        let source = two_there(bytes, upper);
        let destination = two_there(bytes, upper + DESTINATION_PORT_AT);
        return Ports {
            local: local(direction, source, destination),
            remote: local(direction, destination, source),
        };
    }
    if protocol == ICMP && upper + TYPE_AND_CODE_BYTES <= end {
        return Ports {
            local: Value {
                upper: 0,
                lower: two_there(bytes, upper),
            },
            remote: ABSENT,
        };
    }
    absent
}

// All that is read, with the upper part up to `end`.
#[inline(never)]
fn packet_at(bytes: &[u8], direction: Direction, end: usize) -> Packet
    requires { Inside bytes.now end }
    ensures { result ≡ packet_of direction bytes.now end }
{
    let ports = ports_at(bytes, direction, end);
    let source = four_there(bytes, SOURCE_AT);
    let destination = four_there(bytes, DESTINATION_AT);
    Packet {
        selectors: Selectors {
            local: local(direction, source, destination),
            remote: local(direction, destination, source),
            protocol: Value {
                upper: 0,
                lower: u64::from(bytes[PROTOCOL_AT]),
            },
            local_port: ports.local,
            remote_port: ports.remote,
        },
        offset: fragment_offset(bytes),
        more_fragments: bytes[FLAGS_AT] / 32 % 2 == 1,
        upper: header_end(bytes),
        end,
    }
}

// Reads a packet that goes out or comes in.
#[tactic(auto, using(std::proofs::lemmas::Bool::Decides::nat_tests, crate::specs::StepsLaws::good_header, crate::specs::StepsLaws::good_upper), unfolding(crate::specs::Read::read_packet, crate::specs::Read::readable))]
pub fn read(bytes: &[u8], direction: Direction) -> Option<Packet>
    ensures { result ≡ read_packet direction bytes.now }
{
    if !header_good(bytes) {
        return None;
    }
    let total = total_length(bytes);
    if bytes.len() < total {
        return None;
    }
    Some(packet_at(bytes, direction, total))
}

// Reads a triggering header, whose packet may be cut.
// Stays: `read` has another test and another end; one function that is handed both is no plainer.
#[tactic(auto, using(std::proofs::lemmas::Bool::Decides::nat_tests, crate::specs::StepsLaws::good_header, crate::specs::StepsLaws::good_upper), unfolding(crate::specs::Read::read_trigger, crate::specs::Read::trigger_readable))]
pub fn read_trigger(bytes: &[u8], direction: Direction) -> Option<Packet>
    ensures { result ≡ read_trigger direction bytes.now }
{
    if !header_good(bytes) {
        return None;
    }
    if bytes.len() < header_end(bytes) {
        return None;
    }
    let total = total_length(bytes);
    let end = total.min(bytes.len());
    Some(packet_at(bytes, direction, end))
}

// The part of an ICMP error message that has the triggering header.
#[tactic(auto, unfolding(crate::specs::Read::trigger_of))]
pub fn trigger(bytes: &[u8], packet: Packet) -> &[u8]
    ensures { result.now ≡ trigger_of bytes.now packet.upper packet.end }
{
    let stop = packet.end.min(bytes.len());
    let from = packet.upper.saturating_add(TRIGGER_AT).min(stop);
    &bytes[from..stop]
}

// Whether these are the selectors of an ICMP error message. (An absent port shows no type: 65,536 / 256 is none.)
#[tactic(auto, using(std::proofs::lemmas::Bool::Decides::nat_tests, crate::specs::StepsLaws::icmp_other, crate::specs::StepsLaws::icmp_by_type, crate::specs::StepsLaws::error_above), unfolding(selectors::specs::Value::number))]
pub fn is_icmp_error(selectors: Selectors) -> bool
    ensures { result ≡ icmp_error (number selectors.protocol) (number selectors.local_port) }
{
    let icmp = Value {
        upper: 0,
        lower: u64::from(ICMP),
    };
    let port = selectors.local_port;
    selectors.protocol == icmp && port.upper == 0 && error_type(port.lower / 256)
}
