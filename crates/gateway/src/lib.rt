// The gateway's packet calls (document 01, 'Three doors'; docs/RULES.md, 'The three packet calls').
#![tactic(auto)]

ghost use Rattle.std.specs.Prelude.{◌≡◌};
ghost use Rattle.packet.specs.Read.{read_trigger};
ghost use Rattle.sad.specs.Pairs.{pairs, fits_at};
ghost use Rattle.policy.specs.Words.{row_limit};
ghost use Rattle.spd.specs.Words.{rows_of, address_of};
ghost use Rattle.verdicts.specs.Calls.{trigger_read, from_sa_by};
ghost use Rattle.gateway.specs.Cached.{outbound_cached, inbound_cached};

use sad::TABLE_WORDS;
use selectors::Direction;
use spd::SPD_WORDS;
use spd_cache::RowCache;
use verdicts::Verdict;

// A packet going out: `policy` has the normal-form rows that the gateway holds, `table` its pairs, `cache` is that of the direction. Stays beside
// `inbound`: what is asked before the search, and what becomes of the action, differ.
#[tactic(auto, unfolding(crate::specs::Cached::outbound_cached, verdicts::specs::Calls::outbound_by))]
pub fn outbound<C: RowCache>(
    policy: &[u64; SPD_WORDS],
    table: &[u64; TABLE_WORDS],
    cache: &mut C,
    bytes: &[u8],
) -> Verdict
    ensures value { result ≡ (outbound_cached (C.held cache.old) (rows_of row_limit policy.now Direction.Out) (pairs table.now) bytes.now).verdict }
    ensures cache_after { C.held cache.new ≡ (outbound_cached (C.held cache.old) (rows_of row_limit policy.now Direction.Out) (pairs table.now) bytes.now).cache }
{
    let Some(packet) = packet::read(bytes, Direction::Out) else {
        return Verdict::NotReadable;
    };
    let selectors = packet.selectors;
    let rows = spd::rows_of(policy, Direction::Out);
    let action = cache.lookup(rows, Direction::Out, selectors);
    verdicts::outbound_action(table, selectors, action)
}

// A packet coming in from outside.
#[tactic(auto, using(own_ipsec::specs::OwnLaws::own_answered, own_ipsec::specs::OwnLaws::not_own), unfolding(crate::specs::Cached::inbound_cached, verdicts::specs::Calls::inbound_by))]
pub fn inbound<C: RowCache>(
    policy: &[u64; SPD_WORDS],
    table: &[u64; TABLE_WORDS],
    cache: &mut C,
    bytes: &[u8],
) -> Verdict
    ensures value { result ≡ (inbound_cached (C.held cache.old) (rows_of row_limit policy.now Direction.In) (address_of policy.now) (pairs table.now) bytes.now).verdict }
    ensures cache_after { C.held cache.new ≡ (inbound_cached (C.held cache.old) (rows_of row_limit policy.now Direction.In) (address_of policy.now) (pairs table.now) bytes.now).cache }
{
    let Some(packet) = packet::read(bytes, Direction::In) else {
        return Verdict::NotReadable;
    };
    if let Some(verdict) = own_ipsec::answer(spd::address_of(policy), table, bytes, packet) {
        return verdict;
    }
    let rows = spd::rows_of(policy, Direction::In);
    let action = cache.lookup(rows, Direction::In, packet.selectors);
    verdicts::inbound_action(action)
}

// The triggering header of an ICMP error message that came from the association at a place. It is read as going out.
fn from_trigger(table: &[u64; TABLE_WORDS], place: usize, header: &[u8]) -> Verdict
    ensures { result ≡ trigger_read (fits_at table.now place) (read_trigger Direction.Out header.now) }
{
    let Some(packet) = packet::read_trigger(header, Direction::Out) else {
        return Verdict::TriggerUnreadable;
    };
    if sad::fits_at(table, place, packet.selectors) {
        return Verdict::Deliver;
    }
    Verdict::TriggerDoesNotFit
}

// A packet coming in from an association: the pair of that protocol and inbound SPI took AH or ESP off. Its place is looked for once.
#[tactic(auto, using(sad::specs::PairsLaws::live_at, sad::specs::PairsLaws::live_nowhere, sad::specs::PairsLaws::fitting_at, crate::specs::TriggerLaws::trigger_at), unfolding(verdicts::specs::Calls::from_sa_by))]
pub fn from_sa(table: &[u64; TABLE_WORDS], protocol: u64, spi: u32, bytes: &[u8]) -> Verdict
    ensures { result ≡ from_sa_by protocol spi (pairs table.now) bytes.now }
{
    let Some(place) = sad::place_of(table, protocol, spi) else {
        return Verdict::NoSuchPair;
    };
    let Some(packet) = packet::read(bytes, Direction::In) else {
        return Verdict::NotReadable;
    };
    let selectors = packet.selectors;
    if sad::fits_at(table, place, selectors) {
        return Verdict::Deliver;
    }
    if !packet::is_icmp_error(selectors) {
        return Verdict::DoesNotFit;
    }
    from_trigger(table, place, packet::trigger(bytes, packet))
}
