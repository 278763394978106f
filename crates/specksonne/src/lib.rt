// The library that C and Rust programs link: what it says of itself, and functions that hand numbers and lent words on to one proved call each.
#![tactic(auto)]

ghost use Rattle.std.specs.Prelude.{◌≡◌, [], map, length, replicate};
ghost use Rattle.selectors.specs.Value.{combination};
ghost use Rattle.selectors.specs.Words.{selectors_in};
ghost use Rattle.packet.specs.Read.{read_packet};
ghost use Rattle.policy.specs.Policy.{ordered_search, match_from};
ghost use Rattle.policy.specs.Words.{policy_rows, row_words, row_limit, row_of};
ghost use Rattle.policy_text.specs.Editions.{parse_policy};
ghost use Rattle.policy_parse.specs.Parsing.{parsed_in, parsed_room, parsed_number};
ghost use Rattle.policy_print.specs.Printing.{printed, printed_in, printed_room, printed_number};
ghost use Rattle.normal_form_file.specs.Normalise.{normalised, normalised_bytes, normalised_number, normalised_carries};
ghost use Rattle.same_policy.specs.Same.{compared, compared_number};
ghost use Rattle.acceptance.specs.Spd.{spd_words, no_rules, accepting, spd_after, caches_after, acceptance_number, acceptance_carries};
ghost use Rattle.spd.specs.Words.{address_of, rows_of, spd_size};
ghost use Rattle.sad.specs.Pairs.{table_words, pairs, live, add_outcome, added, remove_outcome, removed, outcome_number};
ghost use Rattle.spd_cache.specs.Cache.{empty_cache};
ghost use Rattle.verdicts.specs.Calls.{from_sa_by};
ghost use Rattle.gateway.specs.Cached.{outbound_cached, inbound_cached};
ghost use Rattle.verdicts.specs.Verdict.{verdict_number, carried};
ghost use Rattle.spd_cache.specs.Lent.{cache_size, cache_from, cache_words};
ghost use Rattle.answer_numbers.specs.Carries.{parsed_carries, printed_carries, compared_words};
ghost use Rattle.abi.specs.Words.{direction_of_number, pair_from, kind_of_action, number_of_action, is_found, place_found, is_readable, reading_words, trigger_words};
ghost use Rattle.specksonne.specs.Lent.{caches_from};
ghost use Rattle.specksonne.specs.Sizes.{abi_number, version_number, most_form_bytes};

use acceptance::Caches;
use policy::{LIMIT, ROW_WORDS, Row};
use policy_text::Edition;
use sad::TABLE_WORDS;
use selectors::Direction;
use selectors::words::{RANGES_WORDS, SELECTOR_WORDS};
use spd::SPD_WORDS;
use spd_cache::lent;
use spd_cache::lent::CACHE_WORDS;

// Bytes that are enough for a printed row, and for a normal-form file: its header line and the limit's rows.
const ROW_BYTES: usize = 120;

const MOST_FORM_BYTES: usize = 9 + LIMIT * ROW_BYTES;

const MAJOR: u64 = 0;

const MINOR: u64 = 1;

const PATCH: u64 = 0;

// The number of the binary interface. It is a part of this function's name, to which the C header and the Rust wrapper refer: what was
// compiled for another number does not link. It is raised, in this name, in `abi_number`, in the header and in `ffi.rs`, whenever a program that
// was compiled before could no longer be right: a size of lent words, what a word means, a parameter, a result, or an answer's carried
// values change. A function that is new raises the version alone.
#[unsafe(no_mangle)]
pub extern "C" fn specksonne_abi_1() -> u64
    ensures { result ≡ abi_number }
{
    1
}

// The version, as one number.
#[unsafe(no_mangle)]
pub extern "C" fn specksonne_version() -> u64
    ensures { result ≡ version_number 0 1 0 }
{
    MAJOR * 1000000 + MINOR * 1000 + PATCH
}

// The words of a gateway's policy.
#[unsafe(no_mangle)]
pub extern "C" fn specksonne_policy_words() -> usize
    ensures { result ≡ spd_size row_limit }
{
    SPD_WORDS
}

// The words of the table of pairs.
#[unsafe(no_mangle)]
pub extern "C" fn specksonne_table_words() -> usize
    ensures { result ≡ table_words }
{
    TABLE_WORDS
}

// The words of a cache.
#[unsafe(no_mangle)]
pub extern "C" fn specksonne_cache_words() -> usize
    ensures { result ≡ cache_size }
{
    CACHE_WORDS
}

// The words of a row.
#[unsafe(no_mangle)]
pub extern "C" fn specksonne_row_words() -> usize
    ensures { result ≡ row_words }
{
    ROW_WORDS
}

// The most rows of a policy, and of a normal form for one direction.
#[unsafe(no_mangle)]
pub extern "C" fn specksonne_most_rows() -> usize
    ensures { result ≡ row_limit }
{
    LIMIT
}

// Bytes that are enough for every normal-form file.
#[unsafe(no_mangle)]
pub extern "C" fn specksonne_most_form_bytes() -> usize
    ensures { result ≡ most_form_bytes }
{
    MOST_FORM_BYTES
}

// A fresh gateway (`acceptance::fresh`): its address, 'the policy without rows, no pair and empty caches'.
#[unsafe(no_mangle)]
pub extern "C" fn specksonne_fresh(
    policy: &mut [u64; SPD_WORDS],
    table: &mut [u64; TABLE_WORDS],
    outbound: &mut [u64; CACHE_WORDS],
    inbound: &mut [u64; CACHE_WORDS],
    address: u32,
)
    ensures policy_after { policy.new ≡ spd_words row_limit address no_rules }
    ensures table_after { (table.new ≡ replicate table_words 0) × (pairs table.new ≡ []) }
    ensures outbound_after { (outbound.new ≡ cache_words empty_cache) × (inbound.new ≡ cache_words empty_cache) }
{
    let empty = acceptance::fresh(policy, address);
    *table = [0; TABLE_WORDS];
    lent::save(outbound, empty.outbound);
    lent::save(inbound, empty.inbound);
}

// Hands a policy file to the gateway (`acceptance::accept`).
#[unsafe(no_mangle)]
pub extern "C" fn specksonne_policy(
    policy: &mut [u64; SPD_WORDS],
    outbound: &mut [u64; CACHE_WORDS],
    inbound: &mut [u64; CACHE_WORDS],
    bytes: &[u8],
    carries: &mut u64,
) -> u64
    ensures value { result ≡ acceptance_number (accepting row_limit (parse_policy row_limit bytes.now)) }
    ensures policy_after { policy.new ≡ spd_after row_limit row_limit policy.old (parse_policy row_limit bytes.now) }
    ensures outbound_after { outbound.new ≡ cache_words (caches_after row_limit (caches_from outbound.old inbound.old) (parse_policy row_limit bytes.now)).outbound }
    ensures inbound_after { inbound.new ≡ cache_words (caches_after row_limit (caches_from outbound.old inbound.old) (parse_policy row_limit bytes.now)).inbound }
    ensures carries_after { carries.new ≡ acceptance_carries (accepting row_limit (parse_policy row_limit bytes.now)) }
{
    let mut caches = Caches {
        outbound: lent::load(outbound),
        inbound: lent::load(inbound),
    };
    let accepted = acceptance::accept(policy, &mut caches, bytes);
    lent::save(outbound, caches.outbound);
    lent::save(inbound, caches.inbound);
    *carries = answer_numbers::acceptance_carries(accepted);
    answer_numbers::acceptance_number(accepted)
}

// Whether a packet is readable, and its five selectors (`packet::read`).
#[unsafe(no_mangle)]
pub extern "C" fn specksonne_read(
    direction: u64,
    bytes: &[u8],
    selectors: &mut [u64; SELECTOR_WORDS],
) -> bool
    ensures value { result ≡ is_readable (read_packet (direction_of_number direction) bytes.now) }
    ensures selectors_after { selectors.new ≡ reading_words (read_packet (direction_of_number direction) bytes.now) }
{
    let reading = packet::read(bytes, abi::direction_from(direction));
    match reading {
        Some(packet) => {
            *selectors = selectors::words::selector_words(packet.selectors);
            true
        }
        None => {
            *selectors = [0; SELECTOR_WORDS];
            false
        }
    }
}

// Whether a packet is readable, and where its triggering header starts and how long it is (`packet::trigger`).
#[unsafe(no_mangle)]
pub extern "C" fn specksonne_trigger(bytes: &[u8], part: &mut [u64; 2]) -> bool
    ensures value { result ≡ is_readable (read_packet Direction.Out bytes.now) }
    ensures part_after { part.new ≡ trigger_words bytes.now (read_packet Direction.Out bytes.now) }
{
    let reading = packet::read(bytes, Direction::Out);
    match reading {
        Some(packet) => {
            *part = abi::trigger_part(bytes, packet);
            true
        }
        None => {
            *part = [0; 2];
            false
        }
    }
}

// The action of the ordered search of rows, and the number N of protect-N (`policy::search`).
#[unsafe(no_mangle)]
pub extern "C" fn specksonne_search(
    rows: &[u64],
    direction: u64,
    selectors: &[u64; SELECTOR_WORDS],
    number: &mut u64,
) -> u64
    ensures value { result ≡ kind_of_action (ordered_search (direction_of_number direction) (policy_rows rows.now) (combination (selectors_in selectors.now))) }
    ensures number_after { number.new ≡ number_of_action (ordered_search (direction_of_number direction) (policy_rows rows.now) (combination (selectors_in selectors.now))) }
{
    let values = selectors::words::selectors_of(selectors);
    let action = policy::search(rows, abi::direction_from(direction), values);
    *number = abi::action_number(action);
    abi::action_kind(action)
}

// The same over a lent list of row records (`row_records::search`).
// Stays beside `specksonne_search`: C calls both by name, each over its own layout of rows.
#[unsafe(no_mangle)]
pub extern "C" fn specksonne_search_records(
    rows: &[Row],
    direction: u64,
    selectors: &[u64; SELECTOR_WORDS],
    number: &mut u64,
) -> u64
    ensures value { result ≡ kind_of_action (ordered_search (direction_of_number direction) (map row_of rows.now) (combination (selectors_in selectors.now))) }
    ensures number_after { number.new ≡ number_of_action (ordered_search (direction_of_number direction) (map row_of rows.now) (combination (selectors_in selectors.now))) }
{
    let action = row_records::search(
        rows,
        abi::direction_from(direction),
        selectors::words::selectors_of(selectors),
    );
    *number = abi::action_number(action);
    abi::action_kind(action)
}

// Whether a row matches, and the place of the first that does, from 0 on (`policy::first_match`).
#[unsafe(no_mangle)]
pub extern "C" fn specksonne_first_match(
    rows: &[u64],
    direction: u64,
    selectors: &[u64; SELECTOR_WORDS],
    place: &mut u64,
) -> bool
    ensures value { result ≡ is_found (match_from 0 (direction_of_number direction) (policy_rows rows.now) (combination (selectors_in selectors.now))) }
    ensures place_after { place.new ≡ place_found (match_from 0 (direction_of_number direction) (policy_rows rows.now) (combination (selectors_in selectors.now))) }
{
    let values = selectors::words::selectors_of(selectors);
    let found = policy::first_match(rows, abi::direction_from(direction), values);
    *place = abi::place_found(found);
    abi::is_found(found)
}

// Parses a policy file into words of rows (`policy_parse::parse`).
#[unsafe(no_mangle)]
pub extern "C" fn specksonne_parse(bytes: &[u8], rows: &mut [u64], carries: &mut u64) -> u64
    ensures value { result ≡ parsed_number (parsed_in (length rows.old) (parse_policy row_limit bytes.now)) }
    ensures rows_after { rows.new ≡ parsed_room rows.old (parse_policy row_limit bytes.now) }
    ensures carries_after { carries.new ≡ parsed_carries (parsed_in (length rows.old) (parse_policy row_limit bytes.now)) }
{
    let parsed = policy_parse::parse(bytes, LIMIT, rows);
    *carries = answer_numbers::parsed_carries(parsed);
    answer_numbers::parsed_number(parsed)
}

// Prints rows as a policy file of edition 1 for one direction (`policy_print::print`).
#[unsafe(no_mangle)]
pub extern "C" fn specksonne_print(
    rows: &[u64],
    direction: u64,
    out: &mut [u8],
    carries: &mut u64,
) -> u64
    ensures value { result ≡ printed_number (printed_in (length out.old) (printed Edition.One (direction_of_number direction) (policy_rows rows.now))) }
    ensures out_after { out.new ≡ printed_room out.old (printed Edition.One (direction_of_number direction) (policy_rows rows.now)) }
    ensures carries_after { carries.new ≡ printed_carries (printed_in (length out.old) (printed Edition.One (direction_of_number direction) (policy_rows rows.now))) }
{
    let printed = policy_print::print(Edition::One, rows, abi::direction_from(direction), out);
    *carries = answer_numbers::printed_carries(printed);
    answer_numbers::printed_number(printed)
}

// The normal-form file of a policy file for one direction (`normal_form_file::normalise`).
#[unsafe(no_mangle)]
pub extern "C" fn specksonne_normalise(
    bytes: &[u8],
    direction: u64,
    out: &mut [u8],
    carries: &mut u64,
) -> u64
    ensures value { result ≡ normalised_number (normalised row_limit (direction_of_number direction) (length out.old) (parse_policy row_limit bytes.now)) }
    ensures out_after { out.new ≡ normalised_bytes row_limit (direction_of_number direction) out.old (parse_policy row_limit bytes.now) }
    ensures carries_after { carries.new ≡ normalised_carries (normalised row_limit (direction_of_number direction) (length out.old) (parse_policy row_limit bytes.now)) }
{
    let normalised = normal_form_file::normalise(bytes, abi::direction_from(direction), out);
    *carries = answer_numbers::normalised_carries(normalised);
    answer_numbers::normalised_number(normalised)
}

// Whether two policy files are the same policy in a direction (`same_policy::same_policy`).
#[unsafe(no_mangle)]
pub extern "C" fn specksonne_same(
    first: &[u8],
    second: &[u8],
    direction: u64,
    carries: &mut [u64; 2],
) -> u64
    ensures value { result ≡ compared_number (compared (direction_of_number direction) (parse_policy row_limit first.now) (parse_policy row_limit second.now)) }
    ensures carries_after { carries.new ≡ compared_words (compared (direction_of_number direction) (parse_policy row_limit first.now) (parse_policy row_limit second.now)) }
{
    let compared = same_policy::same_policy(first, second, abi::direction_from(direction));
    *carries = answer_numbers::compared_carries(compared);
    answer_numbers::compared_number(compared)
}

// Adds a pair (`sad::add`).
#[unsafe(no_mangle)]
pub extern "C" fn specksonne_add(
    table: &mut [u64; TABLE_WORDS],
    protocol: u64,
    spi_in: u32,
    spi_out: u32,
    number: u64,
    ranges: &[u64; RANGES_WORDS],
) -> u64
    ensures value { result ≡ outcome_number (add_outcome (pairs table.old) (pair_from protocol spi_in spi_out number ranges.now)) }
    ensures table_after { table.new ≡ added table.old (pair_from protocol spi_in spi_out number ranges.now) }
{
    let pair = abi::pair_from(protocol, spi_in, spi_out, number, ranges);
    answer_numbers::outcome_number(sad::add(table, pair))
}

// Removes a pair (`sad::remove`).
#[unsafe(no_mangle)]
pub extern "C" fn specksonne_remove(
    table: &mut [u64; TABLE_WORDS],
    protocol: u64,
    spi_in: u32,
) -> u64
    ensures value { result ≡ outcome_number (remove_outcome (pairs table.old) protocol spi_in) }
    ensures table_after { table.new ≡ removed table.old protocol spi_in }
{
    answer_numbers::outcome_number(sad::remove(table, protocol, spi_in))
}

// Whether a pair is live (`sad::is_live`).
#[unsafe(no_mangle)]
pub extern "C" fn specksonne_is_live(table: &[u64; TABLE_WORDS], protocol: u64, spi_in: u32) -> bool
    ensures { result ≡ live protocol spi_in (pairs table.now) }
{
    sad::is_live(table, protocol, spi_in)
}

// A packet going out (`gateway::outbound`). Stays beside the two below: C calls each by name, and each promises what its own call does.
#[unsafe(no_mangle)]
pub extern "C" fn specksonne_outbound(
    policy: &[u64; SPD_WORDS],
    table: &[u64; TABLE_WORDS],
    cache: &mut [u64; CACHE_WORDS],
    bytes: &[u8],
    carries: &mut [u64; 3],
) -> u64
    ensures value { result ≡ verdict_number (outbound_cached (cache_from cache.old) (rows_of row_limit policy.now Direction.Out) (pairs table.now) bytes.now).verdict }
    ensures carries_after { carries.new ≡ carried (outbound_cached (cache_from cache.old) (rows_of row_limit policy.now Direction.Out) (pairs table.now) bytes.now).verdict }
    ensures cache_after { cache.new ≡ cache_words (outbound_cached (cache_from cache.old) (rows_of row_limit policy.now Direction.Out) (pairs table.now) bytes.now).cache }
{
    let going_out = gateway::outbound(policy, table, cache, bytes);
    *carries = answer_numbers::verdict_carries(going_out);
    answer_numbers::verdict_number(going_out)
}

// A packet coming in from outside (`gateway::inbound`).
#[unsafe(no_mangle)]
pub extern "C" fn specksonne_inbound(
    policy: &[u64; SPD_WORDS],
    table: &[u64; TABLE_WORDS],
    cache: &mut [u64; CACHE_WORDS],
    bytes: &[u8],
    carries: &mut [u64; 3],
) -> u64
    ensures value { result ≡ verdict_number (inbound_cached (cache_from cache.old) (rows_of row_limit policy.now Direction.In) (address_of policy.now) (pairs table.now) bytes.now).verdict }
    ensures carries_after { carries.new ≡ carried (inbound_cached (cache_from cache.old) (rows_of row_limit policy.now Direction.In) (address_of policy.now) (pairs table.now) bytes.now).verdict }
    ensures cache_after { cache.new ≡ cache_words (inbound_cached (cache_from cache.old) (rows_of row_limit policy.now Direction.In) (address_of policy.now) (pairs table.now) bytes.now).cache }
{
    let coming_in = gateway::inbound(policy, table, cache, bytes);
    *carries = answer_numbers::verdict_carries(coming_in);
    answer_numbers::verdict_number(coming_in)
}

// A packet coming in from an association (`gateway::from_sa`).
#[unsafe(no_mangle)]
pub extern "C" fn specksonne_from_sa(
    table: &[u64; TABLE_WORDS],
    protocol: u64,
    spi_in: u32,
    bytes: &[u8],
    carries: &mut [u64; 3],
) -> u64
    ensures value { result ≡ verdict_number (from_sa_by protocol spi_in (pairs table.now) bytes.now) }
    ensures carries_after { carries.new ≡ carried (from_sa_by protocol spi_in (pairs table.now) bytes.now) }
{
    let verdict = gateway::from_sa(table, protocol, spi_in, bytes);
    *carries = answer_numbers::verdict_carries(verdict);
    answer_numbers::verdict_number(verdict)
}
