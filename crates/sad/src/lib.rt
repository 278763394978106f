// The table of SA pairs (RFC 4301's SAD): 64 places in lent words, and the calls that add, remove and find a pair (document 01; docs/RULES.md, 'SA pairs').
#![tactic(auto)]

ghost use Rattle.std.specs.Prelude.{◌≡◌, None, ◌&&◌, ◌||◌, ◌+◌, ◌*◌, ◌≤◌, ◌<◌, eqb, ltb, length};
ghost use Rattle.std.specs.Option.{option_map};
ghost use Rattle.std.proofs.lemmas.List.Edits.{sets};
ghost use Rattle.selectors.specs.Range.{holds};
ghost use Rattle.selectors.specs.Value.{combination};
ghost use Rattle.selectors.specs.Words.{ranges_at, values_of};
ghost use Rattle.sad.specs.Pairs.{place_count, head_words, place_words, ipsec, pair_at, pairs, live, fits_at, head_of, head_beats, best_of, pair_for, place_of, named_at, free_place, reserved_spi, ranges_in_fields, well_formed, ends_in, add_outcome, added, remove_outcome, removed, pair_words};

use selectors::words::{
    FIELDS, RANGES_WORDS, SELECTOR_WORDS, put_ranges, put_word, ranges_hold, selector_words,
};
use selectors::{AddressRange, Ends, FieldRange, PortRange, ProtocolRange, Ranges, Selectors};

// 'At most 64 live pairs.'
pub const PLACES: usize = 64;

// The words of a place before its ranges, after the first, which is the protocol.
const SPI_IN: usize = 1;

const SPI_OUT: usize = 2;

const NUMBER: usize = 3;

const HEAD_WORDS: usize = 4;

// The words of a place, and of the table.
pub const PLACE_WORDS: usize = HEAD_WORDS + RANGES_WORDS;

pub const TABLE_WORDS: usize = PLACES * PLACE_WORDS;

// The protocols of a pair.
pub const ESP: u64 = 50;

pub const AH: u64 = 51;

// The first SPI that is not reserved, and the highest N of protect-N.
const FIRST_SPI: u32 = 256;

const LAST_NUMBER: u64 = 255;

// A pair to add.
#[derive(Clone, Copy)]
pub struct NewPair {
    // Stays: a number, and not an enum of ESP and AH. C may give any, and `add` answers `BadPair` for what is neither.
    pub protocol: u64,
    pub spi_in: u32,
    pub spi_out: u32,
    // The N of protect-N.
    pub number: u64,
    pub ranges: Ranges,
}

// Why a pair is not added or removed; `outcome_number` has document 01's numbers.
#[derive(Clone, Copy, Debug, PartialEq, Eq)]
pub enum PairError {
    ReservedSpi,
    AlreadyLive,
    TableFull,
    BadPair,
    NothingToRemove,
}

// A pair's protocol and outbound SPI.
#[derive(Clone, Copy, Debug, PartialEq, Eq)]
pub struct Sa {
    pub protocol: u64,
    pub spi: u64,
}

// The words of a place before its ranges.
#[derive(Clone, Copy)]
struct Head {
    protocol: u64,
    spi_in: u64,
    spi_out: u64,
    number: u64,
}

fn is_ipsec(protocol: u64) -> bool
    ensures { result ≡ ipsec protocol }
{
    protocol == ESP || protocol == AH
}

impl Head {
    // Whether this beats the best so far: by the smaller inbound SPI, and on a tie as ESP beats AH.
    fn beats(self, best: Option<Head>) -> bool
        ensures { result ≡ head_beats self best }
    {
        match best {
            None => true,
            Some(best) if self.spi_in == best.spi_in => self.protocol < best.protocol,
            Some(best) => self.spi_in < best.spi_in,
        }
    }

    // Whether this is a live pair with that number which beats the best so far. Most places are passed over at their number.
    fn is_better(self, best: Option<Head>, number: u64) -> bool
        ensures { result ≡ ipsec self.protocol && eqb self.number number && head_beats self best }
    {
        self.number == number && is_ipsec(self.protocol) && self.beats(best)
    }
}

// Whether the ranges of a place hold the values.
#[tactic(auto, using(selectors::proofs::HeldLaws::held_five))]
fn holds_at(table: &[u64; TABLE_WORDS], place: usize, values: &[u64; SELECTOR_WORDS]) -> bool
    requires { place < place_count }
    ensures { result ≡ holds (ranges_at table.now (place * place_words + head_words)) (values_of values.now) }
{
    ranges_hold(table, place * PLACE_WORDS + HEAD_WORDS, values, FIELDS)
}

// Whether a place has the live pair of that name. Most places are passed over at their SPI.
// Stays: word by word. A `Head` that is read whole is compared whole, without a branch: `is_live` took 62 ns, and 37 so.
#[tactic(auto, unfolding(crate::specs::Pairs::pair_at))]
fn is_named(table: &[u64; TABLE_WORDS], place: usize, protocol: u64, spi_in: u64) -> bool
    requires { place < place_count }
    ensures { result ≡ named_at table.now protocol spi_in place }
{
    let at = place * PLACE_WORDS;
    table[at + SPI_IN] == spi_in && table[at] == protocol && is_ipsec(protocol)
}

// The place of the live pair of that name.
#[tactic(auto, using(crate::specs::PairsLaws::first_found, crate::specs::PairsLaws::first_passed, crate::specs::PairsLaws::first_ended))]
pub fn place_of(table: &[u64; TABLE_WORDS], protocol: u64, spi_in: u32) -> Option<usize>
    ensures { result ≡ place_of table.now protocol spi_in }
{
    for place in 0..PLACES {
        if is_named(table, place, protocol, spi_in as u64) {
            return Some(place);
        }
    }
    None
}

// Whether that pair is live.
#[tactic(auto, using(crate::specs::PairsLaws::live_at, crate::specs::PairsLaws::live_nowhere))]
pub fn is_live(table: &[u64; TABLE_WORDS], protocol: u64, spi_in: u32) -> bool
    ensures { result ≡ live protocol spi_in (pairs table.now) }
{
    place_of(table, protocol, spi_in).is_some()
}

// The lowest free place.
// Stays: a loop beside that of `place_of`. Over a closure both would say of each of its calls that the place is one of the table's, and what it answers.
#[tactic(auto, using(crate::specs::PairsLaws::first_found, crate::specs::PairsLaws::first_passed, crate::specs::PairsLaws::first_ended))]
fn free_place(table: &[u64; TABLE_WORDS]) -> Option<usize>
    ensures { result ≡ free_place table.now }
{
    for place in 0..PLACES {
        if !is_ipsec(table[place * PLACE_WORDS]) {
            return Some(place);
        }
    }
    None
}

// Whether there is such a place and its ranges hold the values. Who has the place of a pair need not look for it again.
#[tactic(auto, using(selectors::proofs::WordsLaws::selector_values), unfolding(crate::specs::Pairs::fits_at, crate::specs::Pairs::pair_at))]
pub fn fits_at(table: &[u64; TABLE_WORDS], place: usize, selectors: Selectors) -> bool
    ensures { result ≡ fits_at table.now place (combination selectors) }
{
    place < PLACES && holds_at(table, place, &selector_words(selectors))
}

// The best pair.
fn best_pair(
    table: &[u64; TABLE_WORDS],
    number: u64,
    values: &[u64; SELECTOR_WORDS],
) -> Option<Head>
    ensures { result ≡ option_map head_of (best_of number (values_of values.now) None (pairs table.now)) }
{
    let mut best = None;
    for place in 0..PLACES {
        let at = place * PLACE_WORDS;
        if table[at + NUMBER] != number {
            continue;
        }
        let head = Head {
            protocol: table[at],
            spi_in: table[at + SPI_IN],
            spi_out: table[at + SPI_OUT],
            number: table[at + NUMBER],
        };
        if head.is_better(best, number) && holds_at(table, place, values) {
            best = Some(head);
        }
    }
    best
}

// The pair for a packet under protect-N: 'the smallest inbound SPI, ESP before AH on a tie'.
pub fn pair_for(table: &[u64; TABLE_WORDS], number: u64, selectors: Selectors) -> Option<Sa>
    ensures { result ≡ pair_for number (combination selectors) (pairs table.now) }
{
    let values = selector_words(selectors);
    let best = best_pair(table, number, &values)?;
    Some(Sa {
        protocol: best.protocol,
        spi: best.spi_out,
    })
}

#[tactic(auto, unfolding(crate::specs::Pairs::reserved_spi))]
fn is_reserved(pair: NewPair) -> bool
    ensures { result ≡ reserved_spi pair }
{
    pair.spi_in < FIRST_SPI || pair.spi_out < FIRST_SPI
}

// Whether the ends are those of a range of that field.
fn is_range<R: FieldRange>(ends: Ends) -> bool
    ensures { result ≡ ends_in R.size ends }
{
    R::new(ends.low, ends.high).is_some()
}

// Whether all five are ranges of their fields.
#[tactic(auto, unfolding(crate::specs::Pairs::ranges_in_fields))]
fn are_ranges(ranges: Ranges) -> bool
    ensures { result ≡ ranges_in_fields ranges }
{
    is_range::<AddressRange>(ranges.local)
        && is_range::<AddressRange>(ranges.remote)
        && is_range::<ProtocolRange>(ranges.protocol)
        && is_range::<PortRange>(ranges.local_port)
        && is_range::<PortRange>(ranges.remote_port)
}

#[tactic(auto, unfolding(crate::specs::Pairs::well_formed))]
fn is_well_formed(pair: NewPair) -> bool
    ensures { result ≡ well_formed pair }
{
    is_ipsec(pair.protocol)
        && 1 <= pair.number
        && pair.number <= LAST_NUMBER
        && are_ranges(pair.ranges)
}

// Writes a pair's words from a place's first word on.
fn put_pair(table: &mut [u64], at: usize, pair: NewPair)
    requires { at + place_words ≤ length table.old }
    ensures { table.new ≡ sets table.old at (pair_words pair) }
{
    put_word(table, at, pair.protocol);
    put_word(table, at + SPI_IN, pair.spi_in as u64);
    put_word(table, at + SPI_OUT, pair.spi_out as u64);
    put_word(table, at + NUMBER, pair.number);
    put_ranges(table, at + HEAD_WORDS, pair.ranges);
}

// Adds a pair at the lowest free place. 'An added pair: 25, 28, 26, 27'; a refusal changes nothing.
#[tactic(auto, using(crate::specs::PairsLaws::first_bound))]
pub fn add(table: &mut [u64; TABLE_WORDS], pair: NewPair) -> Result<(), PairError>
    ensures answer { result ≡ add_outcome (pairs table.old) pair }
    ensures table_after { table.new ≡ added table.old pair }
{
    if is_reserved(pair) {
        return Err(PairError::ReservedSpi);
    }
    if !is_well_formed(pair) {
        return Err(PairError::BadPair);
    }
    if is_live(table, pair.protocol, pair.spi_in) {
        return Err(PairError::AlreadyLive);
    }
    let Some(place) = free_place(table) else {
        return Err(PairError::TableFull);
    };
    put_pair(table, place * PLACE_WORDS, pair);
    Ok(())
}

// Removes a pair, so that its place is free. 'A removal, whatever it names: 29 only.'
#[tactic(auto, using(crate::specs::PairsLaws::place_bound))]
pub fn remove(table: &mut [u64; TABLE_WORDS], protocol: u64, spi_in: u32) -> Result<(), PairError>
    ensures answer { result ≡ remove_outcome (pairs table.old) protocol spi_in }
    ensures table_after { table.new ≡ removed table.old protocol spi_in }
{
    let Some(place) = place_of(table, protocol, spi_in) else {
        return Err(PairError::NothingToRemove);
    };
    table[place * PLACE_WORDS] = 0;
    Ok(())
}
