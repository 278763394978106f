// Values, ranges and five ranges as words in a flat slice: what reads and writes them.
// A word that is not there counts as 0, and a word that has no place is not written.
ghost use Rattle.std.specs.Prelude.{◌≡◌, ◌+◌, ◌*◌, ◌≤◌, ◌<◌, leb, length, get_or, set};
ghost use Rattle.std.proofs.lemmas.List.Edits.{sets};
ghost use Rattle.selectors.specs.Range.{contains, holds};
ghost use Rattle.selectors.specs.Ranges.{ends_range, five_ranges};
ghost use Rattle.selectors.specs.Value.{number};
ghost use Rattle.selectors.specs.Words.{field_count, range_words, value_at, ends_at, range_at, five_at, ranges_from, values_from, held_at, words_of_value, words_of_range, words_of_ranges, words_of_selectors, selectors_in};

use crate::{Ends, Ranges, Selectors, Value};

// How many fields there are, and the words of a value, of a range, of a value for each field, and of a range for each field.
pub const FIELDS: usize = 5;

pub const VALUE_WORDS: usize = 2;

pub const RANGE_WORDS: usize = 2 * VALUE_WORDS;

pub const SELECTOR_WORDS: usize = FIELDS * VALUE_WORDS;

pub const RANGES_WORDS: usize = FIELDS * RANGE_WORDS;

const NO_ENDS: Ends = Ends {
    low: Value::ZERO,
    high: Value::ZERO,
};

const NO_RANGES: Ranges = Ranges {
    local: NO_ENDS,
    remote: NO_ENDS,
    protocol: NO_ENDS,
    local_port: NO_ENDS,
    remote_port: NO_ENDS,
};

// Whether there are so many words from a place on.
fn has(words: &[u64], at: usize, count: usize) -> bool
    ensures { result ≡ leb (at + count) (length words.now) }
{
    if words.len() < count {
        return false;
    }
    at <= words.len() - count
}

fn word_at(words: &[u64], at: usize) -> u64
    ensures { result ≡ get_or words.now at 0 }
{
    words.get(at).copied().unwrap_or(0)
}

// A value whose words are there.
fn value_in(words: &[u64], at: usize) -> Value
    requires { at + 2 ≤ length words.now }
    ensures { result ≡ value_at words.now at }
{
    Value {
        upper: words[at],
        lower: words[at + 1],
    }
}

// The value of the two words from a place on.
pub fn value_at(words: &[u64], at: usize) -> Value
    ensures { result ≡ value_at words.now at }
{
    if has(words, at, VALUE_WORDS) {
        return value_in(words, at);
    }
    Value {
        upper: word_at(words, at),
        lower: 0,
    }
}

// The ends of the range of the four words from a place on.
pub fn ends_at(words: &[u64], at: usize) -> Ends
    ensures { result ≡ ends_at words.now at }
{
    if has(words, at, RANGE_WORDS) {
        return Ends {
            low: value_in(words, at),
            high: value_in(words, at + VALUE_WORDS),
        };
    }
    if words.len() <= at {
        return NO_ENDS;
    }
    Ends {
        low: value_at(words, at),
        high: value_at(words, at + VALUE_WORDS),
    }
}

// The ends of the ranges of the five fields, from a place on.
pub fn ranges_at(words: &[u64], at: usize) -> Ranges
    ensures { result ≡ five_at words.now at }
{
    if words.len() <= at {
        return NO_RANGES;
    }
    Ranges {
        local: ends_at(words, at),
        remote: ends_at(words, at + RANGE_WORDS),
        protocol: ends_at(words, at + 2 * RANGE_WORDS),
        local_port: ends_at(words, at + 3 * RANGE_WORDS),
        remote_port: ends_at(words, at + 4 * RANGE_WORDS),
    }
}

// Whether a range whose words are there holds a value.
fn range_in(words: &[u64], at: usize, value: Value) -> bool
    requires { at + 4 ≤ length words.now }
    ensures { result ≡ contains (range_at words.now at) (number value) }
{
    let low = value_in(words, at);
    let high = value_in(words, at + VALUE_WORDS);
    Ends { low, high }.hold(value)
}

// Whether the range of the four words from a place on holds a value.
pub fn range_holds(words: &[u64], at: usize, value: Value) -> bool
    ensures { result ≡ contains (range_at words.now at) (number value) }
{
    let ends = ends_at(words, at);
    ends.hold(value)
}

fn value_of(values: &[u64; SELECTOR_WORDS], field: usize) -> Value
    requires { field < field_count }
    ensures { result ≡ value_at values.now (2 * field) }
{
    let at = 2 * field;
    Value {
        upper: values[at],
        lower: values[at + 1],
    }
}

// Whether ranges whose words are there hold the values of the first fields.
fn all_hold(words: &[u64], at: usize, values: &[u64; SELECTOR_WORDS], fields: usize) -> bool
    requires { (fields ≤ field_count) × (at + range_words * fields ≤ length words.now) }
    ensures { result ≡ holds (ranges_from words.now at 0 fields) (values_from values.now 0 fields) }
{
    for f in 0..fields {
        if !range_in(words, at + RANGE_WORDS * f, value_of(values, f)) {
            return false;
        }
    }
    true
}

// Whether the ranges of the first fields, which begin at a place, are there and hold the values of those fields.
pub fn ranges_hold(words: &[u64], at: usize, values: &[u64; SELECTOR_WORDS], fields: usize) -> bool
    ensures { result ≡ held_at words.now at values.now fields }
{
    if FIELDS < fields {
        return false;
    }
    if !has(words, at, RANGE_WORDS * fields) {
        return false;
    }
    all_hold(words, at, values, fields)
}

// Five values as words: lent to the test of each row, they are not copied.
pub fn selector_words(selectors: Selectors) -> [u64; SELECTOR_WORDS]
    ensures { result ≡ words_of_selectors selectors }
{
    [
        selectors.local.upper,
        selectors.local.lower,
        selectors.remote.upper,
        selectors.remote.lower,
        selectors.protocol.upper,
        selectors.protocol.lower,
        selectors.local_port.upper,
        selectors.local_port.lower,
        selectors.remote_port.upper,
        selectors.remote_port.lower,
    ]
}

// The five values of words.
pub fn selectors_of(words: &[u64; SELECTOR_WORDS]) -> Selectors
    ensures { result ≡ selectors_in words.now }
{
    Selectors {
        local: value_of(words, 0),
        remote: value_of(words, 1),
        protocol: value_of(words, 2),
        local_port: value_of(words, 3),
        remote_port: value_of(words, 4),
    }
}

// Writes a word at a place.
pub fn put_word(words: &mut [u64], at: usize, word: u64)
    ensures { words.new ≡ set words.old at word }
{
    if words.len() <= at {
        return;
    }
    words[at] = word;
}

// Writes a value's words from a place on.
pub fn put_value(words: &mut [u64], at: usize, value: Value)
    ensures { words.new ≡ sets words.old at (words_of_value (number value)) }
{
    if words.len() <= at {
        return;
    }
    words[at] = value.upper;
    if words.len() - at < VALUE_WORDS {
        return;
    }
    words[at + 1] = value.lower;
}

// Writes a range's words from a place on.
pub fn put_ends(words: &mut [u64], at: usize, ends: Ends)
    ensures { words.new ≡ sets words.old at (words_of_range (ends_range ends)) }
{
    if words.len() <= at {
        return;
    }
    put_value(words, at, ends.low);
    put_value(words, at + VALUE_WORDS, ends.high);
}

// Writes the words of five ranges from a place on.
pub fn put_ranges(words: &mut [u64], at: usize, ranges: Ranges)
    ensures { words.new ≡ sets words.old at (words_of_ranges (five_ranges ranges)) }
{
    if words.len() <= at {
        return;
    }
    put_ends(words, at, ranges.local);
    put_ends(words, at + RANGE_WORDS, ranges.remote);
    put_ends(words, at + 2 * RANGE_WORDS, ranges.protocol);
    put_ends(words, at + 3 * RANGE_WORDS, ranges.local_port);
    put_ends(words, at + 4 * RANGE_WORDS, ranges.remote_port);
}
