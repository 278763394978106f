// The SPD cache of one direction: 32 slots for normal-form rows (document 01; docs/RULES.md, 'The slot rule'). Here it is a value; lent.rt has it
// lent as words.
#![tactic(auto)]

pub mod lent;

ghost use Rattle.std.specs.Prelude.{◌≡◌, ◌+◌, ◌*◌, ◌%◌, ◌≤◌, min, max, length};
ghost use Rattle.selectors.specs.Value.{combination};
ghost use Rattle.policy.specs.Policy.{match_from};
ghost use Rattle.policy.specs.Words.{row_words, policy_rows};
ghost use Rattle.spd_cache.specs.declared.Cache.{Cache};
ghost use Rattle.spd_cache.specs.Cache.{slot_count, slots_words, empty_cache, used_words, in_use, action_at, put, stored, missed, looked_up};

use policy::{Action, ROW_WORDS};
use selectors::{Direction, Selectors};

pub const SLOTS: usize = 32;

// The words of all slots.
pub const SLOTS_WORDS: usize = SLOTS * ROW_WORDS;

#[derive(Clone, Copy)]
pub struct Cache {
    // The slots' rows, one after the other.
    pub words: [u64; SLOTS_WORDS],
    // How many slots are in use: the first ones.
    pub count: usize,
    // The slot whose turn it is.
    pub next: usize,
}

#[derive(Clone, Copy)]
pub struct Looked {
    pub action: Action,
    pub cache: Cache,
}

// A cache that is looked up and changed where it lies: a value, or lent words.
pub trait RowCache {
    // The cache that this is.
    ghost held: { Self → Cache };

    fn lookup(&mut self, rows: &[u64], direction: Direction, selectors: Selectors) -> Action
        ensures value { result ≡ (looked_up (held self.old) rows.now direction (combination selectors)).action }
        ensures cache_after { held self.new ≡ (looked_up (held self.old) rows.now direction (combination selectors)).cache };
}

// What a lookup needs of a cache, wherever its slots lie.
trait Slots {
    ghost held: { Self → Cache };

    // The words of the slots in use.
    fn in_use(&self) -> &[u64]
        ensures { result.now ≡ in_use (held self.now) };

    // 'A miss that finds a row writes it to the slot whose turn it is, and the turn moves on, round after 32.'
    fn store(&mut self, rows: &[u64], row: usize)
        requires { row * row_words + row_words ≤ length rows.now }
        ensures { held self.new ≡ stored (held self.old) rows.now row };
}

// How many slots are in use, and the slot whose turn it is.
#[derive(Clone, Copy)]
struct Turn {
    count: usize,
    next: usize,
}

// Of the words of all slots those of the slots in use.
fn used(words: &[u64], count: usize) -> &[u64]
    requires { slots_words ≤ length words.now }
    ensures { result.now ≡ used_words words.now count }
{
    &words[..count.min(SLOTS) * ROW_WORDS]
}

// The action of the row at a place of `rows`. Stays: that the row is there is asked for, since a type of such places would be made where it is used up.
fn action_at(rows: &[u64], row: usize) -> Action
    requires { row * row_words + row_words ≤ length rows.now }
    ensures { result ≡ action_at rows.now row }
{
    Action::from(rows[row * ROW_WORDS + 1])
}

// Writes the row at place `row` of `rows` into a slot.
fn put_row(words: &mut [u64], slot: usize, rows: &[u64], row: usize)
    requires { (slot * row_words + row_words ≤ length words.old) × (row * row_words + row_words ≤ length rows.now) }
    ensures { words.new ≡ put words.old slot rows.now row }
{
    let to = slot * ROW_WORDS;
    let from = row * ROW_WORDS;
    words[to..to + ROW_WORDS].copy_from_slice(&rows[from..from + ROW_WORDS]);
}

// A row written to the slot whose turn it is, and the turn after it.
fn store_row(words: &mut [u64], turn: Turn, rows: &[u64], row: usize) -> Turn
    requires { (slots_words ≤ length words.old) × (row * row_words + row_words ≤ length rows.now) }
    ensures words_after { words.new ≡ put words.old (turn.next % slot_count) rows.now row }
    ensures count { result.count ≡ max (min turn.count slot_count) (turn.next % slot_count + 1) }
    ensures next { result.next ≡ (turn.next % slot_count + 1) % slot_count }
{
    let slot = turn.next % SLOTS;
    put_row(words, slot, rows, row);
    Turn {
        count: turn.count.min(SLOTS).max(slot + 1),
        next: (slot + 1) % SLOTS,
    }
}

// A miss: the search of the rows.
#[tactic(auto, using(crate::proofs::CacheLaws::row_bound))]
fn miss<S: Slots>(cache: &mut S, rows: &[u64], direction: Direction, selectors: Selectors) -> Action
    ensures value { result ≡ (missed (S.held cache.old) rows.now (match_from 0 direction (policy_rows rows.now) (combination selectors))).action }
    ensures cache_after { S.held cache.new ≡ (missed (S.held cache.old) rows.now (match_from 0 direction (policy_rows rows.now) (combination selectors))).cache }
{
    let Some(row) = policy::first_match(rows, direction, selectors) else {
        return Action::Discard;
    };
    cache.store(rows, row);
    action_at(rows, row)
}

// The slots first, and then the rows.
#[tactic(auto, using(crate::proofs::CacheLaws::row_bound), unfolding(crate::specs::Cache::looked_up))]
fn look_up<S: Slots>(
    cache: &mut S,
    rows: &[u64],
    direction: Direction,
    selectors: Selectors,
) -> Action
    ensures value { result ≡ (looked_up (S.held cache.old) rows.now direction (combination selectors)).action }
    ensures cache_after { S.held cache.new ≡ (looked_up (S.held cache.old) rows.now direction (combination selectors)).cache }
{
    let slots = cache.in_use();
    match policy::first_match(slots, direction, selectors) {
        Some(hit) => action_at(slots, hit),
        None => miss(cache, rows, direction, selectors),
    }
}

impl Slots for Cache {
    ghost held = { λ c. c };

    fn in_use(&self) -> &[u64] {
        used(&self.words, self.count)
    }

    fn store(&mut self, rows: &[u64], row: usize) {
        let turn = Turn {
            count: self.count,
            next: self.next,
        };
        let after = store_row(&mut self.words, turn, rows, row);
        self.count = after.count;
        self.next = after.next;
    }
}

impl RowCache for Cache {
    ghost held = { λ c. c };

    fn lookup(&mut self, rows: &[u64], direction: Direction, selectors: Selectors) -> Action {
        look_up(self, rows, direction, selectors)
    }
}

impl Cache {
    pub fn empty() -> Cache
        ensures { result ≡ empty_cache }
    {
        Cache {
            words: [0; SLOTS_WORDS],
            count: 0,
            next: 0,
        }
    }

    // Stays: a form by place (docs/DECISIONS.md), by value, with the cache handed back.
    pub fn lookup(self, rows: &[u64], direction: Direction, selectors: Selectors) -> Looked
        ensures { result ≡ looked_up self rows.now direction (combination selectors) }
    {
        let mut cache = self;
        let action = look_up(&mut cache, rows, direction, selectors);
        Looked { action, cache }
    }
}
