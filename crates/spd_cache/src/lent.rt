// The cache lent as words: looked up and changed where it lies, so that no packet copies it.
ghost use Rattle.std.specs.Prelude.{◌≡◌};
ghost use Rattle.selectors.specs.Value.{combination};
ghost use Rattle.spd_cache.specs.Cache.{looked_up};
ghost use Rattle.spd_cache.specs.Lent.{cache_from, cache_words};

use crate::{Cache, RowCache, SLOTS_WORDS, Slots, Turn, look_up, store_row, used};
use policy::Action;
use selectors::{Direction, Selectors};

// Where the count of slots in use and the slot whose turn it is stand, after the slots' rows.
const COUNT: usize = SLOTS_WORDS;

const NEXT: usize = COUNT + 1;

// The words of a cache.
pub const CACHE_WORDS: usize = NEXT + 1;

impl Slots for [u64; CACHE_WORDS] {
    ghost held = { cache_from };

    fn in_use(&self) -> &[u64] {
        used(self, self[COUNT] as usize)
    }

    fn store(&mut self, rows: &[u64], row: usize) {
        let turn = Turn {
            count: self[COUNT] as usize,
            next: self[NEXT] as usize,
        };
        let after = store_row(self, turn, rows, row);
        self[COUNT] = after.count as u64;
        self[NEXT] = after.next as u64;
    }
}

impl RowCache for [u64; CACHE_WORDS] {
    ghost held = { cache_from };

    #[tactic(auto, using(crate::proofs::LentLaws::words_of_cache))]
    // The words afterwards are those of the cache, and not only words that are read as it.
    fn lookup(&mut self, rows: &[u64], direction: Direction, selectors: Selectors) -> Action
        ensures value { result ≡ (looked_up (cache_from self.old) rows.now direction (combination selectors)).action }
        ensures cache_after { cache_from self.new ≡ (looked_up (cache_from self.old) rows.now direction (combination selectors)).cache }
        ensures words_after { self.new ≡ cache_words (looked_up (cache_from self.old) rows.now direction (combination selectors)).cache }
    {
        look_up(self, rows, direction, selectors)
    }
}

// A lent cache as a value.
#[tactic(auto, unfolding(crate::specs::Lent::cache_from))]
pub fn load(lent: &[u64; CACHE_WORDS]) -> Cache
    ensures { result ≡ cache_from lent.now }
{
    let mut words = [0; SLOTS_WORDS];
    words.copy_from_slice(&lent[..SLOTS_WORDS]);
    Cache {
        words,
        count: lent[COUNT] as usize,
        next: lent[NEXT] as usize,
    }
}

// Puts a cache into lent words.
pub fn save(lent: &mut [u64; CACHE_WORDS], cache: Cache)
    ensures { lent.new ≡ cache_words cache }
{
    lent[..SLOTS_WORDS].copy_from_slice(&cache.words);
    lent[COUNT] = cache.count as u64;
    lent[NEXT] = cache.next as u64;
}
