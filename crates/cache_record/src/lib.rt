// The SPD cache of one direction as a record that is lent and changed in place (document 01): a thin function over the lookup that takes it by value.
#![tactic(auto)]

ghost use Rattle.std.specs.Prelude.{◌≡◌};
ghost use Rattle.selectors.specs.Value.{combination};
ghost use Rattle.spd_cache.specs.Cache.{looked_up};

use policy::Action;
use selectors::{Direction, Selectors};
use spd_cache::Cache;

// Stays: a form by place (docs/DECISIONS.md), a record behind `&mut` over the core by value. `gateway`'s packet calls take such a record by `RowCache`.
pub fn lookup(cache: &mut Cache, rows: &[u64], direction: Direction, selectors: Selectors) -> Action
    ensures { (result ≡ (looked_up cache.old rows.now direction (combination selectors)).action) × (cache.new ≡ (looked_up cache.old rows.now direction (combination selectors)).cache) }
{
    let looked = (*cache).lookup(rows, direction, selectors);
    *cache = looked.cache;
    looked.action
}
