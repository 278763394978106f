// Whether the two sides of a list of entries give the same action throughout a box: each entry that is on one side only is asked about.
ghost use Rattle.std.specs.Prelude.{◌≡◌, Bool, true, false, not, suc, ◌≤◌, ◌<◌, [], length, Some};
ghost use Rattle.agree.specs.Sides.{is_second, side_of, sides_in, on_side, action_at, Earlier, Before, Hidden, Passed, Ended, Peace, NextConflict, Harmless, Agreed};
ghost use Rattle.agree.specs.declared.sides.Step.TheVariants.{Past, End};

use crate::entries::on;
use crate::sides::{Asked, Entries, Side, Step};
use arrayvec::ArrayVec;
use cover::{Bounds, MOST, apart_from, covered};

// How many parts of boxes one test looks at before the answer is not known.
const PARTS: usize = 30000;

// The side of an entry that is on one side only.
fn lone(code: u32) -> Option<Side>
    ensures { (s : Bool) → on_side s code ≡ true → on_side (not s) code ≡ false → result ≡ Some (side_of s) }
{
    match code % 4 {
        1 => Some(Side::First),
        2 => Some(Side::Second),
        _ => None,
    }
}

// Whether an entry comes before the row asked about on its side, or is on the other side.
fn comes_first(code: u32, asked: Asked, j: usize) -> bool
    ensures { result ≡ true → Earlier (is_second asked.side) asked.row code j }
{
    on(code, asked.side.other()) || (j < asked.row && on(code, asked.side))
}

impl Entries<'_> {
    // Lists what may be first in the box before the row asked about and before the entry k: the entries of its side before it, and those of
    // the other side before k. Those that are apart from the box are left out.
    fn before(&self, asked: Asked, k: usize, bounds: &Bounds, list: &mut ArrayVec<u32, MOST>)
        requires { (k ≤ length self.now.codes.now) × (list.old.items ≡ []) }
        ensures { Before self.now.codes.now (is_second asked.side) asked.row k list.new.items }
    {
        for j in 0..k {
            let code = self.codes[j];
            if comes_first(code, asked, j)
                && !apart_from(&self.policies, code, self.field, bounds)
            {
                list.push(code);
            }
        }
    }

    // Whether entries before the row asked about and before the entry k cover the box, so that these two are not both first there. Of parts of
    // boxes it may look at `left`, as those below may.
    fn hidden(&self, asked: Asked, k: usize, bounds: &Bounds, left: &mut usize) -> bool
        requires { k ≤ length self.now.codes.now }
        ensures fewer { left.new ≤ left.old }
        ensures hidden { result ≡ true → Hidden (sides_in self.now) (is_second asked.side) asked.row k bounds.now.words }
    {
        let mut list = ArrayVec::new();
        self.before(asked, k, bounds, &mut list);
        covered(&self.policies, &list, self.field, bounds, left)
    }

    // What the entry k is to the row asked about, whose action is given.
    fn step(&self, asked: Asked, action: u64, k: usize, bounds: &Bounds) -> Step
        requires { action ≡ action_at (sides_in self.now) asked.row }
        ensures past { result ≡ Past → Passed (sides_in self.now) (is_second asked.side) asked.row k bounds.now.words }
        ensures end { result ≡ End → Ended (sides_in self.now) (is_second asked.side) asked.row k bounds.now.words }
    {
        if !self.on(k, asked.side.other()) {
            return Step::Past;
        }
        if self.action(k) == action {
            if self.cover(k, bounds) {
                return Step::End;
            }
            return Step::Past;
        }
        if self.apart(k, bounds) {
            return Step::Past;
        }
        Step::Conflict
    }

    // The next entry from `from` on that is a conflict, the end row among them.
    fn conflict(&self, asked: Asked, from: usize, bounds: &Bounds) -> Option<usize>
        ensures { NextConflict (sides_in self.now) (is_second asked.side) asked.row from bounds.now.words result }
    {
        let action = self.action(asked.row);
        for k in from..self.codes.len() + 1 {
            match self.step(asked, action, k, bounds) {
                Step::Past => {}
                Step::Conflict => return Some(k),
                Step::End => return None,
            }
        }
        None
    }

    // The next conflict behind the entry k. There is none if k is on the other side and covers the box.
    fn after(&self, asked: Asked, k: usize, bounds: &Bounds) -> Option<usize>
        requires { k ≤ length self.now.codes.now }
        ensures { NextConflict (sides_in self.now) (is_second asked.side) asked.row (suc k) bounds.now.words result }
    {
        if self.on(k, asked.side.other()) && self.cover(k, bounds) {
            return None;
        }
        self.conflict(asked, k + 1, bounds)
    }

    // Whether the conflicts of the row asked about, from the entry `from` on, are never seen in the box: entries before cover what they share.
    fn conflicts_hidden(&self, asked: Asked, from: usize, bounds: &Bounds, left: &mut usize) -> bool
        requires { from ≤ length self.now.codes.now }
        ensures fewer { left.new ≤ left.old }
        ensures peace { result ≡ true → Peace (sides_in self.now) (is_second asked.side) asked.row from (suc (length self.now.codes.now)) bounds.now.words }
    {
        let mut k = from;
        // Stays: a `loop`, since it goes from conflict to conflict, and counts no index.
        loop {
            let shared = self.common(k, bounds);
            if !self.hidden(asked, k, &shared, left) {
                return false;
            }
            let Some(next) = self.after(asked, k, bounds) else {
                return true;
            };
            k = next;
        }
    }

    // Whether the row asked about makes no difference in the box: it has no conflicts there, or entries before it cover it, or no conflict is
    // seen.
    fn harmless(&self, asked: Asked, bounds: &Bounds, left: &mut usize) -> bool
        requires { asked.row < length self.now.codes.now }
        ensures fewer { left.new ≤ left.old }
        ensures harmless { result ≡ true → Harmless (sides_in self.now) (is_second asked.side) asked.row bounds.now.words }
    {
        let own = self.common(asked.row, bounds);
        let Some(k) = self.conflict(asked, asked.row + 1, &own) else {
            return true;
        };
        self.hidden(asked, asked.row, &own, left) || self.conflicts_hidden(asked, k, &own, left)
    }

    // THE TEST: whether the rows of the two sides give the same action throughout the box.
    pub(crate) fn agreed(&self, bounds: &Bounds) -> bool
        ensures { result ≡ true → Agreed (sides_in self.now) bounds.now.words }
    {
        let mut left = PARTS;
        for row in 0..self.codes.len() {
            if let Some(side) = lone(self.codes[row]) {
                if !self.harmless(Asked { side, row }, bounds, &mut left) {
                    return false;
                }
            }
        }
        true
    }
}
