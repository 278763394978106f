// The selectors of a packet, and the ranges that policy rows and SA pairs have for them (RFC 4301, 4.4.1.1); words.rt has them as words.
#![tactic(auto)]

pub mod ranges;
pub mod words;

ghost use Rattle.std.specs.Prelude.{◌≡◌, ◌+◌, ◌-◌, ◌^◌, min, eqb};
ghost use Rattle.std.specs.Ordering.{nat_cmp, on, as_partial_cmp};
ghost use Rattle.std.specs.Cmp.{partial_order_from_own_ties};
ghost use Rattle.std.specs.Cmp.Rules.{comparing};
ghost use Rattle.std.proofs.Common.{rules};
ghost use Rattle.selectors.specs.Value.{number};

pub use crate::ranges::{AddressRange, Ends, FieldRange, PortRange, ProtocolRange};
use std::cmp::Ordering;

// A value of a field: the number upper * 2^64 + lower. Values are equal, and in order, as their numbers are.
#[repr(C)]
#[derive(Clone, Copy, Debug)]
pub struct Value {
    pub upper: u64,
    pub lower: u64,
}

const LAST: u64 = u64::MAX;

impl Value {
    pub const ZERO: Value = Value { upper: 0, lower: 0 };

    // One more; the highest number of two words stays as it is.
    pub fn next(self) -> Value
        ensures { number result ≡ min (number self + 1) (2 ^ 128 - 1) }
    {
        if self.lower < LAST {
            return Value {
                upper: self.upper,
                lower: self.lower + 1,
            };
        }
        if self.upper < LAST {
            return Value {
                upper: self.upper + 1,
                lower: 0,
            };
        }
        self
    }

    // One less; 0 stays as it is.
    pub fn previous(self) -> Value
        ensures { number result ≡ number self - 1 }
    {
        if 0 < self.lower {
            return Value {
                upper: self.upper,
                lower: self.lower - 1,
            };
        }
        if 0 < self.upper {
            return Value {
                upper: self.upper - 1,
                lower: LAST,
            };
        }
        self
    }

    fn order(self, other: Value) -> Ordering
        ensures { result ≡ nat_cmp (number self) (number other) }
    {
        if self.upper == other.upper {
            return self.lower.cmp(&other.lower);
        }
        self.upper.cmp(&other.upper)
    }
}

// Stays: a derive would compare the two words, and each caller would have to show again that they are words; these say the number.
impl PartialEq for Value {
    ghost eq = { λ a b. eqb (number a) (number b) };

    ghost laws = { Prim.search (comparing, rules) };

    fn eq(&self, other: &Value) -> bool {
        let (own, other) = (*self, *other);
        if own.upper == other.upper {
            return own.lower == other.lower;
        }
        false
    }
}

impl Eq for Value {
    ghost laws = { Prim.search (comparing, rules) };
}

impl Ord for Value {
    ghost cmp = { on number nat_cmp };

    ghost total = { Prim.search (comparing, rules) };

    ghost matches_partial_cmp = { Prim.search (comparing, rules) };

    ghost matches_eq = { Prim.search (comparing, rules) };

    fn cmp(&self, other: &Value) -> Ordering {
        (*self).order(*other)
    }
}

impl PartialOrd for Value {
    ghost partial_cmp = { as_partial_cmp (on number nat_cmp) };

    ghost laws = { partial_order_from_own_ties (Prim.search (comparing, rules)) (Prim.search (comparing, rules)) };

    fn partial_cmp(&self, other: &Value) -> Option<Ordering> {
        Some(self.cmp(other))
    }
}

// Which way a packet goes (document 01's way).
#[derive(Clone, Copy, Debug, PartialEq, Eq)]
pub enum Direction {
    Out,
    In,
}

// The port of a packet that shows none (document 01's absent, RFC 4301's OPAQUE): one step after 65,535.
pub const ABSENT: Value = Value {
    upper: 0,
    lower: 65536,
};

// One of something for each of the five fields.
#[derive(Clone, Copy, Debug, PartialEq, Eq)]
pub struct Fields<T> {
    pub local: T,
    pub remote: T,
    pub protocol: T,
    pub local_port: T,
    pub remote_port: T,
}

// The five values that the gateway sees in a packet.
pub type Selectors = Fields<Value>;

// A range for each field, by its ends.
pub type Ranges = Fields<Ends>;
