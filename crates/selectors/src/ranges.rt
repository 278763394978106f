// Ranges of a field: of addresses, of protocols, of ports.
ghost use Rattle.std.specs.Prelude.{◌≡◌, ◌<◌, ℕ};
ghost use Rattle.std.proofs.Common.{rules};
ghost use Rattle.selectors.specs.Range.{Range, range, contains, same_range, full, opaque, address_size, protocol_size, port_size};
ghost use Rattle.selectors.specs.FieldLaws.{any-address, any-protocol, any-port};
ghost use Rattle.selectors.specs.Value.{number};
ghost use Rattle.selectors.specs.declared.Value.{Value};
ghost use Rattle.selectors.specs.Ranges.{from_to, ends_range, address_range, protocol_range, port_range, address_of, protocol_of, port_of, new_range};

use crate::{ABSENT, Value};

// The ends of a range of any field, as words and callers give them: they may be in the wrong order, or beyond the field.
#[repr(C)]
#[derive(Clone, Copy, Debug, PartialEq, Eq)]
pub struct Ends {
    pub low: Value,
    pub high: Value,
}

impl Ends {
    // Whether the range holds the value. Ends with the same upper word, as all of IPv4's have, are told by their lower words.
    pub fn hold(self, value: Value) -> bool
        ensures { result ≡ contains (ends_range self) (number value) }
    {
        let low = self.low;
        let high = self.high;
        if low.upper == high.upper {
            if value.upper == low.upper {
                return within(low.lower, high.lower, value.lower);
            }
            return false;
        }
        self.hold_across(value)
    }

    // The same by the numbers. Apart from `hold`, so that what IPv4 asks is short enough to stand where it is asked.
    fn hold_across(self, value: Value) -> bool
        ensures { result ≡ contains (ends_range self) (number value) }
    {
        if value < self.low {
            return false;
        }
        value <= self.high
    }
}

fn within(low: u64, high: u64, value: u64) -> bool
    ensures { result ≡ contains (range low high) value }
{
    if value < low {
        return false;
    }
    value <= high
}

// A range of one field. The types of ranges differ in the values that their fields have.
pub trait FieldRange: Copy {
    // How many values the field has, the numbers of a range, and the range of two ends.
    ghost size: { ℕ };

    ghost numbers: { Self → Range };

    ghost of_ends: { Value → Value → Self };

    ghost ANY: { Self };

    // All values of the field.
    const ANY: Self;

    fn from_ends(ends: Ends) -> Self
        ensures { result ≡ of_ends ends.low ends.high };

    fn ends(self) -> Ends
        ensures { ends_range result ≡ numbers self };

    ghost any_is_full: { numbers ANY ≡ full size };

    ghost has_values: { 0 < size };

    // The range from one value to another, if low is at most high and both are values of the field.
    final fn new(low: Value, high: Value) -> Option<Self>
        ensures { result ≡ new_range size of_ends low high }
    {
        let any = Self::ANY.ends();
        if high < low {
            return None;
        }
        if any.high < high {
            return None;
        }
        Some(Self::from_ends(Ends { low, high }))
    }

    final fn holds(self, value: Value) -> bool
        ensures { result ≡ contains (numbers self) (number value) }
    {
        self.ends().hold(value)
    }

    // Whether this is ANY.
    final fn is_any(self) -> bool
        ensures { result ≡ same_range (numbers self) (full size) }
    {
        self.ends() == Self::ANY.ends()
    }
}

#[repr(C)]
#[derive(Clone, Copy, Debug, PartialEq, Eq)]
pub struct AddressRange {
    pub low: Value,
    pub high: Value,
}

impl FieldRange for AddressRange {
    ghost size = { address_size };

    ghost numbers = { address_range };

    ghost of_ends = { address_of };

    ghost ANY = { address_of (record { upper = 0; lower = 0 }) (record { upper = 0; lower = 4294967295 }) };

    const ANY: AddressRange = AddressRange {
        low: Value::ZERO,
        high: Value {
            upper: 0,
            lower: 4294967295,
        },
    };

    ghost any_is_full = { any-address };

    ghost has_values = { Prim.search rules };

    fn from_ends(ends: Ends) -> AddressRange {
        let Ends { low, high } = ends;
        AddressRange { low, high }
    }

    fn ends(self) -> Ends {
        let AddressRange { low, high } = self;
        Ends { low, high }
    }
}

#[repr(C)]
#[derive(Clone, Copy, Debug, PartialEq, Eq)]
pub struct ProtocolRange {
    pub low: Value,
    pub high: Value,
}

impl FieldRange for ProtocolRange {
    ghost size = { protocol_size };

    ghost numbers = { protocol_range };

    ghost of_ends = { protocol_of };

    ghost ANY = { protocol_of (record { upper = 0; lower = 0 }) (record { upper = 0; lower = 255 }) };

    const ANY: ProtocolRange = ProtocolRange {
        low: Value::ZERO,
        high: Value {
            upper: 0,
            lower: 255,
        },
    };

    ghost any_is_full = { any-protocol };

    ghost has_values = { Prim.search rules };

    fn from_ends(ends: Ends) -> ProtocolRange {
        let Ends { low, high } = ends;
        ProtocolRange { low, high }
    }

    fn ends(self) -> Ends {
        let ProtocolRange { low, high } = self;
        Ends { low, high }
    }
}

#[repr(C)]
#[derive(Clone, Copy, Debug, PartialEq, Eq)]
pub struct PortRange {
    pub low: Value,
    pub high: Value,
}

impl FieldRange for PortRange {
    ghost size = { port_size };

    ghost numbers = { port_range };

    ghost of_ends = { port_of };

    ghost ANY = { port_of (record { upper = 0; lower = 0 }) (record { upper = 0; lower = 65536 }) };

    const ANY: PortRange = PortRange {
        low: Value::ZERO,
        high: ABSENT,
    };

    ghost any_is_full = { any-port };

    ghost has_values = { Prim.search rules };

    fn from_ends(ends: Ends) -> PortRange {
        let Ends { low, high } = ends;
        PortRange { low, high }
    }

    fn ends(self) -> Ends {
        let PortRange { low, high } = self;
        Ends { low, high }
    }
}

impl PortRange {
    // The absent port alone.
    pub const OPAQUE: PortRange = PortRange {
        low: ABSENT,
        high: ABSENT,
    };

    // Whether this is OPAQUE.
    pub fn is_opaque(self) -> bool
        ensures { result ≡ same_range (port_range self) opaque }
    {
        self == PortRange::OPAQUE
    }
}
