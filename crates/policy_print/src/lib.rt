// The printer of policy files (document 01, 'One normal form').
#![tactic(auto)]

ghost use Rattle.std.specs.Prelude.{◌≡◌, [], ◌∷◌, map, ◌+◌, ◌≤◌, ◌<◌, length};
ghost use Rattle.selectors.specs.Value.{number};
ghost use Rattle.selectors.specs.Range.{full, same_range};
ghost use Rattle.selectors.specs.Ranges.{ends_range, five_ranges};
ghost use Rattle.policy.specs.Words.{row_words, row_at, policy_rows};
ghost use Rattle.policy_text.specs.Bytes.{tab};
ghost use Rattle.policy_text.specs.Decimals.{decimal_text};
ghost use Rattle.policy_text.specs.Edition1.{dotted, port_text, action_text, edition1};
ghost use Rattle.policy_text.specs.Print.{range_text, ranges_text, direction_text, line_text, rows_text, toward};
ghost use Rattle.policy_print.specs.Printing.{Stored, printed, printed_in, printed_room};

use policy::{Action, ROW_WORDS, RowDirection};
use policy_text::Edition;
use selectors::words::ranges_at;
use selectors::{
    ABSENT, AddressRange, Direction, Ends, FieldRange, PortRange, ProtocolRange, Ranges, Value,
};

// The lent room is shorter than the file.
#[derive(Clone, Copy, Debug, PartialEq, Eq)]
pub struct NoRoom;

// The kinds of fields that edition 1 has. Stays: an enum and no trait, since the contracts name a field of the edition by it (`field_of`).
#[derive(Clone, Copy)]
enum Kind {
    Address,
    Protocol,
    Port,
}

impl Kind {
    ghost use Rattle.policy_print.specs.Writing.{field_of};

    // Whether a range is all of the field.
    fn is_full(self, range: Ends) -> bool
        ensures { result ≡ same_range (ends_range range) (full (field_of self).size) }
    {
        match self {
            Kind::Address => AddressRange::from_ends(range).is_any(),
            Kind::Protocol => ProtocolRange::from_ends(range).is_any(),
            Kind::Port => PortRange::from_ends(range).is_any(),
        }
    }
}

fn digit(n: u64) -> u8
    requires { n < 10 }
    ensures { result ≡ 48 + n }
{
    b'0' + n as u8
}

// Stores a text in a lent room, as far as the room goes, and counts all of it.
#[derive(Drop)]
struct Writer<'a> {
    out: &'a mut [u8],
    // The place of the next byte.
    at: usize,
}

impl Writer<'_> {
    ghost use Rattle.policy_print.specs.Writing.{Puts, field_of};

    fn put(&mut self, byte: u8)
        ensures { Puts self.old (byte ∷ []) self.new }
    {
        let at = self.at;
        if at < self.out.len() {
            self.out[at] = byte;
        }
        self.at = at.saturating_add(1);
    }

    fn put_text(&mut self, text: &[u8])
        ensures { Puts self.old text.now self.new }
    {
        for &byte in text {
            self.put(byte);
        }
    }

    fn put_decimal(&mut self, n: u64)
        ensures { Puts self.old (decimal_text n) self.new }
    {
        if 10 <= n {
            self.put_decimal(n / 10);
        }
        self.put(digit(n % 10));
    }

    fn put_dotted(&mut self, n: u64)
        ensures { Puts self.old (dotted n) self.new }
    {
        self.put_decimal(n / 16777216);
        self.put(b'.');
        self.put_decimal(n / 65536 % 256);
        self.put(b'.');
        self.put_decimal(n / 256 % 256);
        self.put(b'.');
        self.put_decimal(n % 256);
    }

    fn put_port(&mut self, port: Value)
        ensures { Puts self.old (port_text (number port)) self.new }
    {
        if port == ABSENT {
            self.put_text(b"opaque");
        } else {
            self.put_decimal(port.lower);
        }
    }

    // A value of a field.
    fn put_value(&mut self, kind: Kind, value: Value)
        ensures { Puts self.old ((field_of kind).value_text (number value)) self.new }
    {
        match kind {
            Kind::Address => self.put_dotted(value.lower),
            Kind::Protocol => self.put_decimal(value.lower),
            Kind::Port => self.put_port(value),
        }
    }

    // A range of a field, after a tab.
    fn put_range(&mut self, kind: Kind, range: Ends)
        ensures { Puts self.old (tab ∷ range_text (field_of kind).size (field_of kind).value_text (ends_range range)) self.new }
    {
        self.put(b'\t');
        if kind.is_full(range) {
            self.put_text(b"any");
            return;
        }
        self.put_value(kind, range.low);
        if range.low != range.high {
            self.put(b'-');
            self.put_value(kind, range.high);
        }
    }

    fn put_ranges(&mut self, ranges: Ranges)
        ensures { Puts self.old (ranges_text edition1 (five_ranges ranges)) self.new }
    {
        self.put_range(Kind::Address, ranges.local);
        self.put_range(Kind::Address, ranges.remote);
        self.put_range(Kind::Protocol, ranges.protocol);
        self.put_range(Kind::Port, ranges.local_port);
        self.put_range(Kind::Port, ranges.remote_port);
    }

    fn put_direction(&mut self, direction: Direction)
        ensures { Puts self.old (direction_text (RowDirection.Only direction)) self.new }
    {
        match direction {
            Direction::Out => self.put_text(b"out"),
            Direction::In => self.put_text(b"in"),
        }
    }

    fn put_action(&mut self, action: Action)
        ensures { Puts self.old (action_text action) self.new }
    {
        match action {
            Action::Discard => self.put_text(b"discard"),
            Action::Bypass => self.put_text(b"bypass"),
            Action::Protect(n) => {
                self.put_text(b"protect-");
                self.put_decimal(n);
            }
        }
    }

    // The row at a word, printed as a row of that direction, with its LF.
    fn put_row(&mut self, rows: &[u64], from: usize, direction: Direction)
        requires { from + row_words ≤ length rows.now }
        ensures { Puts self.old (line_text edition1 (toward direction (row_at rows.now from))) self.new }
    {
        self.put_direction(direction);
        self.put(b'\t');
        self.put_action(Action::from(rows[from + 1]));
        self.put_ranges(ranges_at(rows, from + 2));
        self.put(b'\n');
    }

    fn put_rows(&mut self, rows: &[u64], direction: Direction)
        ensures { Puts self.old (rows_text edition1 (map (toward direction) (policy_rows rows.now))) self.new }
    {
        for i in 0..rows.len() / ROW_WORDS {
            self.put_row(rows, i * ROW_WORDS, direction);
        }
    }

    fn put_file(&mut self, edition: Edition, rows: &[u64], direction: Direction)
        ensures { Puts self.old (printed edition direction (policy_rows rows.now)) self.new }
    {
        match edition {
            Edition::One => self.put_text(b"policy\t1\n"),
        }
        self.put_rows(rows, direction);
    }
}

// Stores the file from the start of the room on, as far as the room goes; its length.
fn store(out: &mut [u8], edition: Edition, rows: &[u64], direction: Direction) -> usize
    ensures { Stored out.old (printed edition direction (policy_rows rows.now)) out.new result }
{
    let mut writer = Writer { out, at: 0 };
    writer.put_file(edition, rows, direction);
    writer.at
}

// The rows as a policy file of that edition for one direction, at the start of the lent room; a room that is too short is left alone. A first run
// into no room measures the file.
pub fn print(
    edition: Edition,
    rows: &[u64],
    direction: Direction,
    out: &mut [u8],
) -> Result<usize, NoRoom>
    ensures value { result ≡ printed_in (length out.old) (printed edition direction (policy_rows rows.now)) }
    ensures out_after { out.new ≡ printed_room out.old (printed edition direction (policy_rows rows.now)) }
{
    let mut no_room = [];
    let n = store(&mut no_room, edition, rows, direction);
    if out.len() < n {
        return Err(NoRoom);
    }
    store(out, edition, rows, direction);
    Ok(n)
}
