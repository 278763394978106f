// The fields of a script's line: decimals and byte strings.
ghost use Rattle.std.specs.Prelude.{◌<◌, ◌≤◌, length, IfSome};

use arrayvec::ArrayVec;

// The most fields that an operation has, with its name.
pub const FIELDS: usize = 16;

// No byte string of a script is longer, since a line with more digits has no room in it.
const MOST_BYTES: usize = 65536;

// The place of a byte string. A script has one, since 64 KiB for each line would cost more than the line.
pub type Room = ArrayVec<u8, MOST_BYTES>;

// The name and the fields of a line, if there are no more than an operation has.
pub fn fields_of(line: &[u8]) -> Option<ArrayVec<&[u8], FIELDS>> {
    let mut fields = ArrayVec::new();
    for field in line.split(|byte| *byte == b' ') {
        fields.try_push(field).ok()?;
    }
    Some(fields)
}

// A decimal of 64 bits: digits alone, and at least one.
pub fn number(text: &[u8]) -> Option<u64> {
    if text.is_empty() {
        return None;
    }
    let mut n: u64 = 0;
    for byte in text {
        let digit = char::from(*byte).to_digit(10)?;
        n = n.checked_mul(10)?.checked_add(u64::from(digit))?;
    }
    Some(n)
}

// A number of 32 bits, as an SPI or an address is.
pub fn word(text: &[u8]) -> Option<u32> {
    u32::try_from(number(text)?).ok()
}

// The bytes that a text of lowercase hexadecimal stands for, written to the room.
pub fn bytes<'a>(text: &[u8], room: &'a mut Room) -> Option<&'a [u8]>
    ensures { IfSome result (λ bytes. length bytes.now ≤ MOST_BYTES) }
{
    room.clear();
    match text {
        [] => return None,
        b"-" => return Some(room.as_slice()),
        _ => {}
    }
    for pair in text.chunks(2) {
        let [high, low] = pair else {
            return None;
        };
        room.try_push(digit(*high)? * 16 + digit(*low)?).ok()?;
    }
    Some(room.as_slice())
}

// A digit of lowercase hexadecimal. Stays: `char::to_digit` takes capitals too.
fn digit(byte: u8) -> Option<u8>
    ensures { IfSome result (λ digit. digit < 16) }
{
    match byte {
        b'0'..=b'9' => Some(byte - b'0'),
        b'a'..=b'f' => Some(byte - b'a' + 10),
        _ => None,
    }
}
