// Writes the normal forms, for out and for in, of each policy file on standard input. A tilde parts the files.
#![tactic(auto)]

use normal_form_file::NormaliseError;
use policy_text::Refusal;
use program_input::read_full;
use selectors::Direction;
use std::fmt::{Display, Formatter};
use std::{fmt, io};

// Of standard input 65,536 bytes are read, and no more.
fn main(rt: HostRuntime) -> io::Result<()> {
    let mut room = [0u8; 65536];
    let input = read_full(&mut rt.reader(), &mut room);
    each_file(&rt, &room[..input.count])
}

fn each_file(rt: &impl Print, text: &[u8]) -> io::Result<()> {
    for part in text.split_inclusive(|byte| *byte == b'~') {
        let file = part.strip_suffix(b"~").unwrap_or(part);
        print!(rt; "out: ")?;
        show(rt, file, Direction::Out)?;
        print!(rt; "in: ")?;
        show(rt, file, Direction::In)?;
    }
    Ok(())
}

fn show(rt: &impl Print, file: &[u8], direction: Direction) -> io::Result<()> {
    let mut room = [0u8; 32768];
    match normal_form_file::normalise(file, direction, &mut room) {
        Ok(count) => {
            println!(rt; "5, {count} bytes")?;
            rt.write_all(&room[..count])
        }
        Err(error) => println!(rt; "{}", Words(error)),
    }
}

// The number of an answer that is no normal form, and what it says.
#[derive(Clone, Copy)]
struct Words(NormaliseError);

impl Display for Words {
    fn fmt<W: fmt::Write>(&self, f: &mut Formatter<W>) -> fmt::Result {
        match self.0 {
            NormaliseError::Refused(Refusal::NotHeader) => f.write_str("23, not the header line"),
            NormaliseError::Refused(Refusal::NotEnded) => f.write_str(
                "24, the last byte is not LF",
            ),
            NormaliseError::Refused(Refusal::TooMany) => f.write_str("21, too many rows"),
            NormaliseError::Refused(Refusal::BadRow(row)) => write!(f, "20, bad row {row}"),
            NormaliseError::TooLarge(_) => f.write_str("22, the normal form has too many rows"),
            NormaliseError::NoRoom => f.write_str("31, no room"),
        }
    }
}
