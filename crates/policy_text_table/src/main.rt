// Parses each file that standard input names, one name to a line, and writes the name and the answer. Of a file that is accepted it
// writes the rows again as they are printed for `out`.
#![tactic(auto)]

use policy::{LIMIT, POLICY_WORDS};
use policy_parse::parse;
use policy_print::{NoRoom, print};
use policy_text::{Edition, ParseError, Refusal};
use program_input::read_full;
use selectors::Direction;
use std::fmt::{Display, Formatter};
use std::fs::File;
use std::rt::Files;
use std::{fmt, io};

// Of standard input 4,096 bytes are read, and no more; of each file 65,536.
fn main(rt: HostRuntime) -> io::Result<()> {
    let mut room = [0u8; 4096];
    let input = read_full(&mut rt.reader(), &mut room);
    each_name(&rt, &room[..input.count])
}

fn each_name(rt: &(impl Files + Print), names: &[u8]) -> io::Result<()> {
    for line in names.split_inclusive(|byte| *byte == b'\n') {
        one_file(rt, line.strip_suffix(b"\n").unwrap_or(line))?;
    }
    Ok(())
}

fn one_file(rt: &(impl Files + Print), name: &[u8]) -> io::Result<()> {
    rt.write_all(name)?;
    print!(rt; ": ")?;
    let Ok(path) = str::from_utf8(name) else {
        return println!(rt; "no such file");
    };
    let Ok(mut file) = File::open(rt, path) else {
        return println!(rt; "no such file");
    };
    let mut room = [0u8; 65536];
    let input = read_full(&mut file, &mut room);
    answer(rt, &room[..input.count])
}

// The number of the answer, and what it carries.
fn answer(rt: &impl Print, bytes: &[u8]) -> io::Result<()> {
    let mut room = [0u64; POLICY_WORDS];
    match parse(bytes, LIMIT, &mut room) {
        Ok(policy) => {
            println!(rt; "5, rows {}", policy.count)?;
            print_rows(rt, policy.edition, policy::first_rows(&room, policy.count))
        }
        Err(error) => println!(rt; "{}", Numbered(error)),
    }
}

fn print_rows(rt: &impl Print, edition: Edition, rows: &[u64]) -> io::Result<()> {
    let mut room = [0u8; 30000];
    match print(edition, rows, Direction::Out, &mut room) {
        Ok(count) => rt.write_all(&room[..count]),
        Err(NoRoom) => println!(rt; "31"),
    }
}

// The number of an error, and what it carries.
#[derive(Clone, Copy)]
struct Numbered(ParseError);

impl Display for Numbered {
    fn fmt<W: fmt::Write>(&self, f: &mut Formatter<W>) -> fmt::Result {
        match self.0 {
            ParseError::Refused(Refusal::NotHeader) => f.write_str("23"),
            ParseError::Refused(Refusal::NotEnded) => f.write_str("24"),
            ParseError::Refused(Refusal::TooMany) => f.write_str("21"),
            ParseError::Refused(Refusal::BadRow(row)) => write!(f, "20, row {row}"),
            ParseError::NoRoom => f.write_str("no room"),
        }
    }
}
