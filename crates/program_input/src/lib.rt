// What the programs share: how they read their input, and how they say why it failed.
#![tactic(auto)]

ghost use Rattle.std.specs.Prelude.{◌≤◌, ◌<◌, length, take, OnOk};
ghost use Rattle.std.specs.Io.KnownBytes.{Consumes, IsAtEnd};
ghost use Rattle.program_input.specs.Message.{IsWithoutNumber};

use arrayvec::ArrayString;
use std::fmt::{Display, Formatter, Write};
use std::io::Read;
use std::{fmt, io};

/// What came of reading an input into a room: how many bytes of it stand at the room's start, and whether it was read without a failure.
#[derive(Clone, Copy)]
pub struct Filled {
    pub count: usize,
    pub outcome: io::Result<()>,
}

/// Reads until the room is full, the input ends or a read fails.
// Stays: a fixed room (fixed memory). With `read_to_end` into a `Vec` each program would have one more failure, where memory runs out.
pub fn read_full<R: Read>(input: &mut R, room: &mut [u8]) -> Filled
    ensures within { result.count ≤ length room.new }
    ensures bytes { Consumes (R.remaining input.old) (R.remaining input.new) (take result.count room.new) }
    ensures to_the_end { OnOk result.outcome (result.count < length room.new → IsAtEnd (R.remaining input.new)) }
{
    let mut count = 0;
    while count < room.len() {
        match input.read(&mut room[count..]) {
            Ok(0) => break,
            Ok(more) => count += more,
            Err(error) => {
                return Filled {
                    count,
                    outcome: Err(error),
                };
            }
        }
    }
    Filled {
        count,
        outcome: Ok(()),
    }
}

/// The system's words for an error, without the number that it gives it.
#[derive(Clone, Copy)]
pub struct Reason(pub io::Error);

impl Display for Reason {
    fn fmt<W: fmt::Write>(&self, f: &mut Formatter<W>) -> fmt::Result {
        let mut message = ArrayString::<512>::new();
        write!(message, "{}", self.0)?;
        f.write_str(without_number(message.as_str()))
    }
}

fn without_number(message: &str) -> &str
    ensures { IsWithoutNumber message.now result.now }
{
    match message.split_once(" (os error ") {
        Some((words, _)) => words,
        None => message,
    }
}
