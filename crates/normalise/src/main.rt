// Prints the normal-form file of a policy file for one direction (document 01, 'One normal form').
//
//     normalise out|in [FILE]
//
// The policy file is FILE, whose name is UTF-8, or standard input where there is none or it is `-`; it has at most 131,072 bytes. Of a file that is
// refused, one line on standard error says document 01's number and words. The exit status is 0 whatever comes of it: a refusal is told by an empty standard output, since
// a normal-form file has its header line at least.
#![tactic(auto)]

ghost use Rattle.std.specs.Prelude.{◌≡◌, Err};
ghost use Rattle.policy.specs.Words.{row_limit};
ghost use Rattle.normal_form_file.specs.Normalise.{normalised};
ghost use Rattle.policy_text.specs.Editions.{parse_policy};
ghost use Rattle.normalise.specs.Command.{direction_asked};
ghost use Rattle.normalise.specs.RoomLaws.{form_bytes, Answered, IsFormFile};

use normal_form_file::NormaliseError;
use policy::LIMIT;
use policy_text::Refusal;
use program_input::{Reason, read_full};
use selectors::Direction;
use std::env::FillError;
use std::fmt::{Display, Formatter};
use std::fs::File;
use std::io::Read;
use std::rt::{Env, Files};
use std::{fmt, io};

// The bytes of the longest policy file that is read.
const MOST_READ: usize = 131072;

// The bytes of the longest normal-form file: its header, and at most 120 for each row.
const FORM_BYTES: usize = 9 + LIMIT * 120;

// What the system says of a name that is too long.
const ENAMETOOLONG: i32 = 36;

fn main(rt: HostRuntime) {
    // A word that is missing or longer than the room counts as empty.
    let mut word = [0u8; 4];
    let n = rt.arg(1, &mut word).unwrap_or(0);
    match direction_asked(&word[..n]) {
        Some(direction) if !is_given(&rt, 3) => from_argument(&rt, direction),
        _ => usage(&rt),
    }
}

fn usage(rt: &impl Eprint) {
    let _ = eprintln!(rt; "usage: normalise out|in [FILE]");
}

// Whether there is an argument of that number, the program's name being number 0.
fn is_given(rt: &impl Env, number: usize) -> bool {
    let mut none = [0u8; 0];
    !matches!(rt.arg(number, &mut none), Err(FillError::NotPresent))
}

// The direction that a word asks for. Stays: at a `match` on its bytes nine goals were open, seven of them ways to `_` at one byte each.
#[tactic(auto, using(policy_text::proofs::BytesLaws::same_pointwise))]
fn direction_asked(word: &[u8]) -> Option<Direction>
    ensures { result ≡ direction_asked word.now }
{
    if word == b"out".as_slice() {
        return Some(Direction::Out);
    }
    if word == b"in".as_slice() {
        return Some(Direction::In);
    }
    None
}

// The policy file that the second argument names, if there is one.
fn from_argument(rt: &HostRuntime, direction: Direction) {
    let mut room = [0u8; 4096];
    match rt.arg(2, &mut room) {
        Ok(n) => from_name(rt, &room[..n], direction),
        Err(FillError::NotPresent) => from_standard_input(rt, direction),
        Err(FillError::TooLong) => fail(rt, "FILE", io::Error::from_raw_os_error(ENAMETOOLONG)),
    }
}

fn from_standard_input(rt: &HostRuntime, direction: Direction) {
    from_input(rt, &mut rt.reader(), "standard input", direction);
}

fn from_name(rt: &HostRuntime, name: &[u8], direction: Direction) {
    match str::from_utf8(name) {
        Ok("-") => from_standard_input(rt, direction),
        Ok(path) => from_file(rt, path, direction),
        Err(_) => say(rt, "FILE: name is not UTF-8"),
    }
}

fn from_file(rt: &HostRuntime, path: &str, direction: Direction) {
    match File::open(rt, path) {
        Ok(mut file) => from_input(rt, &mut file, path, direction),
        Err(error) => fail(rt, path, error),
    }
}

// The room is one byte longer than the longest policy file that is read.
fn from_input(rt: &HostRuntime, source: &mut impl Read, name: &str, direction: Direction) {
    let mut room = [0u8; MOST_READ + 1];
    let input = read_full(source, &mut room);
    match input.outcome {
        Ok(()) if input.count <= MOST_READ => {
            print_normal_form(rt, &room[..input.count], direction);
        }
        Ok(()) => say(
            rt,
            format_args!("policy file longer than {MOST_READ} bytes"),
        ),
        Err(error) => fail(rt, name, error),
    }
}

// Writes the normal-form file, or the line of the refusal.
fn print_normal_form(rt: &HostRuntime, policy: &[u8], direction: Direction) {
    let mut text = [0u8; FORM_BYTES];
    match normal_form(policy, direction, &mut text) {
        Ok(count) => write_file(rt, &text[..count], policy, direction),
        Err(error) => refuse(rt, error, policy, direction),
    }
}

// The room is never too short.
fn normal_form(
    policy: &[u8],
    direction: Direction,
    text: &mut [u8; FORM_BYTES],
) -> Result<usize, NormaliseError>
    ensures value { result ≡ normalised row_limit direction form_bytes (parse_policy row_limit policy.now) }
    ensures answered { Answered direction (parse_policy row_limit policy.now) text.new result }
{
    normal_form_file::normalise(policy, direction, text)
}

// Nothing but the normal-form file of the policy file for the direction is written on standard output.
fn write_file(rt: &HostRuntime, text: &[u8], policy: &[u8], direction: Direction)
    requires { IsFormFile direction (parse_policy row_limit policy.now) text.now }
{
    if let Err(error) = Print::write_all(rt, text) {
        fail(rt, "standard output", error);
    }
}

// The line of a refusal: document 01's answer for the policy file and the direction.
fn refuse(rt: &impl Eprint, error: NormaliseError, policy: &[u8], direction: Direction)
    requires { Err error ≡ normalised row_limit direction form_bytes (parse_policy row_limit policy.now) }
{
    let number = answer_numbers::normalised_number(Err(error));
    say(rt, format_args!("{number}: {}", Meaning(error)));
}

// Document 01's words for a refusal, with what it carries.
#[derive(Clone, Copy)]
struct Meaning(NormaliseError);

impl Display for Meaning {
    fn fmt<W: fmt::Write>(&self, f: &mut Formatter<W>) -> fmt::Result {
        let words = match self.0 {
            NormaliseError::Refused(Refusal::NotHeader) =>
                "first nine bytes aren't the header line",
            NormaliseError::Refused(Refusal::NotEnded) => "last byte isn't LF",
            NormaliseError::Refused(Refusal::TooMany) => "more than 256 rows",
            NormaliseError::Refused(Refusal::BadRow(row)) => return write!(f, "bad row {row}"),
            NormaliseError::TooLarge(Direction::Out) => "normal form over 256 rows (out)",
            NormaliseError::TooLarge(Direction::In) => "normal form over 256 rows (in)",
            NormaliseError::NoRoom => "lent room shorter than the printed file",
        };
        f.write_str(words)
    }
}

// Says what failed, and the system's reason.
fn fail(rt: &impl Eprint, what: &str, error: io::Error) {
    say(rt, format_args!("{what}: {}", Reason(error)));
}

// A line on standard error. Where it cannot be written, nothing more is said.
fn say(rt: &impl Eprint, words: impl Display + Drop) {
    let _ = eprintln!(rt; "normalise: {words}");
}
