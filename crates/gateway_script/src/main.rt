// Replays a script of calls on one gateway and writes an answer for each: a part of the protocol of rust/replay/PROTOCOL.md.
//
//     gateway_script [FILE]
//
// The script is FILE, or standard input where there is none; it has at most 131,072 bytes. An operation is one of these lines, with one space
// between fields, decimals, and byte strings in lowercase hexadecimal (`-` is the empty one):
//
//     gate ADDRESS4 ADDRESS6      a fresh gateway; the second address is ignored
//     policy FILE
//     add PROTOCOL SPI-IN SPI-OUT NUMBER 4 LOW HIGH LOW HIGH LOW HIGH LOW HIGH LOW HIGH
//     remove PROTOCOL SPI-IN
//     out PACKET
//     in PACKET
//     from PROTOCOL SPI-IN PACKET
//
// Empty lines and lines that begin with `#` or `=` are passed over. Before the first `gate` line the gateway's address is 0.
#![tactic(auto)]

mod answers;
mod fields;
mod operations;

use fields::Room;
use operations::Gateway;
use program_input::{Reason, read_full};
use std::env::FillError;
use std::fmt::Display;
use std::fs::File;
use std::io::Read;
use std::rt::{Env, Files};

// The bytes of the longest script that is read.
const MOST_READ: usize = 131072;

fn main(rt: HostRuntime) {
    let mut room = [0u8; 4096];
    match rt.arg(1, &mut room) {
        Ok(n) => from_file(&rt, &room[..n]),
        Err(FillError::NotPresent) => from_input(&rt, &mut rt.reader()),
        // A name that is longer than the room counts as empty.
        Err(FillError::TooLong) => from_file(&rt, b""),
    }
}

fn from_file(rt: &HostRuntime, name: &[u8]) {
    let Ok(path) = str::from_utf8(name) else {
        say(rt, "FILE: name is not UTF-8");
        return;
    };
    match File::open(rt, path) {
        Ok(mut file) => from_input(rt, &mut file),
        Err(error) => say(rt, format_args!("FILE: {}", Reason(error))),
    }
}

// A line on standard error. Where it cannot be written, nothing more is said.
fn say(rt: &impl Eprint, words: impl Display + Drop) {
    let _ = eprintln!(rt; "gateway_script: {words}");
}

// The room is one byte longer than the longest script that is read.
fn from_input(rt: &(impl Print + Eprint), source: &mut impl Read) {
    let mut room = [0u8; MOST_READ + 1];
    let input = read_full(source, &mut room);
    if input.count > MOST_READ {
        say(rt, format_args!("script longer than {MOST_READ} bytes"));
        return;
    }
    replay(rt, &room[..input.count]);
}

// Where the output cannot be written, the calls go on without it.
fn replay(rt: &impl Print, script: &[u8]) {
    let mut gateway = Gateway::new(0);
    let mut room = Room::new();
    for line in script.split_inclusive(|byte| *byte == b'\n') {
        let line = line.strip_suffix(b"\n").unwrap_or(line);
        if is_operation(line) {
            let _ = match gateway.carry_out(line, &mut room) {
                Some(answer) => println!(rt; "= {answer}"),
                None => println!(rt; "= bad operation"),
            };
        }
    }
}

// Whether a line is not passed over.
fn is_operation(line: &[u8]) -> bool {
    !matches!(line, [] | [b'#' | b'=', ..])
}
