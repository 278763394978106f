// Writes what the reader sees in each packet of standard input. A line has a packet's bytes, each as two digits of
// hex and a space, and then a semicolon and what the packet is.
#![tactic(auto)]

ghost use Rattle.std.specs.Prelude.{◌<◌, IfSome};

use arrayvec::ArrayVec;
use packet::Packet;
use program_input::read_full;
use selectors::{Direction, Value};
use std::fmt::{Display, Formatter};
use std::{fmt, io};

// The most bytes that are read of a line's packet.
const MOST: usize = 128;

// Of standard input 65,536 bytes are read, and no more.
fn main(rt: HostRuntime) -> io::Result<()> {
    let mut room = [0u8; 65536];
    let input = read_full(&mut rt.reader(), &mut room);
    each_line(&rt, &room[..input.count])
}

fn each_line(rt: &impl Print, text: &[u8]) -> io::Result<()> {
    for line in text.split_inclusive(|byte| *byte == b'\n') {
        one_line(rt, line.strip_suffix(b"\n").unwrap_or(line))?;
    }
    Ok(())
}

fn one_line(rt: &impl Print, line: &[u8]) -> io::Result<()> {
    let bytes = decode(line);
    if let Some(name) = line.get(3 * bytes.len() + 2..) {
        rt.write_all(name)?;
    }
    println!(rt)?;
    show(rt, bytes.as_slice())
}

// The bytes of a line, up to its semicolon.
fn decode(line: &[u8]) -> ArrayVec<u8, MOST> {
    let mut bytes = ArrayVec::new();
    for chunk in line.chunks(3) {
        let [high, low, ..] = chunk else {
            break;
        };
        if *high == b';' || bytes.is_full() {
            break;
        }
        bytes.push(digit(*high) * 16 + digit(*low));
    }
    bytes
}

// A digit of hex; any other byte counts as 0. Stays: `char::to_digit` takes capitals too.
fn digit(byte: u8) -> u8
    ensures { result < 16 }
{
    match byte {
        b'0'..=b'9' => byte - b'0',
        b'a'..=b'f' => byte - b'a' + 10,
        _ => 0,
    }
}

// A packet as one that goes out, as one that comes in and as a triggering header; and its own triggering header, if
// it is an ICMP error.
fn show(rt: &impl Print, bytes: &[u8]) -> io::Result<()> {
    let inbound = packet::read(bytes, Direction::In);
    println!(rt; "  out: {}", Seen(packet::read(bytes, Direction::Out)))?;
    println!(rt; "  in: {}", Seen(inbound))?;
    println!(rt;
        "  header: {}",
        Seen(packet::read_trigger(bytes, Direction::Out))
    )?;
    if let Some(read) = inbound
        && packet::is_icmp_error(read.selectors)
    {
        let part = packet::trigger(bytes, read);
        let header = Seen(packet::read_trigger(part, Direction::Out));
        println!(rt; "  triggering header in {} bytes: {header}", part.len())?;
    }
    Ok(())
}

// What the reader sees in a packet.
#[derive(Clone, Copy)]
struct Seen(Option<Packet>);

impl Display for Seen {
    fn fmt<W: fmt::Write>(&self, f: &mut Formatter<W>) -> fmt::Result {
        let Some(read) = self.0 else {
            return f.write_str("unreadable");
        };
        let selectors = read.selectors;
        write!(
            f,
            "{:08x} {:08x}",
            selectors.local.lower, selectors.remote.lower
        )?;
        write!(f, " protocol {}", selectors.protocol.lower)?;
        write!(
            f,
            " ports {} {}",
            Port(selectors.local_port),
            Port(selectors.remote_port)
        )?;
        write!(f, " offset {}", read.offset)?;
        if read.more_fragments {
            f.write_str(" more")?;
        }
        write!(f, " upper {} to {}", read.upper, read.end)
    }
}

#[derive(Clone, Copy)]
struct Port(Value);

impl Display for Port {
    fn fmt<W: fmt::Write>(&self, f: &mut Formatter<W>) -> fmt::Result {
        let port = self.0;
        if port == selectors::ABSENT {
            f.write_str("absent")
        } else {
            write!(f, "{}", port.lower)
        }
    }
}
