// A gateway, and what the operations do to it.
ghost use Rattle.std.specs.Prelude.{◌≡◌, IfNone, replicate};
ghost use Rattle.policy.specs.Words.{row_limit};
ghost use Rattle.policy_text.specs.Editions.{parse_policy};
ghost use Rattle.sad.specs.Pairs.{table_words, pairs, add_outcome, added, remove_outcome, removed};
ghost use Rattle.acceptance.specs.Spd.{spd_words, no_rules, empty_caches, accepting, spd_after, caches_after};
ghost use Rattle.spd.specs.Words.{rows_of, address_of};
ghost use Rattle.verdicts.specs.Calls.{from_sa_by};
ghost use Rattle.gateway.specs.Cached.{outbound_cached, inbound_cached};

use crate::answers::Answer;
use crate::fields::{Room, bytes, fields_of, number, word};
use acceptance::Caches;
use sad::{NewPair, TABLE_WORDS};
use selectors::{Direction, Ends, Ranges, Value};
use spd::SPD_WORDS;

#[derive(Drop)]
pub struct Gateway {
    pub policy: [u64; SPD_WORDS],
    pub table: [u64; TABLE_WORDS],
    pub caches: Caches,
}

impl Gateway {
    // A fresh gateway: its address, the policy without rows, no pair and empty caches.
    pub fn new(address: u32) -> Gateway
        ensures policy { result.policy ≡ spd_words row_limit address no_rules }
        ensures table { result.table ≡ replicate table_words 0 }
        ensures caches { result.caches ≡ empty_caches }
    {
        let mut policy = [0; SPD_WORDS];
        let caches = acceptance::fresh(&mut policy, address);
        Gateway {
            policy,
            table: [0; TABLE_WORDS],
            caches,
        }
    }

    // Carries a line out; one that is no operation changes nothing. The room is for its byte string.
    pub fn carry_out(&mut self, line: &[u8], room: &mut Room) -> Option<Answer>
        ensures { IfNone result (self.new ≡ self.old) }
    {
        let fields = fields_of(line)?;
        match fields.as_slice() {
            [b"gate", address, _] => {
                *self = Gateway::new(word(address)?);
                Some(Answer::Fresh)
            }
            [b"add", of_pair @ ..] => Some(self.add(pair_of(of_pair)?)),
            [b"remove", protocol, spi] => Some(self.remove(number(protocol)?, word(spi)?)),
            [b"policy", file] => Some(self.accept(bytes(file, room)?)),
            [b"out", packet] => Some(self.outbound(bytes(packet, room)?)),
            [b"in", packet] => Some(self.inbound(bytes(packet, room)?)),
            [b"from", protocol, spi, packet] => Some(self.from_sa(
                number(protocol)?,
                word(spi)?,
                bytes(packet, room)?,
            )),
            _ => None,
        }
    }

    fn add(&mut self, pair: NewPair) -> Answer
        ensures value { result ≡ Answer.Pair (add_outcome (pairs self.old.table) pair) }
        ensures after { self.new ≡ record self.old { table = added self.old.table pair } }
    {
        Answer::Pair(sad::add(&mut self.table, pair))
    }

    fn remove(&mut self, protocol: u64, spi: u32) -> Answer
        ensures value { result ≡ Answer.Pair (remove_outcome (pairs self.old.table) protocol spi) }
        ensures after { self.new ≡ record self.old { table = removed self.old.table protocol spi } }
    {
        Answer::Pair(sad::remove(&mut self.table, protocol, spi))
    }

    fn accept(&mut self, file: &[u8]) -> Answer
        ensures value { result ≡ Answer.Policy (accepting row_limit (parse_policy row_limit file.now)) }
        ensures caches_after { self.new.caches ≡ caches_after row_limit self.old.caches (parse_policy row_limit file.now) }
        ensures policy_after { self.new.policy ≡ spd_after row_limit row_limit self.old.policy (parse_policy row_limit file.now) }
        ensures table_after { self.new.table ≡ self.old.table }
    {
        Answer::Policy(acceptance::accept(&mut self.policy, &mut self.caches, file))
    }

    fn outbound(&mut self, packet: &[u8]) -> Answer
        ensures value { result ≡ Answer.Packet (outbound_cached self.old.caches.outbound (rows_of row_limit self.old.policy Direction.Out) (pairs self.old.table) packet.now).verdict }
        ensures after { self.new ≡ record self.old { caches = record self.old.caches { outbound = (outbound_cached self.old.caches.outbound (rows_of row_limit self.old.policy Direction.Out) (pairs self.old.table) packet.now).cache } } }
    {
        Answer::Packet(gateway::outbound(
            &self.policy,
            &self.table,
            &mut self.caches.outbound,
            packet,
        ))
    }

    fn inbound(&mut self, packet: &[u8]) -> Answer
        ensures value { result ≡ Answer.Packet (inbound_cached self.old.caches.inbound (rows_of row_limit self.old.policy Direction.In) (address_of self.old.policy) (pairs self.old.table) packet.now).verdict }
        ensures after { self.new ≡ record self.old { caches = record self.old.caches { inbound = (inbound_cached self.old.caches.inbound (rows_of row_limit self.old.policy Direction.In) (address_of self.old.policy) (pairs self.old.table) packet.now).cache } } }
    {
        Answer::Packet(gateway::inbound(
            &self.policy,
            &self.table,
            &mut self.caches.inbound,
            packet,
        ))
    }

    fn from_sa(&self, protocol: u64, spi: u32, packet: &[u8]) -> Answer
        ensures { result ≡ Answer.Packet (from_sa_by protocol spi (pairs self.now.table) packet.now) }
    {
        Answer::Packet(gateway::from_sa(&self.table, protocol, spi, packet))
    }
}

// The pair of an `add` line's fields.
fn pair_of(fields: &[&[u8]]) -> Option<NewPair> {
    let [protocol, spi_in, spi_out, named, version, ranges @ ..] = fields else {
        return None;
    };
    if number(version)? != 4 {
        return None;
    }
    Some(NewPair {
        protocol: number(protocol)?,
        spi_in: word(spi_in)?,
        spi_out: word(spi_out)?,
        number: number(named)?,
        ranges: ranges_of(ranges)?,
    })
}

fn ranges_of(fields: &[&[u8]]) -> Option<Ranges> {
    let [a, b, c, d, e, f, g, h, i, j] = fields else {
        return None;
    };
    Some(Ranges {
        local: ends(a, b)?,
        remote: ends(c, d)?,
        protocol: ends(e, f)?,
        local_port: ends(g, h)?,
        remote_port: ends(i, j)?,
    })
}

fn ends(low: &[u8], high: &[u8]) -> Option<Ends> {
    Some(Ends {
        low: value(number(low)?),
        high: value(number(high)?),
    })
}

fn value(lower: u64) -> Value {
    Value { upper: 0, lower }
}
