// Document 01's number of each answer, and what the answer carries.
// Stays: functions, since the answers' types are other crates', and `From` and methods are written where a type is.
#![tactic(auto)]

ghost use Rattle.std.specs.Prelude.{◌≡◌};
ghost use Rattle.policy_text.specs.Editions.{refusal_number, refusal_carries};
ghost use Rattle.policy_parse.specs.Parsing.{parsed_number};
ghost use Rattle.policy_print.specs.Printing.{printed_number};
ghost use Rattle.decorrelate.specs.Form.{direction_number};
ghost use Rattle.normal_form_file.specs.Normalise.{normalised_number, normalised_carries};
ghost use Rattle.same_policy.specs.Same.{compared_number};
ghost use Rattle.acceptance.specs.Spd.{acceptance_number, acceptance_carries};
ghost use Rattle.sad.specs.Pairs.{outcome_number};
ghost use Rattle.verdicts.specs.Verdict.{verdict_number, carried};
ghost use Rattle.answer_numbers.specs.Carries.{parsed_carries, printed_carries, compared_words};

use acceptance::AcceptError;
use normal_form_file::NormaliseError;
use policy_print::NoRoom;
use policy_text::{ParseError, Refusal, Rows};
use sad::PairError;
use same_policy::CompareError;
use selectors::Direction;
use verdicts::Verdict;

pub fn direction_number(direction: Direction) -> u64
    ensures { result ≡ direction_number direction }
{
    match direction {
        Direction::Out => 1,
        Direction::In => 2,
    }
}

pub fn verdict_number(verdict: Verdict) -> u64
    ensures { result ≡ verdict_number verdict }
{
    match verdict {
        Verdict::Pass => 0,
        Verdict::Deliver => 1,
        Verdict::Protect(_, _, _) => 2,
        Verdict::Wanted(_) => 3,
        Verdict::ToIpsec(_, _) => 4,
        Verdict::NotReadable => 10,
        Verdict::Discarded => 11,
        Verdict::CameInClear => 12,
        Verdict::NoSuchPair => 13,
        Verdict::DoesNotFit => 14,
        Verdict::IpsecFragment => 15,
        Verdict::IpsecTooShort => 16,
        Verdict::TriggerUnreadable => 17,
        Verdict::TriggerDoesNotFit => 18,
    }
}

pub fn verdict_carries(verdict: Verdict) -> [u64; 3]
    ensures { result ≡ carried verdict }
{
    match verdict {
        Verdict::Protect(number, protocol, spi) => [number, protocol, spi],
        Verdict::Wanted(number) => [number, 0, 0],
        Verdict::ToIpsec(protocol, spi) => [protocol, spi, 0],
        Verdict::Pass
        | Verdict::Deliver
        | Verdict::NotReadable
        | Verdict::Discarded
        | Verdict::CameInClear
        | Verdict::NoSuchPair
        | Verdict::DoesNotFit
        | Verdict::IpsecFragment
        | Verdict::IpsecTooShort
        | Verdict::TriggerUnreadable
        | Verdict::TriggerDoesNotFit => [0, 0, 0],
    }
}

pub fn outcome_number(outcome: Result<(), PairError>) -> u64
    ensures { result ≡ outcome_number outcome }
{
    match outcome {
        Ok(()) => 5,
        Err(PairError::ReservedSpi) => 25,
        Err(PairError::AlreadyLive) => 26,
        Err(PairError::TableFull) => 27,
        Err(PairError::BadPair) => 28,
        Err(PairError::NothingToRemove) => 29,
    }
}

pub fn refusal_number(refusal: Refusal) -> u64
    ensures { result ≡ refusal_number refusal }
{
    match refusal {
        Refusal::NotHeader => 23,
        Refusal::NotEnded => 24,
        Refusal::TooMany => 21,
        Refusal::BadRow(_) => 20,
    }
}

pub fn refusal_carries(refusal: Refusal) -> u64
    ensures { result ≡ refusal_carries refusal }
{
    match refusal {
        Refusal::NotHeader | Refusal::NotEnded | Refusal::TooMany => 0,
        Refusal::BadRow(row) => row as u64,
    }
}

pub fn parsed_number(parsed: Result<Rows, ParseError>) -> u64
    ensures { result ≡ parsed_number parsed }
{
    match parsed {
        Ok(_rows) => 5,
        Err(ParseError::Refused(refusal)) => refusal_number(refusal),
        Err(ParseError::NoRoom) => 31,
    }
}

pub fn parsed_carries(parsed: Result<Rows, ParseError>) -> u64
    ensures { result ≡ parsed_carries parsed }
{
    match parsed {
        Ok(rows) => rows.count as u64,
        Err(ParseError::Refused(refusal)) => refusal_carries(refusal),
        Err(ParseError::NoRoom) => 0,
    }
}

pub fn printed_number(printed: Result<usize, NoRoom>) -> u64
    ensures { result ≡ printed_number printed }
{
    match printed {
        Ok(_bytes) => 5,
        Err(NoRoom) => 31,
    }
}

pub fn printed_carries(printed: Result<usize, NoRoom>) -> u64
    ensures { result ≡ printed_carries printed }
{
    match printed {
        Ok(bytes) => bytes as u64,
        Err(NoRoom) => 0,
    }
}

pub fn normalised_number(normalised: Result<usize, NormaliseError>) -> u64
    ensures { result ≡ normalised_number normalised }
{
    match normalised {
        Ok(_length) => 5,
        Err(NormaliseError::Refused(refusal)) => refusal_number(refusal),
        Err(NormaliseError::TooLarge(_)) => 22,
        Err(NormaliseError::NoRoom) => 31,
    }
}

pub fn normalised_carries(normalised: Result<usize, NormaliseError>) -> u64
    ensures { result ≡ normalised_carries normalised }
{
    match normalised {
        Ok(length) => length as u64,
        Err(NormaliseError::Refused(refusal)) => refusal_carries(refusal),
        Err(NormaliseError::TooLarge(direction)) => direction_number(direction),
        Err(NormaliseError::NoRoom) => 0,
    }
}

pub fn acceptance_number(acceptance: Result<(), AcceptError>) -> u64
    ensures { result ≡ acceptance_number acceptance }
{
    match acceptance {
        Ok(()) => 5,
        Err(AcceptError::Refused(refusal)) => refusal_number(refusal),
        Err(AcceptError::TooLarge(_)) => 22,
    }
}

pub fn acceptance_carries(acceptance: Result<(), AcceptError>) -> u64
    ensures { result ≡ acceptance_carries acceptance }
{
    match acceptance {
        Ok(()) => 0,
        Err(AcceptError::Refused(refusal)) => refusal_carries(refusal),
        Err(AcceptError::TooLarge(direction)) => direction_number(direction),
    }
}

pub fn compared_number(compared: Result<bool, CompareError>) -> u64
    ensures { result ≡ compared_number compared }
{
    match compared {
        Ok(_same) => 5,
        Err(CompareError::First(refusal)) => refusal_number(refusal),
        Err(CompareError::Second(refusal)) => refusal_number(refusal),
    }
}

pub fn compared_carries(compared: Result<bool, CompareError>) -> [u64; 2]
    ensures { result ≡ compared_words compared }
{
    match compared {
        Ok(true) => [1, 0],
        Ok(false) => [0, 0],
        Err(CompareError::First(refusal)) => [refusal_carries(refusal), 1],
        Err(CompareError::Second(refusal)) => [refusal_carries(refusal), 2],
    }
}
