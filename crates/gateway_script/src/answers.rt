// The answer to an operation: document 01's number, and what the answer carries.
use acceptance::AcceptError;
use policy_text::Refusal;
use sad::PairError;
use selectors::Direction;
use std::fmt;
use std::fmt::{Display, Formatter};
use verdicts::Verdict;

#[derive(Clone, Copy)]
pub enum Answer {
    Fresh,
    Policy(Result<(), AcceptError>),
    Pair(Result<(), PairError>),
    Packet(Verdict),
}

impl Display for Answer {
    fn fmt<W: fmt::Write>(&self, f: &mut Formatter<W>) -> fmt::Result {
        match *self {
            Answer::Fresh => f.write_str("ok"),
            Answer::Policy(accepted) => {
                write!(f, "{}", answer_numbers::acceptance_number(accepted))?;
                match accepted {
                    Err(AcceptError::Refused(Refusal::BadRow(row))) => write!(f, " {row}"),
                    Err(AcceptError::TooLarge(Direction::Out)) => f.write_str(" out"),
                    Err(AcceptError::TooLarge(Direction::In)) => f.write_str(" in"),
                    _ => Ok(()),
                }
            }
            Answer::Pair(outcome) => write!(f, "{}", answer_numbers::outcome_number(outcome)),
            Answer::Packet(verdict) => {
                write!(f, "{}", answer_numbers::verdict_number(verdict))?;
                match verdict {
                    Verdict::Protect(number, protocol, spi) => write!(
                        f,
                        " {number} {protocol} {spi}"
                    ),
                    Verdict::Wanted(number) => write!(f, " {number}"),
                    Verdict::ToIpsec(protocol, spi) => write!(f, " {protocol} {spi}"),
                    _ => Ok(()),
                }
            }
        }
    }
}
