// The parser of policy files (document 01, 'The policy file').
#![tactic(auto)]

ghost use Rattle.std.specs.Prelude.{◌≡◌, ◌*◌, ◌≤◌, length, drop, MatchResult};
ghost use Rattle.std.proofs.lemmas.List.Edits.{sets};
ghost use Rattle.policy.specs.Words.{row_words, row_limit};
ghost use Rattle.policy_text.specs.Format.{lines_of, rows_of};
ghost use Rattle.policy_text.specs.Edition1.{edition1};
ghost use Rattle.policy_text.specs.Editions.{refused, parse_policy};
ghost use Rattle.policy_fields.specs.Answers.{text_words};
ghost use Rattle.policy_parse.specs.FileLaws.{FileIs};
ghost use Rattle.policy_parse.specs.Parsing.{bad_of, written, file_of, file_room, parsed_in, parsed_room};

use policy::{LIMIT, POLICY_WORDS, ROW_WORDS, Row, put_row};
use policy_fields::row;
use policy_text::{Edition, ParseError, Refusal, Rows, after, before, count};

const HEADER: &[u8; 9] = b"policy\t1\n";

// The refusal of the first bad row of that many lines, if there is one.
#[tactic(auto, using(crate::specs::RowsLaws::lines), unfolding(policy_text::specs::Format::rows_of))]
fn check_rows(body: &[u8], count: usize) -> Result<(), Refusal>
    ensures { result ≡ bad_of (rows_of edition1 1 (lines_of count body.now)) }
{
    let mut rest = body;
    for i in 0..count {
        row(before(rest, b'\n')).ok_or(Refusal::BadRow(i + 1))?;
        rest = after(rest, b'\n');
    }
    Ok(())
}

// The words of a row at their place; a bad row has none.
fn put_text(rows: &mut [u64], at: usize, text: Option<Row>)
    ensures { rows.new ≡ sets rows.old at (text_words text) }
{
    if let Some(row) = text {
        put_row(rows, at, row);
    }
}

// The words of that many rows, from the start of the room.
#[tactic(auto, using(crate::specs::RowsLaws::lines))]
fn put_rows(body: &[u8], count: usize, rows: &mut [u64])
    requires { count * row_words ≤ length rows.old }
    ensures { rows.new ≡ written rows.old 0 (lines_of count body.now) }
{
    let mut rest = body;
    for i in 0..count {
        put_text(rows, i * ROW_WORDS, row(before(rest, b'\n')));
        rest = after(rest, b'\n');
    }
}

// What a file is: its refusal, by the tests in their order, or its edition, the count of its rows, and the text of its rows.
#[tactic(auto, using(crate::specs::FileLaws::unheaded, crate::specs::FileLaws::unended, crate::specs::FileLaws::beyond, crate::specs::FileLaws::with_bad, crate::specs::FileLaws::with_rows))]
fn examine(bytes: &[u8], limit: usize) -> Result<(Rows, &[u8]), Refusal>
    ensures { MatchResult result
        (λ file. FileIs (parse_policy limit bytes.now) (Ok file.0) × (file.1.now ≡ drop 9 bytes.now))
        (λ refusal. parse_policy limit bytes.now ≡ refused refusal) }
{
    let Some(body) = bytes.strip_prefix(HEADER) else {
        return Err(Refusal::NotHeader);
    };
    if !bytes.ends_with(b"\n") {
        return Err(Refusal::NotEnded);
    }
    let count = count(body, b'\n');
    if limit < count {
        return Err(Refusal::TooMany);
    }
    check_rows(body, count)?;
    let rows = Rows {
        edition: Edition::One,
        count,
    };
    Ok((rows, body))
}

// The rows of a policy file as words, at the start of the lent room; on any refusal, and where the rows do not fit, the room is left alone.
pub fn parse(bytes: &[u8], limit: usize, rows: &mut [u64]) -> Result<Rows, ParseError>
    ensures value { result ≡ parsed_in (length rows.old) (parse_policy limit bytes.now) }
    ensures rows_after { rows.new ≡ parsed_room rows.old (parse_policy limit bytes.now) }
{
    let (policy, body) = examine(bytes, limit)?;
    if rows.len() / ROW_WORDS < policy.count {
        return Err(ParseError::NoRoom);
    }
    put_rows(body, policy.count, rows);
    Ok(policy)
}

// The same into a room for the limit's rows, which no policy is too long for.
pub fn parse_policy(bytes: &[u8], rows: &mut [u64; POLICY_WORDS]) -> Result<Rows, Refusal>
    ensures value { result ≡ file_of (parse_policy row_limit bytes.now) }
    ensures rows_after { rows.new ≡ file_room rows.old (parse_policy row_limit bytes.now) }
{
    let (policy, body) = examine(bytes, LIMIT)?;
    put_rows(body, policy.count, rows);
    Ok(policy)
}
