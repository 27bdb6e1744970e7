//! The line of a point's rounds.

ghost use Rattle.std.specs.{Prelude.{◌≡◌, ◌≤◌, ◌&&◌, All, Some, length, nat_le, sum, IfOk, OnOk}, List.list_all};
ghost use Rattle.text_lines.specs.{Line.{IsIn, row_at}, Check.{Gives, line_part}};
ghost use Rattle.report_form.specs.Points.{are_rounds, numbers_from, rounds_line};
ghost use Rattle.frontier_report.specs.inner.Gives.{Reads};
ghost use Rattle.report_lines.specs.Room.{HasRoom, Onward};

use crate::report_stop::ReportStop;
use candidate_order::Candidate;
use report_form::{ReportCode, ReportFault};
use report_lines::{fixed_word, next_line, small_number, tokens_on};
use std::alloc::{AllocError, Global};
use text_lines::{Line, Lines, Stop, Tokens};

/// The numbers that are left on the line.
fn numbers_of(alloc: Global, tokens: &mut Tokens<'_>) -> Result<Vec<u16>, Stop<ReportCode>>
    ensures { Gives (λ v. v.items) result (numbers_from tokens.old.words) }
{
    let mut numbers = Vec::new(alloc);
    while let Some(token) = tokens.next_word() {
        match small_number(token) {
            Ok(number) => numbers.push(number)?,
            Err(code) => return Err(Stop::Refused(code)),
        }
    }
    Ok(numbers)
}

/// Whether each number is from 1 to 9.
fn are_few(rounds: &[u16]) -> bool
    ensures { result ≡ list_all (λ n. nat_le 1 n && nat_le n 9) rounds.now }
{
    for n in rounds {
        if *n < 1 || *n > 9 {
            return false;
        }
    }
    true
}

fn sum_of(rounds: &[u16]) -> u64
    requires { length rounds.now ≤ 255 }
    ensures { result ≡ sum rounds.now }
{
    rounds.iter().map(|n| u64::from(*n)).sum()
}

/// Whether there is a number for each step, each from 1 to 9, and all of them together are the
/// candidate's rounds.
fn are_rounds(candidate: Candidate, rounds: &[u16]) -> bool
    ensures { result ≡ are_rounds candidate rounds.now }
{
    if rounds.len() != usize::from(candidate.s) || !are_few(rounds) {
        return false;
    }
    sum_of(rounds) == u64::from(candidate.r)
}

/// The numbers, each in a byte.
fn bytes_of(alloc: Global, rounds: &[u16]) -> Result<Vec<u8>, AllocError>
    requires { All (λ n. n ≤ 9) rounds.now }
    ensures { IfOk result (λ v. v.items ≡ rounds.now) }
{
    let mut bytes = Vec::new(alloc);
    for n in rounds {
        bytes.push(*n as u8)?;
    }
    Ok(bytes)
}

/// The rounds of each step of the candidate.
fn rounds_on(
    alloc: Global,
    text: &[u8],
    line: Line,
    candidate: Candidate,
) -> Result<Vec<u8>, Stop<ReportCode>>
    requires { IsIn text.now line }
    ensures { Gives (λ v. v.items) result (rounds_line candidate (Some (row_at text.now line))) }
{
    let mut tokens = match tokens_on(text, line) {
        Ok(tokens) => tokens,
        Err(code) => return Err(Stop::Refused(code)),
    };
    if let Err(code) = fixed_word(&mut tokens, b"rounds") {
        return Err(Stop::Refused(code));
    }
    let rounds = numbers_of(alloc, &mut tokens)?;
    if are_rounds(candidate, &rounds) {
        Ok(bytes_of(alloc, &rounds)?)
    } else {
        Err(Stop::Refused(ReportCode::Limits))
    }
}

/// Takes the line of the rounds.
pub fn rounds_part(
    alloc: Global,
    lines: &mut Lines<'_>,
    candidate: Candidate,
) -> Result<Vec<u8>, ReportStop>
    requires room { HasRoom lines.old.place }
    ensures read { Reads (λ v. (v.items, lines.new.place)) result (line_part (rounds_line candidate) lines.old.place) }
    ensures text { lines.new.text ≡ lines.old.text }
    ensures onward { OnOk result (Onward lines.old.place lines.new.place) }
{
    let text = lines.text();
    let line = next_line(lines)?;
    match rounds_on(alloc, text, line, candidate) {
        Ok(rounds) => Ok(rounds),
        Err(Stop::Memory) => Err(ReportStop::Memory),
        Err(Stop::Refused(code)) => Err(ReportStop::Refused(ReportFault {
            code,
            line: line.number,
        })),
    }
}
