//! The lines of candidates: those that begin a point, and those of refuted and unknown candidates.

ghost use Rattle.std.specs.Prelude.{◌≡◌, ◌≤◌, ◌<◌, ◌+◌, Some, length, IfOk, OnOk};
ghost use Rattle.text_lines.specs.{Line.{IsIn, row_at}, Check.{line_part, Tells}};
ghost use Rattle.report_form.specs.{Fields.next_word, Points.{head_line, joined_head_line, mark_named}};
ghost use Rattle.report_lines.specs.{Asking.asks, Gives.TellsAt, Heads.head_value, Room.{HasRoom, Onward}};

use crate::candidates::{candidate_behind, candidate_of, joins};
use crate::fields::{fixed_word, next_number, no_more};
use crate::lines::{next_line, tokens_on};
use crate::question::Question;
use candidate_order::{Candidate, Mark};
use report_form::{ReportCode, ReportFault};
use text_lines::{Line, Lines, Tokens};

/// A candidate and its mark.
#[derive(Clone, Copy, Debug)]
pub struct Head {
    pub candidate: Candidate,
    pub mark: Mark,
}

/// Takes the mark of a point of a frontier.
fn next_mark(tokens: &mut Tokens<'_>) -> Result<Mark, ReportCode>
    ensures { Tells (λ mark. (mark, tokens.new.words)) result (next_word mark_named tokens.old.words) }
{
    match tokens.next_word() {
        Some(word) if word == b"optimal".as_slice() => Ok(Mark::Optimal),
        Some(word) if word == b"open".as_slice() => Ok(Mark::Open),
        _ => Err(ReportCode::BadLine),
    }
}

/// The candidate and the mark of a point, behind the last one.
fn head_on(
    text: &[u8],
    line: Line,
    question: &Question<'_>,
    last: Option<Candidate>,
) -> Result<Head, ReportCode>
    requires { IsIn text.now line }
    ensures read { Tells head_value result (head_line (asks question.now) last (Some (row_at text.now line))) }
    ensures some { IfOk result (λ head. 1 ≤ head.candidate.s) }
    ensures few { IfOk result (λ head. head.candidate.s ≤ 16) }
{
    let mut tokens = tokens_on(text, line)?;
    fixed_word(&mut tokens, b"point")?;
    let x = candidate_of(&mut tokens)?;
    let mark = next_mark(&mut tokens)?;
    no_more(&mut tokens)?;
    match candidate_behind(question, last, x) {
        Some(candidate) => Ok(Head { candidate, mark }),
        None => Err(ReportCode::Limits),
    }
}

/// Takes the line of a point's candidate.
pub fn head_part(
    lines: &mut Lines<'_>,
    question: &Question<'_>,
    last: Option<Candidate>,
) -> Result<Head, ReportFault>
    requires room { HasRoom lines.old.place }
    ensures read { TellsAt (λ head. (head_value head, lines.new.place)) result (line_part (head_line (asks question.now) last) lines.old.place) }
    ensures some { IfOk result (λ head. 1 ≤ head.candidate.s) }
    ensures few { IfOk result (λ head. head.candidate.s ≤ 16) }
    ensures text { lines.new.text ≡ lines.old.text }
    ensures onward { OnOk result (Onward lines.old.place lines.new.place) }
    ensures fewer { OnOk result (length lines.new.place.rows + 1 ≡ length lines.old.place.rows) }
{
    let text = lines.text();
    let line = next_line(lines)?;
    head_on(text, line, question, last).map_err(|code| ReportFault {
        code,
        line: line.number,
    })
}

/// The candidate of a joined point, and how many of its steps add.
fn joined_head_on(text: &[u8], line: Line, question: &Question<'_>) -> Result<Head, ReportCode>
    requires { IsIn text.now line }
    ensures read { Tells head_value result (joined_head_line (asks question.now) (Some (row_at text.now line))) }
    ensures some { IfOk result (λ head. 1 ≤ head.candidate.s) }
    ensures few { IfOk result (λ head. head.candidate.s ≤ 16) }
{
    let mut tokens = tokens_on(text, line)?;
    fixed_word(&mut tokens, b"point")?;
    let x = candidate_of(&mut tokens)?;
    fixed_word(&mut tokens, b"joined")?;
    let adding = next_number(&mut tokens)?;
    no_more(&mut tokens)?;
    match joins(question, x, adding) {
        Some(candidate) => Ok(Head {
            candidate,
            mark: Mark::Joined {
                adding: adding as u8,
            },
        }),
        None => Err(ReportCode::Limits),
    }
}

/// Takes the line of a joined point's candidate.
pub fn joined_head_part(lines: &mut Lines<'_>, question: &Question<'_>) -> Result<Head, ReportFault>
    requires room { HasRoom lines.old.place }
    ensures read { TellsAt (λ head. (head_value head, lines.new.place)) result (line_part (joined_head_line (asks question.now)) lines.old.place) }
    ensures some { IfOk result (λ head. 1 ≤ head.candidate.s) }
    ensures few { IfOk result (λ head. head.candidate.s ≤ 16) }
    ensures text { lines.new.text ≡ lines.old.text }
    ensures onward { OnOk result (Onward lines.old.place lines.new.place) }
    ensures fewer { OnOk result (length lines.new.place.rows + 1 ≡ length lines.old.place.rows) }
{
    let text = lines.text();
    let line = next_line(lines)?;
    joined_head_on(text, line, question).map_err(|code| ReportFault {
        code,
        line: line.number,
    })
}
