//! The lines of a point's sends.

ghost use Rattle.std.specs.{Prelude.{◌≡◌, ◌≤◌, Some, None, if◌then◌else◌, length}, List.last_or};
ghost use Rattle.text_lines.specs.{Line.{IsIn, row_at}, Check.{Tells, line_part}};
ghost use Rattle.report_form.specs.Points.{follows, may_be_sent, send_from, send_line};
ghost use Rattle.frontier_report.specs.inner.Wide.{chunks_of, hop_of};

use crate::repeats::Repeats;
use crate::report_stop::ReportStop;
use candidate_order::Candidate;
use indexmap::IndexSet;
use report_form::{ReportCode, ReportFault};
use report_lines::{Question, fixed_word, next_line, next_node, next_number, no_more, tokens_on};
use schedule::{Hop, hop_cmp};
use text_lines::{Line, Lines, Tokens};
use topology_text::Name;

/// A send between two nodes of the topology, as a line spells it: its numbers are at most 65,535,
/// and no rule was tested yet.
#[derive(Clone, Copy, Debug)]
pub struct WideHop {
    pub chunk: u16,
    pub from: u8,
    pub to: u8,
    pub step: u16,
}

/// What reads the sends of a candidate's schedule.
#[derive(Clone, Copy)]
pub struct Sends<'a> {
    pub names: &'a IndexSet<Name>,
    pub question: &'a Question<'a>,
    pub candidate: Candidate,
    ghost few: { length names.now.keys ≤ 16 },
}

/// Takes the shape of the line.
fn send_of(tokens: &mut Tokens<'_>, names: &IndexSet<Name>) -> Result<WideHop, ReportCode>
    requires { length names.now.keys ≤ 16 }
    ensures { Tells hop_of result (send_from names.now.keys tokens.old.words) }
{
    fixed_word(tokens, b"send")?;
    let chunk = next_number(tokens)?;
    let from = next_node(tokens, names)?;
    let to = next_node(tokens, names)?;
    let step = next_number(tokens)?;
    no_more(tokens)?;
    Ok(WideHop {
        chunk,
        from,
        to,
        step,
    })
}

/// Whether a send stands behind the last of those before it, if there is one.
#[tactic(auto, using(crate::proofs::Turns::last_of))]
fn follows(before: &[Hop], hop: Hop) -> bool
    ensures { result ≡ follows (last_or None before.now) hop }
{
    match before.last() {
        None => true,
        Some(last) => hop_cmp(last, &hop).is_lt(),
    }
}

impl Sends<'_> {
    /// The send, where its chunk and its step are in range: chunks are numbered from 0, steps
    /// from 1.
    fn in_range(&self, h: WideHop) -> Option<Hop>
        ensures { result ≡ (if may_be_sent (chunks_of self.now.question.now self.now.candidate) self.now.candidate.s (hop_of h) then Some (hop_of h) else None) }
    {
        let chunks = self.question.chunks(self.candidate.c);
        if h.chunk >= chunks || h.step < 1 || h.step > u16::from(self.candidate.s) {
            return None;
        }
        Some(Hop {
            chunk: h.chunk,
            from: h.from,
            to: h.to,
            step: h.step as u8,
        })
    }

    /// A send, behind those before it.
    fn send_on(&self, text: &[u8], line: Line, before: &[Hop]) -> Result<Hop, ReportCode>
        requires { IsIn text.now line }
        ensures { Tells (λ hop. hop) result (send_line self.now.names.now.keys (chunks_of self.now.question.now self.now.candidate) self.now.candidate.s before.now (Some (row_at text.now line))) }
    {
        let mut tokens = tokens_on(text, line)?;
        let wide = send_of(&mut tokens, self.names)?;
        match self.in_range(wide) {
            Some(hop) if follows(before, hop) => Ok(hop),
            _ => Err(ReportCode::Limits),
        }
    }
}

impl Repeats for Sends<'_> {
    type Item = Hop;

    ghost part_at = { λ sends before. line_part (send_line sends.names.now.keys (chunks_of sends.question.now sends.candidate) sends.candidate.s before) };

    fn read(&self, lines: &mut Lines<'_>, before: &[Hop]) -> Result<Hop, ReportStop> {
        let text = lines.text();
        let line = next_line(lines)?;
        let hop = self
            .send_on(text, line, before)
            .map_err(|code| ReportFault {
                code,
                line: line.number,
            })?;
        Ok(hop)
    }
}
