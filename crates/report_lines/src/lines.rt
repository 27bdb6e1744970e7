//! Single lines: whether they are there, whether a line feed ended them, and what they begin with.

ghost use Rattle.std.specs.Prelude.{◌≡◌, ◌+◌, [], Some, length, IfOk, IfErr, OnOk};
ghost use Rattle.text_lines.specs.{Text.behind, Line.{IsIn, row_at}, Check.{first, line_part, Tells}, Repeated.{begins, row_begins}};
ghost use Rattle.report_form.specs.{Lines.{fixed_line, no_line, tokens_line}, Reading.version_line};
ghost use Rattle.report_lines.specs.{Gives.TellsAt, Room.{HasRoom, Onward}};

use report_form::{ReportCode, ReportFault};
use text_lines::{Line, Lines, Tokens, tokens_of};

/// The tokens of a line that a line feed ended.
pub fn tokens_on(text: &[u8], line: Line) -> Result<Tokens<'_>, ReportCode>
    requires { IsIn text.now line }
    ensures { Tells (λ tokens. tokens.words) result (tokens_line (Some (row_at text.now line))) }
{
    if line.whole {
        Ok(tokens_of(text, line))
    } else {
        Err(ReportCode::Truncated)
    }
}

/// Takes the next line, which is to be there.
pub fn next_line(lines: &mut Lines<'_>) -> Result<Line, ReportFault>
    requires room { HasRoom lines.old.place }
    ensures some { IfOk result (λ line. first lines.old.place.rows ≡ Some (row_at lines.old.text line)) }
    ensures span { IfOk result (λ line. IsIn lines.old.text line) }
    ensures number { IfOk result (λ line. line.number ≡ lines.old.place.number) }
    ensures moves { OnOk result (lines.new.place ≡ behind lines.old.place) }
    ensures onward { OnOk result (Onward lines.old.place lines.new.place) }
    ensures fewer { OnOk result (length lines.new.place.rows + 1 ≡ length lines.old.place.rows) }
    ensures none { IfErr result (λ _. lines.old.place.rows ≡ []) }
    ensures fault { IfErr result (λ fault. fault ≡ record { code = ReportCode.Truncated; line = lines.old.place.number }) }
    ensures text { lines.new.text ≡ lines.old.text }
{
    let number = lines.number();
    match lines.next() {
        Some(line) => Ok(line),
        None => Err(ReportFault {
            code: ReportCode::Truncated,
            line: number,
        }),
    }
}

/// Whether the line is these bytes.
fn is_line(text: &[u8], line: Line, bytes: &[u8]) -> Result<(), ReportCode>
    requires { IsIn text.now line }
    ensures { Tells (λ u. u) result (fixed_line bytes.now (Some (row_at text.now line))) }
{
    if !line.whole {
        return Err(ReportCode::Truncated);
    }
    if &text[line.start..line.end] == bytes {
        Ok(())
    } else {
        Err(ReportCode::BadLine)
    }
}

/// Takes a line that is known.
pub fn fixed_part(lines: &mut Lines<'_>, bytes: &[u8]) -> Result<(), ReportFault>
    requires room { HasRoom lines.old.place }
    ensures read { TellsAt (λ _. (tt, lines.new.place)) result (line_part (fixed_line bytes.now) lines.old.place) }
    ensures text { lines.new.text ≡ lines.old.text }
    ensures onward { OnOk result (Onward lines.old.place lines.new.place) }
{
    let text = lines.text();
    let line = next_line(lines)?;
    is_line(text, line, bytes).map_err(|code| ReportFault {
        code,
        line: line.number,
    })
}

/// Whether the line says version 2, which is that of reports with a pattern.
fn version_on(text: &[u8], line: Line) -> Result<bool, ReportCode>
    requires { IsIn text.now line }
    ensures { Tells (λ patterned. patterned) result (version_line (Some (row_at text.now line))) }
{
    if !line.whole {
        return Err(ReportCode::Truncated);
    }
    let bytes = &text[line.start..line.end];
    if bytes == b"sccl 1".as_slice() {
        Ok(false)
    } else if bytes == b"sccl 2".as_slice() {
        Ok(true)
    } else {
        Err(ReportCode::BadLine)
    }
}

/// Takes the first line, and says whether it is that of version 2.
pub fn version_part(lines: &mut Lines<'_>) -> Result<bool, ReportFault>
    requires room { HasRoom lines.old.place }
    ensures read { TellsAt (λ patterned. (patterned, lines.new.place)) result (line_part version_line lines.old.place) }
    ensures text { lines.new.text ≡ lines.old.text }
    ensures onward { OnOk result (Onward lines.old.place lines.new.place) }
{
    let text = lines.text();
    let line = next_line(lines)?;
    version_on(text, line).map_err(|code| ReportFault {
        code,
        line: line.number,
    })
}

/// Whether the line begins with the word.
fn begins(text: &[u8], line: Line, word: &[u8]) -> bool
    requires { IsIn text.now line }
    ensures { result ≡ begins word.now (row_at text.now line).bytes }
{
    text[line.start..line.end].starts_with(word)
}

/// Whether there is a next line that begins with the word.
pub fn next_begins(lines: &Lines<'_>, word: &[u8]) -> bool
    ensures { result ≡ row_begins word.now (first lines.now.place.rows) }
{
    match lines.peek() {
        Some(line) => begins(lines.text(), line, word),
        None => false,
    }
}

/// No line is left.
pub fn last_part(lines: &Lines<'_>) -> Result<(), ReportFault>
    ensures { TellsAt (λ _. (tt, behind lines.now.place)) result (line_part no_line lines.now.place) }
{
    match lines.peek() {
        None => Ok(()),
        Some(line) => Err(ReportFault {
            code: if line.whole {
                ReportCode::BadLine
            } else {
                ReportCode::Truncated
            },
            line: line.number,
        }),
    }
}
