//! Parts that repeat: each begins with a word, and stands behind those before it.

ghost use Rattle.std.specs.Prelude.{◌≡◌, ℕ, ◌≤◌, ◌<◌, List, Result, length, OnOk};
ghost use Rattle.text_lines.specs.{Text.Place, Repeated.parts_at};
ghost use Rattle.report_form.specs.declared.fault.ReportCode.{ReportCode};
ghost use Rattle.report_lines.specs.Room.{HasRoom, Onward};
ghost use Rattle.frontier_report.specs.inner.Gives.{Reads};

use crate::report_stop::ReportStop;
use report_lines::next_begins;
use std::alloc::Global;
use text_lines::Lines;

/// What reads the parts of one kind.
pub trait Repeats {
    type Item: Drop;

    // A part behind those before it, and the place behind it.
    ghost part_at: { Self → List Self.Item → Place → Result (Self.Item × Place) (ReportCode × ℕ) };

    /// Takes a part, behind those before it.
    fn read(&self, lines: &mut Lines<'_>, before: &[Self::Item]) -> Result<Self::Item, ReportStop>
        requires room { HasRoom lines.old.place }
        ensures read { Reads (λ item. (item, lines.new.place)) result (part_at self.now before.now lines.old.place) }
        ensures text { lines.new.text ≡ lines.old.text }
        ensures onward { OnOk result (Onward lines.old.place lines.new.place) }
        ensures fewer { OnOk result (length lines.new.place.rows < length lines.old.place.rows) };
}

/// Takes the parts that begin with the word, up to the first line that doesn't.
pub fn repeated<R: Repeats>(
    alloc: Global,
    lines: &mut Lines<'_>,
    word: &[u8],
    reader: &R,
) -> Result<Vec<R::Item>, ReportStop>
    requires room { HasRoom lines.old.place }
    ensures read { Reads (λ v. (v.items, lines.new.place)) result (parts_at word.now (R.part_at reader.now) lines.old.place) }
    ensures text { lines.new.text ≡ lines.old.text }
    ensures onward { OnOk result (Onward lines.old.place lines.new.place) }
    ensures fewer { OnOk result (length lines.new.place.rows ≤ length lines.old.place.rows) }
{
    let mut items = Vec::new(alloc);
    while next_begins(lines, word) {
        let item = reader.read(lines, &items)?;
        items.push(item)?;
    }
    Ok(items)
}
