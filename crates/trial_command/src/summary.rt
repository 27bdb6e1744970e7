//! The text that sums a trial up.

ghost use Rattle.std.specs.Prelude.{◌≡◌, ◌++◌, ◌∷◌, [], codes, decimal, OnOk, IfOk};
ghost use Rattle.text_lines.specs.Text.{line};
ghost use Rattle.topology_families.specs.FamilyWords.{family_word};
ghost use Rattle.run_rules.specs.Trials.{trial_family, trial_size, trial_text};
ghost use Rattle.trial_command.specs.Counts.{events_in, points_in, refuted_in, replays_in, unknown_in};

use crate::OutOfMemory;
use crate::asked::{trial_family, trial_size};
use crate::counts::Counts;
use crate::replays::Replays;
use report_form::Report;
use report_printing::push_synth_line;
use std::alloc::Global;
use text_lines::{push_number, push_word};
use topology_families::FamilyKind;

/// Appends a label and a number.
fn push_counted(out: &mut Vec<u8>, label: &[u8], count: u64) -> Result<(), OutOfMemory>
    ensures { OnOk result (out.new.items ≡ out.old.items ++ (label.now ++ decimal count)) }
{
    push_word(out, label)?;
    push_number(out, count)?;
    Ok(())
}

/// Appends the line of the trial's number.
fn push_trial(out: &mut Vec<u8>, n: u16) -> Result<(), OutOfMemory>
    ensures { OnOk result (out.new.items ≡ out.old.items ++ line (codes "trial" ∷ decimal n ∷ [])) }
{
    push_counted(out, b"trial ", u64::from(n))?;
    push_word(out, b"\n")?;
    Ok(())
}

/// Appends the line of the family that the search was on.
fn push_family(out: &mut Vec<u8>, kind: FamilyKind, size: u8) -> Result<(), OutOfMemory>
    ensures { OnOk result (out.new.items ≡ out.old.items ++ line (codes "family" ∷ family_word kind ∷ decimal size ∷ [])) }
{
    push_word(out, b"family ")?;
    push_word(out, kind.word().as_bytes())?;
    push_counted(out, b" ", u64::from(size))?;
    push_word(out, b"\n")?;
    Ok(())
}

/// Appends the line of what was found.
fn push_counts(out: &mut Vec<u8>, counts: Counts, joined: u64) -> Result<(), OutOfMemory>
    ensures { OnOk result (out.new.items ≡ out.old.items ++ line (codes "points" ∷ decimal counts.points ∷ codes "refuted" ∷ decimal counts.refuted ∷ codes "unknown" ∷ decimal counts.unknown ∷ codes "joined" ∷ decimal joined ∷ [])) }
{
    push_counted(out, b"points ", counts.points)?;
    push_counted(out, b" refuted ", counts.refuted)?;
    push_counted(out, b" unknown ", counts.unknown)?;
    push_counted(out, b" joined ", joined)?;
    push_word(out, b"\n")?;
    Ok(())
}

/// Appends the line of the replays.
fn push_replays(out: &mut Vec<u8>, replays: Replays) -> Result<(), OutOfMemory>
    ensures { OnOk result (out.new.items ≡ out.old.items ++ line (codes "replays" ∷ decimal replays.count ∷ codes "events" ∷ decimal replays.events ∷ [])) }
{
    push_counted(out, b"replays ", replays.count)?;
    push_counted(out, b" events ", replays.events)?;
    push_word(out, b"\n")?;
    Ok(())
}

/// The text of a trial whose report was verified and replayed. The only error is `OutOfMemory`.
pub(crate) fn print_trial(
    alloc: Global,
    n: u16,
    report: &Report,
    counts: Counts,
    replays: Replays,
) -> Result<Vec<u8>, OutOfMemory>
    requires points { counts.points ≡ points_in report.now }
    requires refuted { counts.refuted ≡ refuted_in report.now }
    requires unknown { counts.unknown ≡ unknown_in report.now }
    requires count { replays.count ≡ replays_in report.now }
    requires events { replays.events ≡ events_in report.now }
    ensures { IfOk result (λ text. text.items ≡ trial_text n report.now) }
{
    let mut out = Vec::new(alloc);
    push_trial(&mut out, n)?;
    push_synth_line(&mut out, report.topology().names(), report.words())?;
    push_family(&mut out, trial_family(n), trial_size(n))?;
    push_counts(&mut out, counts, report.joined().len() as u64)?;
    push_word(&mut out, b"check verified\n")?;
    push_replays(&mut out, replays)?;
    push_word(&mut out, b"end\n")?;
    Ok(out)
}
