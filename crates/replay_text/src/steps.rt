//! The lines of steps: what the nodes have after each of them.

ghost use Rattle.std.specs.Prelude.{◌≡◌, ℕ, ◌++◌, List, map, OnOk};
ghost use Rattle.text_lines.specs.Text.{text_of};
ghost use Rattle.replay_text.specs.{Replay.numbered_steps, inner.Appended.last_of};

use crate::OutOfMemory;
use crate::words::push_numbered;
use topology_text::Name;

/// What the nodes have after a step.
pub(crate) trait NodeLines {
    // A line for each node.
    ghost lines: { List (List ℕ) → Self → List (List (List ℕ)) };

    /// Appends the line of each node.
    fn push_lines(&self, out: &mut Vec<u8>, names: &[Name]) -> Result<(), OutOfMemory>
        ensures { OnOk result (out.new.items ≡ out.old.items ++ text_of (lines names.now self.now)) };
}

/// Appends the lines of all steps, from step 0 on.
pub(crate) fn push_steps<N: NodeLines>(
    out: &mut Vec<u8>,
    names: &[Name],
    run: &[N],
) -> Result<(), OutOfMemory>
    ensures { OnOk result (out.new.items ≡ out.old.items ++ text_of (numbered_steps 0 (map (N.lines names.now) run.now))) }
{
    for (step, after) in run.iter().enumerate() {
        push_numbered(out, b"step", step as u64)?;
        after.push_lines(out, names)?;
    }
    Ok(())
}

/// Appends the lines of the nodes after the last step.
#[tactic(auto, using(crate::proofs::Lines::last_is))]
pub(crate) fn push_last<N: NodeLines>(
    out: &mut Vec<u8>,
    names: &[Name],
    run: &[N],
) -> Result<(), OutOfMemory>
    ensures { OnOk result (out.new.items ≡ out.old.items ++ text_of (last_of (map (N.lines names.now) run.now))) }
{
    match run.last() {
        Some(after) => after.push_lines(out, names),
        None => Ok(()),
    }
}
