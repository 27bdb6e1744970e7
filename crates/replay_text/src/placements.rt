//! The lines of placements: who holds which chunk.

ghost use Rattle.std.specs.Prelude.{◌≡◌, ◌<◌, ◌++◌, ◌∷◌, [], decimal, if◌then◌else◌, flat_map, OnOk};
ghost use Rattle.schedule.specs.Placed.{holds};
ghost use Rattle.text_lines.specs.Text.{line};
ghost use Rattle.replay_text.specs.{Replay.held_lines, inner.Appended.{held_by, holder_words}};

use crate::OutOfMemory;
use crate::steps::NodeLines;
use schedule::Placement;
use text_lines::{push_number_field, push_word};
use topology_text::{Name, push_node_name};

/// Appends the chunk where the node holds it.
fn push_if_held(
    out: &mut Vec<u8>,
    placement: &Placement,
    chunk: u16,
    node: u8,
) -> Result<(), OutOfMemory>
    requires chunk { chunk < placement.now.chunks }
    requires node { node < placement.now.nodes }
    ensures { OnOk result (out.new.items ≡ out.old.items ++ (if holds placement.now (chunk, node) then 32 ∷ decimal chunk else [])) }
{
    if placement.holds(chunk, node) {
        push_number_field(out, u64::from(chunk))?;
    }
    Ok(())
}

/// Appends the chunks that a node holds.
#[tactic(auto, using(crate::proofs::Lines::fields_more, std::proofs::lemmas::Grind::common_steps))]
fn push_held(out: &mut Vec<u8>, placement: &Placement, node: u8) -> Result<(), OutOfMemory>
    requires { node < placement.now.nodes }
    ensures { OnOk result (out.new.items ≡ out.old.items ++ flat_map (λ chunk. 32 ∷ decimal chunk) (held_by placement.now node)) }
{
    for chunk in 0..placement.chunks() {
        push_if_held(out, placement, chunk, node)?;
    }
    Ok(())
}

/// Appends the line of a node.
#[tactic(auto, using(crate::proofs::Lines::mapped_line, std::proofs::lemmas::Grind::common_steps))]
fn push_holder(
    out: &mut Vec<u8>,
    names: &[Name],
    placement: &Placement,
    node: u8,
) -> Result<(), OutOfMemory>
    requires { node < placement.now.nodes }
    ensures { OnOk result (out.new.items ≡ out.old.items ++ line (holder_words names.now placement.now node)) }
{
    push_node_name(out, names, node)?;
    push_held(out, placement, node)?;
    push_word(out, b"\n")
}

impl NodeLines for Placement {
    ghost lines = { held_lines };

    #[tactic(auto, using(crate::proofs::Lines::lines_more, std::proofs::lemmas::Grind::common_steps))]
    fn push_lines(&self, out: &mut Vec<u8>, names: &[Name]) -> Result<(), OutOfMemory> {
        for node in 0..self.nodes() {
            push_holder(out, names, self, node)?;
        }
        Ok(())
    }
}
