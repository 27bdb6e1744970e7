//! The refuted candidates of a frontier, parted by whether a cut refutes them.

ghost use Rattle.std.specs.{Prelude.{◌≡◌, ◌++◌, ◌∷◌, [], false, All, IfOk, MatchOption, OnOk}, List.Sorted.IsPermutation};
ghost use Rattle.candidate_order.specs.Frontiers.{IsWithin};
ghost use Rattle.pareto_search.specs.Recorded.{entries_of};
ghost use Rattle.node_cuts.specs.Cutting.{is_cut};
ghost use Rattle.cut_bounds.specs.{Cutting.cuts_of, Parting.{cuts_among, uncut_among, without_cuts}};

use crate::engine::CutEngine;
use candidate_order::{Candidate, Frontier};
use engine_rules::EngineView;
use node_cuts::{Cut, OutOfMemory};
use std::alloc::Global;

/// Refuted candidates, in order: those that one of the sets of nodes refutes, each with its first cut,
/// and the others.
#[derive(Drop)]
pub struct RefutedParts {
    pub cuts: Vec<(Candidate, Cut)>,
    pub others: Vec<Candidate>,
}

impl RefutedParts {
    /// Adds a candidate at the end of its part: with its first cut, or to the others where it has
    /// none.
    fn add(&mut self, candidate: Candidate, cut: Option<Cut>) -> Result<(), OutOfMemory>
        ensures cuts { OnOk result (MatchOption cut (self.new.cuts.items ≡ self.old.cuts.items) (λ first. self.new.cuts.items ≡ self.old.cuts.items ++ (candidate, first) ∷ [])) }
        ensures others { OnOk result (MatchOption cut (self.new.others.items ≡ self.old.others.items ++ candidate ∷ []) (λ first. self.new.others.items ≡ self.old.others.items)) }
    {
        match cut {
            Some(cut) => self.cuts.push((candidate, cut))?,
            None => self.others.push(candidate)?,
        }
        Ok(())
    }
}

/// After a whole search no candidate of a point, and none that was given up, is refuted by one of
/// the sets of nodes; what they refute of the engine's record is what they refute of the refuted
/// candidates; and the record of the engine below holds the rest. This does nothing.
pub fn cuts_are_refuted<E: EngineView>(engine: &CutEngine<E>, frontier: &Frontier)
    requires { IsPermutation (⟦<CutEngine<E> as EngineView>⟧.entries engine.now) (entries_of frontier.now) }
    ensures points { All (λ p. is_cut engine.now.sets (E.question engine.now.inner) p.candidate ≡ false) frontier.now.points }
    ensures unknown { All (λ u. is_cut engine.now.sets (E.question engine.now.inner) u.candidate ≡ false) frontier.now.unknown }
    ensures within { All (IsWithin (E.question engine.now.inner)) frontier.now.refuted }
    ensures cuts { IsPermutation (cuts_of engine.now.sets (E.question engine.now.inner) (⟦<CutEngine<E> as EngineView>⟧.entries engine.now)) (cuts_among engine.now.sets (E.question engine.now.inner) frontier.now.refuted) }
    ensures inner { IsPermutation (E.entries engine.now.inner) (entries_of (without_cuts engine.now.sets (E.question engine.now.inner) frontier.now)) }
{
    let _inner = engine.inner();
}

/// Parts the refuted candidates of a frontier, which the engine's search gave, by whether a cut
/// refutes them: a comparison for each set of nodes. The only error is `OutOfMemory`.
pub fn part_refuted<E: EngineView>(
    alloc: Global,
    engine: &CutEngine<E>,
    frontier: &Frontier,
) -> Result<RefutedParts, OutOfMemory>
    requires { IsPermutation (⟦<CutEngine<E> as EngineView>⟧.entries engine.now) (entries_of frontier.now) }
    ensures cuts { IfOk result (λ parts. parts.cuts.items ≡ cuts_among engine.now.sets (E.question engine.now.inner) frontier.now.refuted) }
    ensures others { IfOk result (λ parts. parts.others.items ≡ uncut_among engine.now.sets (E.question engine.now.inner) frontier.now.refuted) }
{
    cuts_are_refuted(engine, frontier);
    let mut parts = RefutedParts {
        cuts: Vec::new(alloc),
        others: Vec::new(alloc),
    };
    for candidate in frontier.refuted() {
        let cut = engine.first_cut(*candidate)?;
        parts.add(*candidate, cut)?;
    }
    Ok(parts)
}
