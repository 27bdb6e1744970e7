//! What a search found, and what cuts say of it.

use candidate_order::Frontier;
use cut_bounds::{Floor, RefutedParts};

/// The frontier of a collective, and what cuts say of it: its refuted candidates, parted by whether
/// a set of nodes refutes them, and how many rounds each schedule has at least for its chunk
/// count.
#[derive(Drop)]
pub struct Bounds {
    /// The points, and all refuted and unknown candidates.
    pub frontier: Frontier,
    /// The refuted candidates: those that a cut refutes, each with the first, and the others.
    pub refuted: RefutedParts,
    /// The least rounds for a chunk count, as a fraction.
    pub floor: Floor,
}
