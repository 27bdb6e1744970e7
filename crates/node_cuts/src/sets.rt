//! Which sets of nodes are looked at.

ghost use Rattle.std.specs.Prelude.{◌≡◌};
ghost use Rattle.node_cuts.specs.Cutting.{sets_for};

use candidate_order::Pruning;

/// Which sets of nodes are looked at.
#[derive(Clone, Copy, Debug, PartialEq, Eq)]
pub enum Sets {
    /// None.
    Nothing,
    /// Each one node, each two nodes, and all nodes but these.
    Listed,
    /// Each set but the empty one.
    All,
}

impl Sets {
    /// The sets that a search looks at: every set where it may leave out what cuts refute, and
    /// else none.
    pub fn of(pruning: Pruning) -> Sets
        ensures { result ≡ sets_for pruning }
    {
        if pruning.cuts {
            Sets::All
        } else {
            Sets::Nothing
        }
    }
}
