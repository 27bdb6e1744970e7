ghost use Rattle.std.specs.Prelude.{◌≡◌, IfSome};
ghost use Rattle.collective_spec.specs.Kinds.{number_of, word_of, kind_rows, takes_root, is_custom, allows};

use case_table::{Table, table};

/// A collective operation.
#[derive(Clone, Copy, Debug, PartialEq, Eq)]
pub enum Kind {
    /// The root's chunks go to every node.
    Broadcast,
    /// Each node's chunks go to the root.
    Gather,
    /// Each node's chunks go to every node.
    Allgather,
    /// The root's chunks go to one node each.
    Scatter,
    /// Each node's chunks go to one node each.
    Alltoall,
    /// The sums over all nodes go to the root.
    Reduce,
    /// The sums over all nodes go to one node each.
    Reducescatter,
    /// The sums over all nodes go to every node.
    Allreduce,
    /// Chunks go from the nodes that users say to the nodes that they say.
    Custom,
}

#[tactic(auto, using(crate::proofs::KindRows::number_found, crate::proofs::KindRows::word_found))]
impl Kind {
    /// The number of the kind, from 0 to 8 in the order of the variants.
    pub fn number(self) -> u32
        ensures { result ≡ number_of self }
    {
        self as u32
    }

    /// The kind with this number; `None` exactly where the number is above 8.
    pub fn of_number(number: u32) -> Option<Kind>
        ensures numbered { IfSome result (λ kind. number_of kind ≡ number) }
        ensures known { (kind : Kind) → number_of kind ≡ number → result ≡ Some kind }
    {
        match number {
            0 => Some(Kind::Broadcast),
            1 => Some(Kind::Gather),
            2 => Some(Kind::Allgather),
            3 => Some(Kind::Scatter),
            4 => Some(Kind::Alltoall),
            5 => Some(Kind::Reduce),
            6 => Some(Kind::Reducescatter),
            7 => Some(Kind::Allreduce),
            8 => Some(Kind::Custom),
            _ => None,
        }
    }

    /// The name of the kind, in lower case.
    pub fn word(self) -> &'static str
        ensures { result.now ≡ word_of self }
    {
        words().word_of(self.number()).unwrap()
    }

    /// The kind with this name; `None` exactly where no kind has it.
    pub fn of_word(word: &str) -> Option<Kind>
        ensures named { IfSome result (λ kind. word_of kind ≡ word.now) }
        ensures known { (kind : Kind) → word_of kind ≡ word.now → result ≡ Some kind }
    {
        match words().find(word) {
            Some(number) => Kind::of_number(number),
            None => None,
        }
    }
}

/// The names of the kinds, and their numbers.
fn words() -> Table
    ensures { result ≡ kind_rows }
{
    table![
        "broadcast" => 0,
        "gather" => 1,
        "allgather" => 2,
        "scatter" => 3,
        "alltoall" => 4,
        "reduce" => 5,
        "reducescatter" => 6,
        "allreduce" => 7,
        "custom" => 8,
    ]
}

/// Whether one node is the root of such a collective.
pub fn takes_root(kind: Kind) -> bool
    ensures { result ≡ takes_root kind }
{
    matches!(
        kind,
        Kind::Broadcast | Kind::Gather | Kind::Scatter | Kind::Reduce
    )
}

/// Whether users give where the chunks of such a collective are before, and where they have to be
/// after.
pub fn is_custom(kind: Kind) -> bool
    ensures { result ≡ is_custom kind }
{
    matches!(kind, Kind::Custom)
}

/// Whether such a collective may have the chunk count `c`: it is at least 1, and for an
/// all-to-all a multiple of the number of nodes.
pub fn allows(kind: Kind, nodes: u8, c: u8) -> bool
    ensures { result ≡ allows kind nodes c }
{
    match kind {
        Kind::Alltoall => c >= 1 && c.is_multiple_of(nodes),
        Kind::Broadcast
        | Kind::Gather
        | Kind::Allgather
        | Kind::Scatter
        | Kind::Reduce
        | Kind::Reducescatter
        | Kind::Allreduce
        | Kind::Custom => c >= 1,
    }
}
