ghost use Rattle.std.specs.{Prelude.{◌≡◌, ◌==◌, ◌^◌, ◌<◌, ◌≤◌, [], length, drop, map, sum, slice_get, slice_index_or, slice_set, MatchOption}, List.list_all};

use crate::op::Op;
use crate::program::Program;
use std::marker::Model;

/// The program of each node: the operations that it has still to do.
#[derive(Clone, Debug, Drop)]
pub struct Programs {
    programs: Vec<Program>,
}

impl Model for Programs {
    ghost use Rattle.std.specs.Prelude.{List};
    ghost use Rattle.node_programs.specs.declared.op.Op.{Op};

    ghost Value = { List (List Op) };

    ghost view = { λ p. p.programs.items };
}

impl Programs {
    pub(crate) fn new(programs: Vec<Program>) -> Programs
        ensures { result ≡ programs.items }
    {
        Programs { programs }
    }

    pub(crate) fn as_slice(&self) -> &[Program]
        ensures { result.now ≡ self.now }
    {
        &self.programs
    }

    /// The operations that a node has still to do.
    pub fn left(&self, node: u8) -> &[Op]
        requires { node < length self.now }
        ensures { result.now ≡ slice_index_or self.now node [] }
    {
        self.programs[node as usize].left()
    }

    /// A node's next operation, if one is left.
    pub fn next(&self, node: u8) -> Option<Op>
        requires { node < length self.now }
        ensures { result ≡ slice_get (slice_index_or self.now node []) 0 }
    {
        self.programs[node as usize].next()
    }

    /// How many operations there are in all. `None` comes exactly where the number is 2^64 or
    /// greater.
    #[tactic(auto, using(std::proofs::lemmas::List::take_all, std::proofs::lemmas::List::Sums::sum_by_more_le, crate::proofs::Ends::counted))]
    pub fn operations(&self) -> Option<usize>
        ensures { MatchOption result (2 ^ 64 ≤ sum (map (λ ops. length ops) self.now)) (λ count. count ≡ sum (map (λ ops. length ops) self.now)) }
    {
        let mut count: usize = 0;
        for program in &self.programs {
            count = count.checked_add(program.left().len())?;
        }
        Some(count)
    }

    /// No node has an operation to do.
    pub(crate) fn finished(&self) -> bool
        ensures { result ≡ list_all (λ ops. length ops == 0) self.now }
    {
        self.programs
            .iter()
            .all(|program| program.left().is_empty())
    }

    /// A node has done its next operation.
    pub(crate) fn advance(&mut self, node: u8)
        requires node { node < length self.old }
        requires some { 0 < length (slice_index_or self.old node []) }
        ensures { self.new ≡ slice_set self.old node (drop 1 (slice_index_or self.old node [])) }
    {
        let program = &mut self.programs[node as usize];
        program.advance();
    }
}
