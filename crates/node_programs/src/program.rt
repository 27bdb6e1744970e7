ghost use Rattle.std.specs.Prelude.{◌≡◌, ◌<◌, ◌++◌, ◌∷◌, [], length, drop, slice_get, OnOk, OnErr};

use crate::OutOfMemory;
use crate::op::Op;
use std::alloc::Global;
use std::marker::Model;

/// The operations that a node has still to do, in order.
#[derive(Clone, Debug, Drop)]
pub(crate) struct Program {
    ops: Vec<Op>,
    done: usize,
}

impl Model for Program {
    ghost use Rattle.std.specs.Prelude.{◌≤◌, List, drop, vec_len};
    ghost use Rattle.node_programs.specs.declared.op.Op.{Op};

    ghost Value = { List Op };

    ghost view = { λ p. drop p.done p.ops.items };

    ghost invariant = { λ p. p.done ≤ vec_len p.ops };
}

impl Program {
    /// The program of no operation.
    pub(crate) fn new(alloc: Global) -> Program
        ensures { result ≡ [] }
    {
        Program {
            ops: Vec::new(alloc),
            done: 0,
        }
    }

    /// Puts an operation behind the others. The only error is `OutOfMemory`; then nothing changes.
    pub(crate) fn push(&mut self, op: Op) -> Result<(), OutOfMemory>
        ensures pushed { OnOk result (self.new ≡ self.old ++ op ∷ []) }
        ensures unchanged { OnErr result (self.new ≡ self.old) }
    {
        self.ops.push(op)?;
        Ok(())
    }

    /// The operations that are left.
    pub(crate) fn left(&self) -> &[Op]
        ensures { result.now ≡ self.now }
    {
        &self.ops[self.done..]
    }

    /// The next operation, if one is left.
    pub(crate) fn next(&self) -> Option<Op>
        ensures { result ≡ slice_get self.now 0 }
    {
        self.left().first().copied()
    }

    /// The next operation has been done.
    pub(crate) fn advance(&mut self)
        requires { 0 < length self.old }
        ensures { self.new ≡ drop 1 self.old }
    {
        self.done += 1;
    }
}
