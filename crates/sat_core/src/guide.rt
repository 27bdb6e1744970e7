//! What a search keeps from turn to turn beside its core.

ghost use Rattle.std.specs.Prelude.{◌<◌, IfOk};
ghost use Rattle.sat_core.specs.inner.Guided.{IsNewGuide};

use cnf_formula::OutOfMemory;
use conflict_analysis::{Glue, Implied, Walk};
use decision_order::{Decider, Restarts};
use sleeping_clauses::{Awake, Sleepers};
use std::alloc::Global;

/// The marks of analyses, what is decided next, when the search begins anew, and which learned
/// clauses sleep.
#[derive(Drop)]
pub struct Guide {
    pub walk: Walk,
    pub implied: Implied,
    pub decider: Decider,
    pub restarts: Restarts,
    pub awake: Awake,
    pub sleepers: Sleepers,
    pub glue: Glue,
}

impl Guide {
    /// What a search begins with: no clause sleeps.
    pub fn new(alloc: Global, vars: u32, awake: Awake) -> Result<Guide, OutOfMemory>
        requires { vars < 2147483648 }
        ensures { IfOk result (IsNewGuide vars awake) }
    {
        let walk = Walk::new(alloc, vars)?;
        let implied = Implied::new(alloc, vars)?;
        let glue = Glue::new(alloc, vars)?;
        Ok(Guide {
            sleepers: Sleepers::new(alloc, vars)?,
            walk,
            implied,
            decider: Decider::new(alloc, vars)?,
            restarts: Restarts::new(),
            awake,
            glue,
        })
    }
}
