//! What an engine keeps of the candidates that it was asked to settle.

ghost use Rattle.std.specs.Prelude.{◌≡◌, ◌<◌, [], ◌∷◌, ◌++◌, None, Some, OnOk, OnErr, IfErr};

use crate::fault::EngineFault;
use crate::settled::Settled;
use candidate_order::Candidate;
use std::alloc::Global;
use std::marker::Model;

/// The candidates that an engine has settled, in order, each with the kind of its outcome, and the
/// one at which it failed.
#[derive(Drop)]
pub struct Record {
    entries: Vec<(Candidate, Settled)>,
    stopped: Option<Candidate>,
}

impl Model for Record {
    ghost use Rattle.std.specs.Prelude.{◌-◌, vec_len, vec_capacity};
    ghost use Rattle.engine_rules.specs.Recording.{RecordState};

    ghost Value = { RecordState };

    ghost view = { λ r. record { entries = r.entries.items; stopped = r.stopped; room = vec_capacity r.entries - vec_len r.entries } };
}

impl Record {
    /// The record of an engine that has settled nothing and has not failed.
    pub fn new(alloc: Global) -> Record
        ensures entries { result.entries ≡ [] }
        ensures stopped { result.stopped ≡ None }
    {
        Record {
            entries: Vec::new(alloc),
            stopped: None,
        }
    }

    /// What allocates the record.
    pub fn allocator(&self) -> Global {
        *self.entries.allocator()
    }

    /// Makes room for a candidate. Where memory runs out, which is the only fault, the engine has
    /// failed at that candidate.
    pub fn prepare(&mut self, candidate: Candidate) -> Result<(), EngineFault>
        ensures room { OnOk result (0 < self.new.room) }
        ensures entries { self.new.entries ≡ self.old.entries }
        ensures running { OnOk result (self.new.stopped ≡ self.old.stopped) }
        ensures stopped { OnErr result (self.new.stopped ≡ Some candidate) }
        ensures fault { IfErr result (λ fault. fault ≡ EngineFault.OutOfMemory) }
    {
        let Ok(()) = self.entries.reserve(1) else {
            self.stop(candidate);
            return Err(EngineFault::OutOfMemory);
        };
        Ok(())
    }

    /// Adds a candidate, for which there is room, with the kind of its outcome.
    pub fn note(&mut self, candidate: Candidate, kind: Settled)
        requires { 0 < self.old.room }
        ensures entries { self.new.entries ≡ self.old.entries ++ (candidate, kind) ∷ [] }
        ensures stopped { self.new.stopped ≡ self.old.stopped }
    {
        self.entries.push_reserved((candidate, kind));
    }

    /// The engine has failed at a candidate, which is not added.
    pub fn stop(&mut self, candidate: Candidate)
        ensures entries { self.new.entries ≡ self.old.entries }
        ensures stopped { self.new.stopped ≡ Some candidate }
    {
        self.stopped = Some(candidate);
    }
}
