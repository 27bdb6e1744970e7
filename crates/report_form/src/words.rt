//! What a search was asked for, beside the topology.

ghost use Rattle.std.specs.Prelude.{◌≡◌};

use candidate_order::Limits;
use collective_spec::Collective;
use std::marker::Model;

/// A collective, with root 0 where it takes none, and how far the search goes.
#[derive(Clone, Copy, Debug, PartialEq, Eq)]
pub struct Words {
    collective: Collective,
    limits: Limits,
}

impl Model for Words {
    ghost use Rattle.report_form.specs.Reports.{WordsValue};

    ghost Value = { WordsValue };

    ghost view = { λ w. record { collective = w.collective; limits = w.limits } };

    ghost inverse = { λ w. record { collective = w.collective; limits = w.limits } };
}

impl Words {
    /// The words of this collective and these limits.
    pub fn new(collective: Collective, limits: Limits) -> Words
        ensures { result ≡ record { collective = collective; limits = limits } }
    {
        Words { collective, limits }
    }

    /// The collective, with its root.
    pub fn collective(&self) -> Collective
        ensures { result ≡ self.now.collective }
    {
        self.collective
    }

    /// How far the search goes.
    pub fn limits(&self) -> Limits
        ensures { result ≡ self.now.limits }
    {
        self.limits
    }
}
