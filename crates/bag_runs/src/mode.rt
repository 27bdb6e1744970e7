//! What a step does with the bags that arrive in it.

ghost use Rattle.std.specs.Prelude.{◌≡◌};
ghost use Rattle.bag_runs.specs.Stores.{mode_at};

/// What is done with a bag that arrives at a node.
#[derive(Clone, Copy, Debug, PartialEq, Eq)]
pub enum Mode {
    /// It replaces the node's bag, unless it is empty.
    Copy,
    /// It is added to the node's bag.
    Add,
}

impl Mode {
    /// What is done with what arrives in a step, where the first `adding` steps add.
    pub fn at(adding: u8, step: u8) -> Mode
        ensures { result ≡ mode_at adding step }
    {
        if step <= adding {
            Mode::Add
        } else {
            Mode::Copy
        }
    }
}
