//! The turns of a search: how long it goes on in one way, and what comes then.

/// So many lines are learned in the opening.
const OPENING: u64 = 2000;

/// So many lines are learned in the first focused turn.
const FOCUSED: u64 = 2000;

/// So many lines are learned in the first stable turn.
const STABLE: u64 = 500;

/// How a search goes on.
#[derive(Clone, Copy, Debug, PartialEq, Eq)]
pub enum Mode {
    /// The first turn, in which short proofs are found: variables go by activity, and the search
    /// begins anew by averages.
    Opening,
    /// A turn in which long proofs are found: variables go by their last bump, and the search
    /// begins anew by averages.
    Focused,
    /// A turn in which models are found: inputs alone go by activity, and the search begins anew by
    /// the Luby sequence.
    Stable,
}

/// Focused and stable turns by turns behind the opening, each pair longer than the one before by
/// what the first pair has (Oh 2015, "Between SAT and UNSAT: the fundamental difference in CDCL
/// SAT"; Biere, Fazekas, Fleury and Heisinger 2020, "CaDiCaL, Kissat, Paracooba, Plingeling and
/// Treengeling entering the SAT competition", have such turns too).
#[derive(Drop)]
pub struct Turns {
    mode: Mode,
    /// How many focused turns have begun.
    begun: u64,
    /// How many lines are left of the present turn.
    left: u64,
}

impl Turns {
    /// The opening, of which no line is counted yet.
    pub fn new() -> Turns {
        Turns {
            mode: Mode::Opening,
            begun: 0,
            left: OPENING,
        }
    }

    /// How the search goes on.
    pub fn mode(&self) -> Mode {
        self.mode
    }

    /// Counts a line. Whether a turn begins behind it.
    pub fn tick(&mut self) -> bool {
        self.left = self.left.saturating_sub(1);
        if self.left > 0 {
            return false;
        }
        self.mode = match self.mode {
            Mode::Focused => Mode::Stable,
            Mode::Opening | Mode::Stable => Mode::Focused,
        };
        self.left = self.length();
        true
    }

    /// How many lines the turn that begins has; the first of a pair is counted.
    fn length(&mut self) -> u64 {
        if self.mode == Mode::Stable {
            return self.begun.saturating_mul(STABLE);
        }
        self.begun = self.begun.saturating_add(1);
        self.begun.saturating_mul(FOCUSED)
    }
}
