//! When a search begins anew, and how it goes on then.

use crate::averages::Averages;
use crate::luby::Luby;
use crate::turns::{Mode, Turns};

/// New beginnings by the Luby sequence in stable turns, and by averages in others.
#[derive(Drop)]
pub struct Restarts {
    turns: Turns,
    luby: Luby,
    averages: Averages,
}

impl Restarts {
    /// No line is counted yet.
    pub fn new() -> Restarts {
        Restarts {
            turns: Turns::new(),
            luby: Luby::new(),
            averages: Averages::new(),
        }
    }

    /// How the search goes on.
    pub fn mode(&self) -> Mode {
        self.turns.mode()
    }

    /// Counts a line that is learned, whose literals were false on so many levels. Whether the
    /// search begins anew after it: it does so too where a turn begins, and there the Luby sequence
    /// begins anew.
    pub fn tick(&mut self, levels: u32) -> bool {
        if self.turns.tick() {
            self.luby = Luby::new();
            return true;
        }
        match self.turns.mode() {
            Mode::Stable => self.luby.tick(),
            Mode::Opening | Mode::Focused => self.averages.tick(levels),
        }
    }
}
