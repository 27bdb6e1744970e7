//! New beginnings by the Luby sequence.

/// So many lines come before the first new beginning.
const UNIT: u64 = 50;

/// New beginnings after 1, 1, 2, 1, 1, 2, 4, .. times as many lines (Luby, Sinclair and Zuckerman
/// 1993).
#[derive(Drop)]
pub struct Luby {
    /// How many lines are left until the next.
    left: u64,
    /// How many runs of doubling lengths have begun.
    run: u64,
    /// The length of the present one.
    length: u64,
}

impl Luby {
    /// No line is counted yet.
    pub fn new() -> Luby {
        Luby {
            left: UNIT,
            run: 1,
            length: 1,
        }
    }

    /// Counts a line. Whether the search begins anew after it.
    pub fn tick(&mut self) -> bool {
        if self.left > 1 {
            self.left -= 1;
            return false;
        }
        if self.run & self.run.wrapping_neg() == self.length {
            self.run = self.run.saturating_add(1);
            self.length = 1;
        } else {
            self.length = self.length.saturating_mul(2);
        }
        self.left = self.length.saturating_mul(UNIT);
        true
    }
}
