//! New beginnings where the lines that were learned last are worse than those before (restarts by
//! averages of LBD).

ghost use Rattle.std.specs.Prelude.{◌<◌};

/// How much a line weighs in the fast average: 1 of 2 to so many.
const FAST: u32 = 5;

/// How much it weighs in the slow one, likewise.
const SLOW: u32 = 12;

/// The search begins anew where the fast average is more than so many hundredths of the slow one.
const MARGIN: u64 = 110;

/// So many lines are learned at least from one new beginning to the next.
const LEAST: u64 = 10;

/// Moving averages of the numbers of levels of the lines (LBD), one of the last lines and one of
/// all (Audemard and Simon 2012, by averages that decay as Biere and Froehlich 2015 have them).
/// Each is kept times 2 to 32; 0 before the first line.
#[derive(Drop)]
pub struct Averages {
    fast: u64,
    slow: u64,
    /// How many lines were learned since the last new beginning.
    since: u64,
}

/// An average with one value more, which weighs 1 of 2 to `shift`.
fn moved(average: u64, value: u64, shift: u32) -> u64
    requires { shift < 64 }
{
    (average - (average >> shift)).saturating_add(value >> shift)
}

impl Averages {
    /// No line is counted yet.
    pub fn new() -> Averages {
        Averages {
            fast: 0,
            slow: 0,
            since: 0,
        }
    }

    /// Takes a line's number of levels into the averages.
    fn add(&mut self, levels: u32) {
        let value = u64::from(levels) << 32;
        if self.fast == 0 {
            self.fast = value;
            self.slow = value;
        }
        self.fast = moved(self.fast, value, FAST);
        self.slow = moved(self.slow, value, SLOW);
    }

    /// Counts a line, whose literals were false on so many levels. Whether the search begins anew
    /// after it.
    pub fn tick(&mut self, levels: u32) -> bool {
        self.add(levels);
        self.since = self.since.saturating_add(1);
        if self.since < LEAST || self.fast <= (self.slow / 100).saturating_mul(MARGIN) {
            return false;
        }
        self.since = 0;
        true
    }
}
