use schedule::Schedule;

/// What came of a candidate.
#[derive(Debug, Drop)]
pub enum Outcome {
    /// The schedule solves it.
    Solved(Schedule),
    /// No schedule does.
    Refuted,
    /// It was given up after so many conflicts.
    Unknown { conflicts: u32 },
}
