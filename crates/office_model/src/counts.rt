// The counts of accepted commands.

/// The counts of a loaded session.
#[derive(Clone, Copy, Debug, PartialEq, Eq)]
pub struct Loaded {
    /// 1 to 2,000.
    pub exams: u32,
    /// Pairs of a student and an exam that they sit, at most 200,000.
    pub pairs: u32,
    /// 1 to 200.
    pub periods: u32,
    /// 1 to 200.
    pub rooms: u32,
}

/// The counts of what a publication changed.
#[derive(Clone, Copy, Debug, PartialEq, Eq)]
pub struct Published {
    /// Candidates whose seat rows differ from those before.
    pub changed: u32,
    /// The penalty of the published timetable, below 2^62.
    pub penalty: u64,
}

/// The counts of what the lines of a batch did.
#[derive(Clone, Copy, Debug, PartialEq, Eq)]
pub struct Counts {
    /// Adds of a pair that was not there.
    pub added: u32,
    /// Drops of a pair that was there.
    pub dropped: u32,
    /// All other lines.
    pub unchanged: u32,
}
