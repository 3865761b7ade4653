//! The bars of a run, each by its end.

/// Where a bar of a run ends. A bar stands for one stretch of steps at one level, or for several that follow one another. It begins where the
/// one before it ends, and the first one where the run begins.
#[derive(Clone, Copy, PartialEq, Eq)]
pub struct BarEnd {
    /// The level of its first stretch.
    pub level: u8,
    /// The time units of the run up to there.
    pub time: u128,
    /// The energy units of the run up to there.
    pub energy: u128,
    /// The stretches of the run up to there.
    pub stretches: u64,
}

/// Where the first bar of a run begins.
pub const NO_END: BarEnd = BarEnd {
    level: 0,
    time: 0,
    energy: 0,
    stretches: 0,
};
