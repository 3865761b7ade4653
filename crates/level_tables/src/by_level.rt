//! The times by which jobs are to end, by the level that they run at.

ghost use Rattle.std.specs.Prelude.{◌≡◌, ℕ};
ghost use Rattle.level_tables.specs.Budgets.{budget_at};

/// By level, the time by which a job that runs at it is to end, in time units: one for the level at which jobs start, one for the lowest level, one for
/// those between the two, and one for those above the start.
#[derive(Clone, Copy, Drop)]
pub struct LevelBudgets {
    pub start: u8,
    pub first: u64,
    pub lowest: u64,
    pub between: u64,
    pub above: u64,
}

impl LevelBudgets {
    /// The same time for each level.
    pub fn alike(time: u64) -> LevelBudgets
        ensures { (i : ℕ) → budget_at result i ≡ time }
    {
        LevelBudgets {
            start: 0,
            first: time,
            lowest: time,
            between: time,
            above: time,
        }
    }

    /// The time of a level.
    pub fn of(&self, level: u8) -> u64
        ensures { result ≡ budget_at self.now level }
    {
        if level == self.start {
            self.first
        } else if level == 0 {
            self.lowest
        } else if level < self.start {
            self.between
        } else {
            self.above
        }
    }
}
