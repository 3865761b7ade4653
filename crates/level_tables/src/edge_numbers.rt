//! The numbers of an edge with a switch, and what they say of its levels.

ghost use Rattle.std.specs.Prelude.{◌≡◌, ◌+◌, ◌*◌, ◌/◌, ◌<◌, ◌≤◌, ◌^◌, length, IfSome};
ghost use Rattle.power_model.specs.Levels.{level as level_at};
ghost use Rattle.power_model.specs.Price.{switch_time};
ghost use Rattle.level_tables.specs.Tables.{with_tail, is_switch_in_time, pays, entry_by, IsEntryFor, word_by, HoldsEntriesFor, goes_lowest, at_row, trips_left, behind_turns};
ghost use Rattle.level_tables.specs.Budgets.{is_switch_in_budget, meets_in_budget, budget_at};

use crate::by_level::LevelBudgets;
use power_model::Power;
use scale_base::CYCLE_LIMIT;

/// The numbers of an edge with a switch, in cycles: its slack, the most that is left behind the switch, and the least that is left there, None where no
/// end is ahead.
#[derive(Clone, Copy, Drop)]
pub struct EdgeNumbers {
    pub slack: u64,
    pub left: u64,
    pub least: Option<u128>,
}

impl EdgeNumbers {
    /// The numbers where `tail` cycles of the switch's own code stand between its store and the rest of the program.
    pub fn with_tail(&self, tail: u32) -> EdgeNumbers
        requires left { self.now.left ≤ CYCLE_LIMIT }
        requires least { IfSome self.now.least (λ z. z < 2 ^ 89) }
        ensures numbers { result ≡ with_tail tail self.now }
        ensures least { IfSome result.least (λ z. z < 2 ^ 90) }
    {
        let least = match self.least {
            Some(cycles) => Some(cycles + u128::from(tail)),
            None => None,
        };
        EdgeNumbers {
            slack: self.slack,
            left: self.left + u64::from(tail),
            least,
        }
    }

    // The most time, in time units, that is taken from the edge on where level `from` stays, with the slack used up.
    fn time_before(&self, power: &Power, from: u8) -> u128
        requires from { from < length power.now.levels }
        ensures time { result ≡ (self.now.left + self.now.slack) * (level_at power.now.levels from).period }
        ensures small { result < 2 ^ 97 }
    {
        (u128::from(self.left) + u128::from(self.slack)) * u128::from(power.levels.get(from).period)
    }

    // The most time that a switch from level `from` to level `to` and what is left behind it take.
    fn time_behind(&self, power: &Power, from: u8, to: u8) -> u128
        requires from { from < length power.now.levels }
        requires to { to < length power.now.levels }
        ensures time { result ≡ self.now.left * (level_at power.now.levels to).period + switch_time power.now from to }
        ensures small { result < 2 ^ 97 }
    {
        u128::from(self.left) * u128::from(power.levels.get(to).period)
            + u128::from(power.switch_time_of(from, to))
    }

    /// Whether a switch between two levels is in time: what is left, at the level behind it, and the switch take no longer than what is left and the slack,
    /// at the level before it.
    pub fn is_in_time(&self, power: &Power, from: u8, to: u8) -> bool
        requires from { from < length power.now.levels }
        requires to { to < length power.now.levels }
        ensures { result ≡ is_switch_in_time power.now self.now from to }
    {
        self.time_behind(power, from, to) <= self.time_before(power, from)
    }

    // Whether it leaves a job within the budget of the level behind it.
    fn is_in_budget(&self, power: &Power, budgets: &LevelBudgets, from: u8, to: u8) -> bool
        requires from { from < length power.now.levels }
        requires to { to < length power.now.levels }
        ensures { result ≡ is_switch_in_budget power.now (budget_at budgets.now) self.now from to }
    {
        self.time_behind(power, from, to) + u128::from(budgets.of(from))
            <= self.time_before(power, from) + u128::from(budgets.of(to))
    }

    /// Whether a switch to a lower level pays: the least that is left saves there at least the energy of the switch.
    pub fn pays(&self, power: &Power, from: u8, to: u8) -> bool
        requires from { from < length power.now.levels }
        requires to { to < from }
        requires least { IfSome self.now.least (λ z. z < 2 ^ 90) }
        ensures { result ≡ pays power.now self.now.least from to }
    {
        match self.least {
            None => false,
            Some(cycles) => {
                let drop = power.levels.get(from).energy - power.levels.get(to).energy;
                cycles * u128::from(drop) >= u128::from(power.switch_energy_of(from, to))
            }
        }
    }

    // Whether a switch to a lower level keeps the budgets and pays.
    fn meets(&self, power: &Power, budgets: &LevelBudgets, from: u8, to: u8) -> bool
        requires from { from < length power.now.levels }
        requires to { to < from }
        requires least { IfSome self.now.least (λ z. z < 2 ^ 90) }
        ensures { result ≡ meets_in_budget power.now (budget_at budgets.now) self.now from to }
    {
        self.is_in_budget(power, budgets, from, to) && self.pays(power, from, to)
    }

    /// The level to which a switch leads from level `from`: the slowest one below it that keeps the budgets and pays, or the level itself.
    pub fn entry_within(&self, power: &Power, budgets: &LevelBudgets, from: u8) -> u8
        requires from { from < length power.now.levels }
        requires least { IfSome self.now.least (λ z. z < 2 ^ 90) }
        ensures entry { result ≡ entry_by (meets_in_budget power.now (budget_at budgets.now)) self.now from }
        ensures is_entry { IsEntryFor (meets_in_budget power.now (budget_at budgets.now)) self.now from result }
    {
        for l in 0..from {
            if self.meets(power, budgets, from, l) {
                return l;
            }
        }
        from
    }

    /// The entries of all levels: that of level i in the bits 4i to 4i + 3, and zeros in the bits of levels that are not there.
    pub fn word_within(&self, power: &Power, budgets: &LevelBudgets) -> u32
        requires least { IfSome self.now.least (λ z. z < 2 ^ 90) }
        ensures holds { HoldsEntriesFor power.now (meets_in_budget power.now (budget_at budgets.now)) self.now result }
        ensures word { result ≡ word_by power.now (meets_in_budget power.now (budget_at budgets.now)) self.now }
    {
        let mut word: u32 = 0;
        let mut i = power.levels.count();
        while i > 0 {
            i -= 1;
            let entry = self.entry_within(power, budgets, i);
            word = word * 16 + u32::from(entry);
        }
        word
    }

    /// Whether every level goes to the lowest one.
    pub fn lowest_within(&self, power: &Power, budgets: &LevelBudgets) -> bool
        requires least { IfSome self.now.least (λ z. z < 2 ^ 90) }
        ensures { result ≡ goes_lowest power.now (meets_in_budget power.now (budget_at budgets.now)) self.now }
    {
        self.word_within(power, budgets) == 0
    }

    /// What the exit of a loop has in a row of its table: the slack also of the back edges that are not taken for certain, `iteration` cycles each. The row is
    /// that of the counts which are `row` when they are shifted.
    pub fn at_row(&self, bound: u32, iteration: u64, shift: u8, row: u32) -> EdgeNumbers
        requires slack { self.now.slack ≤ 2 ^ 50 }
        requires turns { bound * iteration ≤ CYCLE_LIMIT }
        requires shift { shift < 32 }
        requires row { row ≤ bound / 2 ^ shift }
        ensures { result ≡ at_row bound iteration shift self.now row }
    {
        EdgeNumbers {
            slack: self.slack + u64::from(trips_left(bound, shift, row)) * iteration,
            left: self.left,
            least: self.least,
        }
    }

    // What the edge has behind so many turns of a loop that is round it.
    pub(crate) fn behind_turns(&self, turns: u64, iteration: u64) -> EdgeNumbers
        ensures { result ≡ behind_turns turns iteration self.now }
    {
        let gone = u128::from(turns) * u128::from(iteration);
        EdgeNumbers {
            slack: self.slack,
            left: if gone < u128::from(self.left) {
                self.left - gone as u64
            } else {
                0
            },
            least: self.least,
        }
    }
}

// The back edges that are not taken for certain, at a shifted count of those taken.
fn trips_left(bound: u32, shift: u8, row: u32) -> u32
    requires shift { shift < 32 }
    requires row { row ≤ bound / 2 ^ shift }
    ensures trips { result ≡ trips_left bound shift row }
    ensures few { result ≤ bound }
{
    let most = ((u64::from(row) + 1) << shift) - 1;
    if most < u64::from(bound) {
        bound - most as u32
    } else {
        0
    }
}
