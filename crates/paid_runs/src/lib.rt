//! Stored runs of kept runs end in time, never raise their level, and save energy, where the levels in their tables meet two tests: that what is
//! left is in time, and that the least cycles to an end pay for the switch.
//! Tests: none, since nothing of it runs.
#![tactic(auto)]

ghost use Rattle.paid_runs.specs.Laws.{BudgetedRunsAreSafe, StoredRunsArePaid, StoredRunsKeepBudgets, StoredRunsSaveEnergy, StubsAreBounded, TablesKeepBudgets, TablesOfKeepTime, TunedImagesAreBudgeted, TunedRunsAreSafe};

mod legs;
mod marked;

pub use legs::{legs_are_paid, switches_save_energy};
pub use marked::{
    counts_on_edges, graphs_can_be_marked, kept_runs_are_followed, kept_runs_are_patched,
    transitions_cost_stored_weights,
};

/// The stored run of a kept run is in time at every step of the original, and no step of it leaves a higher level; and one that exits takes
/// no more energy than its own cycles at the starting level.
pub fn stored_runs_are_paid()
    ensures paid { StoredRunsArePaid }
    ensures energy { StoredRunsSaveEnergy }
{}

/// The stubs add at most as many cycles, and as many steps, as the worst cycles are under the extra weights.
pub fn stubs_are_bounded()
    ensures { StubsAreBounded }
{}

/// Tables whose entries meet the two tests keep a run in time and pay: an edge's slack is left behind it, a row of a table behind a loop
/// counts on no more turns than the loop's count leaves, and a back edge that counts takes no more turns off its rest than the loop has taken.
pub fn tables_keep_time()
    ensures { TablesOfKeepTime }
{}

/// Every kept run of a tuned image, whose stubs may stand anywhere in its keyed segment and whose loops may have several counters, ends as the
/// original's does, with the same output, in time, at no higher level than before, with no more energy than its own cycles at the starting
/// level, and with at most so many cycles and steps more.
pub fn tuned_runs_are_safe()
    ensures { TunedRunsAreSafe }
{}

/// Tables whose entries meet the test of budgets and pay keep a run within its budgets, so a switch may stand on an edge without slack.
pub fn tables_keep_budgets()
    ensures { TablesKeepBudgets }
{}

/// Every kept run of an image whose tables keep budgets is safe, and within the budget of its level behind each step of the original. A tuned
/// image is one whose budgets are all the deadline.
pub fn budgeted_runs_are_safe()
    ensures safe { BudgetedRunsAreSafe }
    ensures stored { StoredRunsKeepBudgets }
    ensures tuned { TunedImagesAreBudgeted }
{}
