//! The times by which jobs are to end at each level, where the lower levels get what the starting one leaves.

ghost use Rattle.std.specs.Prelude.{◌≡◌, ◌<◌, ◌≤◌, ◌*◌, ◌/◌, ℕ, Ok, length};
ghost use Rattle.flow_graph.specs.FlowGraph.{FlowGraph};
ghost use Rattle.level_tables.specs.Budgets.{budget_at};
ghost use Rattle.loop_forest.specs.Tree.{LoopView};
ghost use Rattle.power_model.specs.Price.{time_at};
ghost use Rattle.scale_base.specs.Image.{Image};
ghost use Rattle.marked_images.specs.Scalings.{IsMarkingFound};
ghost use Rattle.marked_images.specs.Stored.{by_deadline};
ghost use Rattle.marked_images.specs.Wanted.{Wanted};
ghost use Rattle.paced_images.specs.Paced.{paced_budget, paced_rule};

use answer_parts::time_at;
use level_tables::LevelBudgets;
use marked_images::Marking;
use power_model::Power;

/// The time of the worst cycles at the starting level for that level, the deadline for the lowest one, and `share` quarters of what lies between
/// them for those between.
fn budgets_of(power: &Power, start: u8, worst: u64, share: u8) -> LevelBudgets
    requires level { start < length power.now.levels }
    requires in_time { time_at power.now start worst ≤ power.now.deadline }
    requires share { share ≤ 4 }
    ensures { (i : ℕ) → budget_at result i ≡ paced_budget power.now start worst share i }
{
    let deadline = power.deadline;
    let first = time_at(power, worst, start) as u64;
    LevelBudgets {
        start,
        first,
        above: 0,
        between: first + shared(deadline - first, share),
        lowest: deadline,
    }
}

/// So many quarters of a time.
fn shared(time: u64, share: u8) -> u64
    requires { share ≤ 4 }
    ensures share { result ≡ share * time / 4 }
    ensures within { result ≤ time }
{
    (u128::from(time) * u128::from(share) / 4) as u64
}

/// The marking with these budgets in place of the deadline of each level.
pub fn budgeted(power: &Power, marking: Marking, start: u8, share: u8) -> Marking
    requires share { share ≤ 4 }
    requires found { (image : Image) × (v : FlowGraph) × (t : LoopView) × (wanted : Wanted) ×
        IsMarkingFound power.now image v t wanted (by_deadline power.now) (Ok ((marking, start))) }
    ensures { (image : Image) (v : FlowGraph) (t : LoopView) (wanted : Wanted) →
        IsMarkingFound power.now image v t wanted (by_deadline power.now) (Ok ((marking, start))) →
        IsMarkingFound power.now image v t wanted (paced_rule power.now share) (Ok ((result, start))) }
{
    let budgets = budgets_of(power, start, marking.worst.total(), share);
    let mut marking = marking;
    marking.budgets = budgets;
    marking
}
