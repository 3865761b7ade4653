//! Switches to the lowest level that may stand on edges, and what they cost, as a first estimate.

ghost use Rattle.std.specs.Prelude.{◌<◌, ◌^◌, IfSome};

use level_tables::LevelBudgets;
use power_model::Power;
use run_traces::{StubCosts, TracedEdge, may_switch};
use scale_base::EdgeKind;

/// A switch to the lowest level on an edge. The numbers are in cycles: what a pass takes more, what a pass of either edge of the instruction takes
/// more; the slack, and what is left at most and at least behind the store at the speed port, with the switch's own costs; and what it adds to
/// the worst case at most.
#[derive(Clone, Copy)]
pub struct Mark {
    pub other: Option<usize>,
    pub code: u64,
    pub jumps: u64,
    slack: u64,
    left: u64,
    least: Option<u128>,
    added: u64,
}

/// The least cycles behind a switch, with its tail.
fn least_behind(least: Option<u128>, tail: u64) -> Option<u128> {
    match least {
        Some(cycles) => Some(cycles.saturating_add(u128::from(tail))),
        None => None,
    }
}

/// What a switch adds to the worst case at most. An edge with more slack than the code of the switch takes is on no worst way, but the
/// other edge of its branch may be, which pays for the jumps.
fn added_cycles(numbers: &TracedEdge, branch: bool, code: u64, jumps: u64) -> u64 {
    if branch {
        let each = code.saturating_sub(numbers.slack);
        let over = numbers.passes.saturating_mul(each);
        numbers.visits.saturating_mul(jumps).saturating_add(over)
    } else {
        let each = code.saturating_add(jumps).saturating_sub(numbers.slack);
        numbers.passes.saturating_mul(each)
    }
}

/// A switch on an edge, if it may have one.
pub fn mark_of(numbers: &TracedEdge, costs: &StubCosts) -> Option<Mark> {
    if !may_switch(numbers.edge.kind) {
        return None;
    }
    let branch = !matches!(numbers.edge.kind, EdgeKind::Jump);
    let jumps = costs.jumps(numbers.edge.kind);
    let added = added_cycles(numbers, branch, costs.lowest, jumps);
    let again = added.saturating_sub(added.checked_div(numbers.passes).unwrap_or(0));
    Some(Mark {
        other: numbers.other,
        code: costs.lowest,
        jumps,
        slack: numbers.slack.saturating_sub(costs.lowest),
        left: numbers
            .rest
            .saturating_add(costs.jump)
            .saturating_add(again),
        least: least_behind(numbers.least, costs.jump),
        added,
    })
}

/// The energy units of a cycle at a level.
pub fn energy_at(power: &Power, level: u8) -> u128 {
    if level < power.levels.count() {
        u128::from(power.levels.get(level).energy)
    } else {
        0
    }
}

/// The energy units of a change of level.
pub fn change_energy(power: &Power, from: u8, to: u8) -> u128 {
    if from < 8 && to < 8 {
        u128::from(power.switch_energy_of(from, to))
    } else {
        0
    }
}

/// The time that the worst cycles take at the starting level, if it is in time there.
fn first_budget(power: &Power, start: u8, worst: u64) -> Option<u64> {
    if start >= power.levels.count() {
        return None;
    }
    let time = u128::from(worst) * u128::from(power.levels.get(start).period);
    let deadline = power.deadline;
    if time <= u128::from(deadline) {
        Some(time as u64)
    } else {
        None
    }
}

/// More cycles than any run takes at least.
const FEW: u128 = 0x200_0000_0000_0000_0000_0000;

/// Cycles that are few enough for the tables.
fn small(least: Option<u128>) -> Option<u128>
    ensures { IfSome result (λ z. z < 2 ^ 90) }
{
    match least {
        Some(cycles) if cycles < FEW => Some(cycles),
        _ => None,
    }
}

/// The level to which a switch alone leads from the starting level, where the worst cycles are so many without it: that level itself where the
/// start is another one by then.
pub fn entry(power: &Power, start: u8, worst: u64, mark: &Mark) -> u8 {
    match first_budget(power, start, worst.saturating_add(mark.added)) {
        Some(first) if start < power.levels.count() => {
            let mut budgets = LevelBudgets::alike(power.deadline);
            budgets.start = start;
            budgets.first = first;
            let numbers = level_tables::EdgeNumbers {
                slack: mark.slack,
                left: mark.left,
                least: small(mark.least),
            };
            numbers.entry_within(power, &budgets, start)
        }
        _ => start,
    }
}
