//! What is known of a sum of registers behind a step.

ghost use Rattle.std.specs.Prelude.{◌≡◌, ◌<◌, ◌+◌, ◌%◌, ◌^◌, ◌==◌, length, option_map, Some, true};
ghost use Rattle.bound_laws.specs.Registers as registers;
ghost use Rattle.bound_laws.specs.Values as values;
ghost use Rattle.wrapped_intervals.specs.Small.{IsKeptOr, line_by, measure_view, said_view};
ghost use Rattle.stack_tables.specs.Tables.{IsStackClaim, address, values_in};
ghost use Rattle.lower_bounds.specs.LowerBounds as lower;
ghost use Rattle.lower_bounds.specs.LowerTables.{passed_along, IsStep, IsSumIn};

use crate::steps::kept_on;
use crate::tables::Step;
use scale_base::BranchOp;
use stack_tables::{StackClaim, address, arcs, line_at};
use wrapped_intervals::{
    Arc, Measure, Said, covers, effect, holds, line_by, line_of, said_by, sum_with,
};

// Whether two intervals of registers say that a sum of them is in another one.
fn is_sum_of(m: Measure, first: Arc, other: Arc, y: Arc) -> bool
    requires first { IsKeptOr (Some first) }
    requires other { IsKeptOr (Some other) }
    requires kept { IsKeptOr (Some y) }
    ensures { result ≡ true → values.Covers (Some y) (line_by (measure_view m) (Some first) (Some other)) }
{
    covers(Some(y), line_by(m, Some(first), Some(other)))
}

// Whether those behind a step do, where they are known.
fn is_sum_by_registers(claim: &StackClaim<'_>, step: Step, m: Measure, y: Arc) -> bool
    requires claim { IsStackClaim claim.now }
    requires step { IsStep claim.now step }
    requires kept { IsKeptOr (Some y) }
    ensures { result ≡ true → values.Covers (Some y) (values.line_of (measure_view m) (passed_along claim.now step)) }
{
    match (
        kept_on(claim, step, m.register),
        kept_on(claim, step, m.other),
    ) {
        (Some(first), Some(other)) => is_sum_of(m, first, other, y),
        _ => false,
    }
}

// Whether a line's interval and what is added say so.
fn is_moved_to(line: Arc, adds: u32, y: Arc) -> bool
    requires line { IsKeptOr (Some line) }
    requires kept { IsKeptOr (Some y) }
    ensures { result ≡ true → values.Covers (Some y) (values.sum_with (Some line) adds) }
{
    covers(Some(y), sum_with(Some(line), u64::from(adds)))
}

// Whether a line says so.
fn is_sum_by_line(claim: &StackClaim<'_>, step: Step, m: Measure, adds: u32, y: Arc) -> bool
    requires claim { IsStackClaim claim.now }
    requires step { IsStep claim.now step }
    requires adds { registers.effect (measure_view m) step.instr ≡ Some adds }
    requires kept { IsKeptOr (Some y) }
    ensures { result ≡ true → IsSumIn claim.now step (measure_view m) y }
{
    match line_at(claim, step.from, m) {
        Some(line) => is_moved_to(line, adds, y),
        None => false,
    }
}

// Whether a comparison says that both registers hold the same number.
fn says_same(op: BranchOp) -> bool
    ensures { result ≡ lower.says_same op }
{
    match op {
        BranchOp::Beq => true,
        BranchOp::Bne => false,
        BranchOp::Blt => false,
        BranchOp::Bge => false,
        BranchOp::Bltu => false,
        BranchOp::Bgeu => false,
    }
}

// Whether the factors of a sum take each other away.
fn are_opposite(m: Measure) -> bool
    ensures { result ≡ ((m.factor + m.other_factor) % 2 ^ 32 == 0) }
{
    (u64::from(m.factor) + u64::from(m.other_factor)) % 4_294_967_296 == 0
}

// Whether a comparison says that the sum is its shift.
fn is_same(said: Option<Said>, m: Measure) -> bool
    ensures { result ≡ lower.is_same (option_map said_view said) (measure_view m) }
{
    match said {
        None => false,
        Some(s) => {
            says_same(s.op)
                && ((m.register == s.first && m.other == s.second)
                    || (m.register == s.second && m.other == s.first))
                && are_opposite(m)
        }
    }
}

// The same of a step.
fn is_sum_same(claim: &StackClaim<'_>, step: Step, m: Measure) -> bool
    requires claim { IsStackClaim claim.now }
    requires step { IsStep claim.now step }
    ensures { result ≡ true →
        lower.is_same (values.said step.instr (address claim.now step.from) (address claim.now step.to)) (measure_view m) ≡ true }
{
    is_same(
        said_by(
            step.instr,
            address(claim, step.from),
            address(claim, step.to),
        ),
        m,
    )
}

// Whether a number is in an interval.
fn is_in(y: Arc, value: u32) -> bool
    requires { IsKeptOr (Some y) }
    ensures { result ≡ true → values.IsIn y (value % 2 ^ 32) }
{
    holds(Some(y), value)
}

// Whether a branch says so.
fn is_sum_by_branch(claim: &StackClaim<'_>, step: Step, m: Measure, y: Arc) -> bool
    requires claim { IsStackClaim claim.now }
    requires step { IsStep claim.now step }
    requires adds { registers.effect (measure_view m) step.instr ≡ Some 0 }
    requires kept { IsKeptOr (Some y) }
    ensures { result ≡ true → IsSumIn claim.now step (measure_view m) y }
{
    if !is_sum_same(claim, step, m) {
        return false;
    }
    is_in(y, m.shift)
}

// By one of both, where it is known what the instruction adds.
fn is_sum_by_effect(claim: &StackClaim<'_>, step: Step, m: Measure, y: Arc) -> bool
    requires claim { IsStackClaim claim.now }
    requires step { IsStep claim.now step }
    requires kept { IsKeptOr (Some y) }
    ensures { result ≡ true → IsSumIn claim.now step (measure_view m) y }
{
    match effect(m, step.instr) {
        Some(0) => is_sum_by_line(claim, step, m, 0, y) || is_sum_by_branch(claim, step, m, y),
        Some(adds) => is_sum_by_line(claim, step, m, adds, y),
        None => false,
    }
}

// Whether the intervals of the registers at node k say that it is in an interval.
fn is_sum_at_registers(claim: &StackClaim<'_>, k: usize, m: Measure, y: Arc) -> bool
    requires claim { IsStackClaim claim.now }
    requires node { k < length claim.now.graph.now.code.nodes }
    requires kept { IsKeptOr (Some y) }
    ensures { result ≡ true → values.Covers (Some y) (values.line_of (measure_view m) ((values_in claim.now).at (address claim.now k))) }
{
    covers(Some(y), line_of(m, arcs(claim, k)))
}

// Whether one interval's words are in another.
fn is_within(line: Arc, y: Arc) -> bool
    requires line { IsKeptOr (Some line) }
    requires kept { IsKeptOr (Some y) }
    ensures { result ≡ true → values.Covers (Some y) (Some line) }
{
    covers(Some(y), Some(line))
}

// Whether a line at node k says so.
fn is_sum_at_line(claim: &StackClaim<'_>, k: usize, m: Measure, y: Arc) -> bool
    requires claim { IsStackClaim claim.now }
    requires node { k < length claim.now.graph.now.code.nodes }
    requires kept { IsKeptOr (Some y) }
    ensures { result ≡ true → lower.IsSumAt (values_in claim.now) (address claim.now k) (measure_view m) y }
{
    match line_at(claim, k, m) {
        Some(line) => is_within(line, y),
        None => false,
    }
}

// By one of both.
fn is_sum_at(claim: &StackClaim<'_>, k: usize, m: Measure, y: Arc) -> bool
    requires claim { IsStackClaim claim.now }
    requires node { k < length claim.now.graph.now.code.nodes }
    requires kept { IsKeptOr (Some y) }
    ensures { result ≡ true → lower.IsSumAt (values_in claim.now) (address claim.now k) (measure_view m) y }
{
    if is_sum_at_registers(claim, k, m, y) {
        return true;
    }
    is_sum_at_line(claim, k, m, y)
}

/// Whether it is in an interval.
pub fn is_sum_in(claim: &StackClaim<'_>, step: Step, m: Measure, y: Arc) -> bool
    requires claim { IsStackClaim claim.now }
    requires step { IsStep claim.now step }
    requires kept { IsKeptOr (Some y) }
    ensures { result ≡ true → IsSumIn claim.now step (measure_view m) y }
{
    if is_sum_by_registers(claim, step, m, y) {
        return true;
    }
    if is_sum_by_effect(claim, step, m, y) {
        return true;
    }
    is_sum_at(claim, step.to, m, y)
}
