//! The reasons of edges.

ghost use Rattle.std.specs.Prelude.{◌≡◌, ◌<◌, ◌^◌, ◌&&◌, nat_lt, length, IfSome, IfOk};
ghost use Rattle.level_tables.specs.Tables.{entry_of};
ghost use Rattle.level_reasons.specs.Kept.{IsNumbered, HoldsNumbers};
ghost use Rattle.level_reasons.specs.Reasons.{ProgramNumbers, IsEdgeReason, AreEdgeLines, can_switch};

use crate::lacks::{lack_of, percent_down, percent_up};
use crate::numbered::{Numbered, told_at};
use crate::shown::{EdgeLine, EdgeReason};
use level_tables::{EdgeNumbers, entry};
use power_model::Power;
use scale_base::{EdgeKind, NoMemory};
use std::alloc::Global;

/// Whether an edge of a kind is one of a branch or of a jump.
pub fn can_switch(kind: EdgeKind) -> bool
    ensures { result ≡ can_switch kind }
{
    matches!(kind, EdgeKind::Taken | EdgeKind::Untaken | EdgeKind::Jump)
}

/// Why a job at a level stays there on an edge, or to which level it goes.
fn edge_reason(power: &Power, level: u8, told: EdgeNumbers) -> EdgeReason
    requires level { level < length power.now.levels }
    requires least { IfSome told.least (λ z. z < 2 ^ 90) }
    ensures { IsEdgeReason power.now level told result }
{
    if level == 0 {
        return EdgeReason::AlreadySlowest;
    }
    let to = entry(power, level, told.slack, told.left, told.least);
    if to < level {
        return EdgeReason::GoesTo { level: to };
    }
    stays(power, level, told)
}

/// Why it stays there.
fn stays(power: &Power, level: u8, told: EdgeNumbers) -> EdgeReason
    requires above { 0 < level }
    requires level { level < length power.now.levels }
    requires stays { entry_of power.now told level ≡ level }
    ensures { IsEdgeReason power.now level told result }
{
    let lack = lack_of(power, level, told);
    if lack == 0 {
        return EdgeReason::PaysNot { least: told.least };
    }
    let needed = u128::from(told.slack) + lack;
    EdgeReason::FallsShort {
        falls: percent_down(u128::from(told.slack), told.left),
        needed: percent_up(needed, told.left),
    }
}

/// Whether an edge has a line.
fn has_line(kind: EdgeKind, slack: u64) -> bool
    ensures { result ≡ (can_switch kind && nat_lt 0 slack) }
{
    can_switch(kind) && slack > 0
}

/// A line for each edge of a branch or of a jump that has slack, in their order.
pub fn edge_lines(alloc: Global, program: &Numbered<'_>) -> Result<Vec<EdgeLine>, NoMemory>
    requires { IsNumbered program.now }
    ensures { IfOk result (λ lines. (n : ProgramNumbers) → HoldsNumbers program.now n →
        AreEdgeLines program.now.power.now program.now.graph.now n program.now.start lines.items) }
{
    let mut lines = Vec::new(alloc);
    for e in 0..program.graph.edge_count() {
        let edge = program.graph.edge(e);
        let told = told_at(program, e);
        if has_line(edge.kind, told.slack) {
            let reason = edge_reason(program.power, program.start, told);
            lines.push(EdgeLine {
                edge,
                slack: told.slack,
                reason,
            })?;
        }
    }
    Ok(lines)
}
