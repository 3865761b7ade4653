//! The reasons of loops.

ghost use Rattle.std.specs.Prelude.{◌≡◌, ◌+◌, ◌*◌, ◌<◌, ◌≤◌, ◌^◌, ℕ, Some, None, length, slice_index, IfSome, IfOk};
ghost use Rattle.level_reasons.specs.Kept.{IsNumbered, HoldsNumbers};
ghost use Rattle.level_reasons.specs.Reasons.{ProgramNumbers, IsWayOut, IsLoopReason, IsLoopLine, AreLoopLines};
ghost use Rattle.level_reasons.specs.Ways.{IsNearestKept, AreTurnsFor};

use crate::lacks::{percent_down, percent_up};
use crate::numbered::Numbered;
use crate::shown::{LoopLine, LoopReason};
use crate::ways::{Way, nearest_way};
use scale_base::NoMemory;
use std::alloc::Global;

/// The least number of turns, up to a bound, which have so many cycles together. None exactly where all of them have fewer.
fn turns_for(lack: u128, turn: u64, bound: u32) -> Option<u32>
    requires { lack < 2 ^ 98 }
    ensures some { IfSome result (λ turns. AreTurnsFor lack turn bound turns) }
    ensures none { result ≡ None → bound * turn < lack }
{
    if lack == 0 {
        return Some(0);
    }
    if u128::from(bound) * u128::from(turn) < lack {
        return None;
    }
    Some(lack.div_ceil(u128::from(turn)) as u32)
}

/// What it needs on the nearest way out of loop `l`.
fn reason_by(program: &Numbered<'_>, l: usize, way: Way) -> LoopReason
    requires program { IsNumbered program.now }
    requires above { 0 < program.now.start }
    requires within { l < length program.now.tree.now.headers }
    requires small { way.lack < 2 ^ 98 }
    ensures { (n : ProgramNumbers) → HoldsNumbers program.now n → IsNearestKept program.now.power.now program.now.start n.told
        (IsWayOut program.now.graph.now program.now.tree.now l) (Some way) → IsLoopReason program.now.power.now program.now.start n.told
        (IsWayOut program.now.graph.now program.now.tree.now l) (slice_index program.now.tree.now.bounds l) (n.turn l) result }
{
    let bound = program.tree.bound(l);
    let turn = program.worst.iteration(l);
    match turns_for(way.lack, turn, bound) {
        Some(needed) => LoopReason::NeedsTurns { needed, bound },
        None => {
            let gives = u128::from(way.slack) + u128::from(bound) * u128::from(turn);
            LoopReason::Never {
                bound,
                gives: percent_down(gives, way.left),
                needed: percent_up(u128::from(way.slack) + way.lack, way.left),
            }
        }
    }
}

/// What a job at the starting level needs to go to the next lower level on a way out of loop `l`.
fn loop_reason(program: &Numbered<'_>, l: usize) -> LoopReason
    requires program { IsNumbered program.now }
    requires within { l < length program.now.tree.now.headers }
    ensures { (n : ProgramNumbers) → HoldsNumbers program.now n → IsLoopReason program.now.power.now program.now.start n.told
        (IsWayOut program.now.graph.now program.now.tree.now l) (slice_index program.now.tree.now.bounds l) (n.turn l) result }
{
    if program.start == 0 {
        return LoopReason::AlreadySlowest;
    }
    match nearest_way(program, l) {
        None => LoopReason::NoWayOut,
        Some(way) => reason_by(program, l, way),
    }
}

/// The line of loop `l`.
fn loop_line(program: &Numbered<'_>, l: usize) -> LoopLine
    requires program { IsNumbered program.now }
    requires within { l < length program.now.tree.now.headers }
    requires few { l < 4096 }
    ensures { (n : ProgramNumbers) → HoldsNumbers program.now n → IsLoopLine program.now.power.now program.now.graph.now
        program.now.tree.now n program.now.start l result }
{
    LoopLine {
        number: l as u32 + 1,
        header: program.graph.node(program.tree.header(l)),
        turn: program.worst.iteration(l),
        reason: loop_reason(program, l),
    }
}

/// A line for each loop, in their order.
pub fn loop_lines(alloc: Global, program: &Numbered<'_>) -> Result<Vec<LoopLine>, NoMemory>
    requires { IsNumbered program.now }
    ensures { IfOk result (λ lines. (n : ProgramNumbers) → HoldsNumbers program.now n →
        AreLoopLines program.now.power.now program.now.graph.now program.now.tree.now n program.now.start lines.items) }
{
    let mut lines = Vec::new(alloc);
    for l in 0..program.tree.loop_count() {
        lines.push(loop_line(program, l))?;
    }
    Ok(lines)
}
