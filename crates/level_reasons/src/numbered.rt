//! A program with its numbers.

ghost use Rattle.std.specs.Prelude.{◌≡◌, ◌<◌, ◌^◌, length, IfSome};
ghost use Rattle.level_reasons.specs.Kept.{IsNumbered, HoldsNumbers};
ghost use Rattle.level_reasons.specs.Reasons.{ProgramNumbers};

use flow_graph::CodeGraph;
use least_cycles::LeastNumbers;
use level_tables::EdgeNumbers;
use loop_forest::LoopTree;
use power_model::Power;
use worst_cycles::WorstNumbers;

/// A program on a machine: its graph and its loops, its numbers, and its starting level.
#[derive(Clone, Copy)]
pub struct Numbered<'a> {
    pub power: &'a Power,
    pub graph: &'a CodeGraph,
    pub tree: &'a LoopTree,
    pub worst: &'a WorstNumbers,
    pub least: &'a LeastNumbers,
    pub start: u8,
}

/// What edge `e` tells a switch: its slack, and what is left behind it.
pub fn told_at(program: &Numbered<'_>, e: usize) -> EdgeNumbers
    requires program { IsNumbered program.now }
    requires edge { e < length program.now.graph.now.code.edges }
    ensures told { (n : ProgramNumbers) → HoldsNumbers program.now n → result ≡ n.told e }
    ensures least { IfSome result.least (λ z. z < 2 ^ 90) }
{
    EdgeNumbers {
        slack: program.worst.slack(e),
        left: program.worst.rest(e),
        least: program.least.to_end_after(e),
    }
}
