//! Finds the loops of a program's graph, and an order of its nodes along the edges that are no back edges.
//! Tests: crates/graph_tests/src/loops.rt.
#![tactic(auto)]

ghost use Rattle.scale_base.specs.Answer.{AnswersBy};
ghost use Rattle.loop_forest.specs.Tree.{IsTreeBuilt};

mod assembling;
mod backs;
mod cycles;
mod natural;
mod trips;

use crate::natural::find_loops;
use assembling::{EdgeOrder, assemble};
use backs::back_loops;
use cycles::cycle_of;
use flow_graph::CodeGraph;
use graph_algorithms::{Order, sort};
use loop_file::LoopNotes;
pub use loop_forest::{LoopTree, plain_arcs};
use scale_base::{Refusal, Stop};
use std::alloc::Global;

/// The loops of a graph by their notes, in the notes' order, with an order of the nodes along plain edges; or why they are
/// refused: by what `find_loops` refuses, or else by a cycle of plain edges, from its least address.
pub fn build_loops(alloc: Global, graph: &CodeGraph, notes: &LoopNotes) -> Result<LoopTree, Stop>
    ensures { AnswersBy (λ t. t) result (IsTreeBuilt graph.now notes.now) }
{
    let found = find_loops(alloc, graph, notes)?;
    let count = graph.node_count();
    let backs = back_loops(alloc, graph, &found.headers, &found.bodies)?;
    let arcs = plain_arcs(alloc, graph, &backs)?;
    match sort(alloc, count, &arcs)? {
        Order::Sorted(mut order) => {
            order.reverse();
            Ok(assemble(alloc, graph, notes, found, EdgeOrder { backs, order })?)
        }
        Order::Cycle(numbers) => {
            let cycle = cycle_of(alloc, graph, &numbers)?;
            Err(Stop::Refused(Refusal::UnboundedCycle(cycle)))
        }
    }
}
