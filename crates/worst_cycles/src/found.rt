//! The numbers of functions and loops, from those of nodes.

ghost use Rattle.std.specs.Prelude.{◌≡◌, ℕ, ◌+◌, ◌<◌, length, IfOk};
ghost use Rattle.graph_algorithms.specs.Arcs.{number_in_place};
ghost use Rattle.flow_graph.specs.FlowGraph.{IsFlowGraph};
ghost use Rattle.worst_cycles.specs.Needs.{AreEntries};
ghost use Rattle.worst_cycles.specs.Visits.{visit_at, AreVisits};

use crate::visits::Visit;
use flow_graph::CodeGraph;
use loop_forest::LoopTree;
use scale_base::NoMemory;
use std::alloc::Global;

/// By function, a plain path from its entry and all turns there.
pub fn worst_of(
    alloc: Global,
    graph: &CodeGraph,
    entries: &[usize],
    visits: &[Visit],
) -> Result<Vec<u64>, NoMemory>
    requires flow { IsFlowGraph graph.now }
    requires entries { AreEntries graph.now entries.now }
    requires visits { AreVisits graph.now visits.now }
    ensures size { IfOk result (λ worst. length worst.items ≡ length entries.now) }
    ensures each { IfOk result (λ worst. (f : ℕ) → f < length entries.now → number_in_place worst.items f ≡
        (visit_at visits.now (number_in_place entries.now f)).plain + (visit_at visits.now (number_in_place entries.now f)).turns) }
{
    let mut worst = Vec::with_capacity(alloc, entries.len())?;
    for k in entries {
        let visit = visits[*k];
        worst.push(visit.plain + visit.turns)?;
    }
    Ok(worst)
}

/// By loop, its iteration, which was found at its header.
pub fn iterations_of(alloc: Global, tree: &LoopTree, visits: &[Visit]) -> Result<Vec<u64>, NoMemory>
    requires within { (k : ℕ) → k < length tree.now.headers → number_in_place tree.now.headers k < length visits.now }
    ensures size { IfOk result (λ iterations. length iterations.items ≡ length tree.now.headers) }
    ensures each { IfOk result (λ iterations. (k : ℕ) → k < length tree.now.headers →
        number_in_place iterations.items k ≡ (visit_at visits.now (number_in_place tree.now.headers k)).iteration) }
{
    let mut iterations = Vec::with_capacity(alloc, tree.loop_count())?;
    for l in 0..tree.loop_count() {
        iterations.push(visits[tree.header(l)].iteration)?;
    }
    Ok(iterations)
}
