//! The turns of the loops round each node.

ghost use Rattle.std.specs.Prelude.{◌≡◌, ◌≢◌, ℕ, ◌+◌, ◌*◌, ◌^◌, ◌<◌, ◌≤◌, length, IfOk};
ghost use Rattle.graph_algorithms.specs.Arcs.{number_in_place, AreDistinct};
ghost use Rattle.worst_cycles.specs.Worst.{by_edge};
ghost use Rattle.worst_cycles.specs.Lefts.{AreTurnsRound};
ghost use Rattle.worst_cycles.specs.Planned.{IsVisitedGraph};

use crate::planned::VisitedGraph;
use scale_base::{CYCLE_LIMIT, NoMemory};
use std::alloc::Global;

/// Adds turns at the nodes of a body.
fn add_turns(body: &[usize], turns: u64, around: &mut Vec<u64>)
    requires within { (i : ℕ) → i < length body.now → number_in_place body.now i < length around.old.items }
    requires distinct { AreDistinct body.now }
    requires turns { turns ≤ CYCLE_LIMIT }
    requires small { (k : ℕ) → number_in_place around.old.items k ≤ 4096 * CYCLE_LIMIT }
    ensures size { length around.new.items ≡ length around.old.items }
    ensures inside { (i : ℕ) → i < length body.now → number_in_place around.new.items (number_in_place body.now i) ≡ number_in_place
        around.old.items (number_in_place body.now i) + turns }
    ensures outside { (k : ℕ) → ((i : ℕ) → i < length body.now → number_in_place body.now i ≢ k) →
        number_in_place around.new.items k ≡ number_in_place around.old.items k }
{
    for k in body {
        around[*k] += turns;
    }
}

/// By node, all turns of the loops round it.
pub fn turns_around(alloc: Global, visited: &VisitedGraph<'_>) -> Result<Vec<u64>, NoMemory>
    requires visited { IsVisitedGraph visited.now }
    ensures { IfOk result (λ around. AreTurnsRound visited.now.planned.graph.now visited.now.planned.tree.now
        (by_edge visited.now.planned.weights.now) around.items) }
{
    let tree = visited.planned.tree;
    let mut around = vec![in alloc; 0; visited.planned.graph.node_count()]?;
    for l in 0..tree.loop_count() {
        let turns = visited.visits[tree.header(l)].turns;
        add_turns(tree.body(l), turns, &mut around);
    }
    Ok(around)
}
