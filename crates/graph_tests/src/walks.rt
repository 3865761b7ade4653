//! What is counted along a walk that takes the worst cycles. Other rows are data, `explain.txt` of the second program's `cases`.

ghost use Rattle.std.specs.Prelude.{◌≡◌, ℕ, Bool};
ghost use Rattle.loop_forest.specs.Tree.{IsLoopTree};

use crate::programs::{BACK_1, BACK_3, ECALL, EXIT, NO_OPERATION, expect_list, program_of};
use flow_graph::{CodeGraph, Weights};
use loop_forest::LoopTree;
use scale_base::Stop;
use std::alloc::Global;
use std::test::Fail;
use worst_cycles::worst;
use worst_walks::{Known, WalkCounts, worst_walk};

/// What is counted under a weight of 1 of each edge.
fn counts_of(alloc: Global, graph: &CodeGraph, tree: &LoopTree) -> Result<Option<WalkCounts>, Stop>
    requires tree { (extent : ℕ → ℕ → Bool) × IsLoopTree graph.now extent tree.now }
{
    let weights = Weights::from_vec(vec![in alloc; 1; graph.edge_count()]?);
    let worst = worst(alloc, graph, tree, &weights)?;
    let known = Known {
        graph,
        tree,
        weights: &weights,
        worst: &worst,
    };
    Ok(worst_walk(alloc, &known)?)
}

/// Four inner turns in each of the outer, and in the last passage.
const NESTED: [u32; 8] = [
    NO_OPERATION,
    NO_OPERATION,
    NO_OPERATION,
    BACK_1,
    BACK_3,
    NO_OPERATION,
    EXIT,
    ECALL,
];

const NESTED_LOOPS: &str =
    "version = 1\nloop = [{header = 0x10004, ranges = [[0x10004, 0x10014]], bound = 3}, {header = 0x10008, ranges = [[0x10008, 0x10010]], bound = 4}]\n";

/// Calls by function, entries and turns by loop, own cycles by function and by loop.
#[test]
fn counts_what_the_worst_walk_takes(rt: HostRuntime) -> Result<(), Fail> {
    let program = program_of(rt.alloc(), &NESTED, NESTED_LOOPS)?;
    let found = counts_of(rt.alloc(), &program.graph, &program.tree);
    let Some(counts) = found.ok().ok_or("there is memory")? else {
        return Err("no walk is found".into());
    };
    expect_list(&rt, 0, &counts.calls, &[1]);
    expect_list(&rt, 1, &counts.entries, &[1, 4]);
    expect_list(&rt, 2, &counts.turns, &[3, 16]);
    expect_list(&rt, 3, &counts.function_own, &[4]);
    expect_list(&rt, 4, &counts.loop_own, &[8, 40]);
    Ok(())
}
